// Q2.14: a coefficient as a whole number of 1/16384, in 16 bits.
#![tactic(auto)]

ghost use Rattle.std.specs.Prelude.{◌≡◌};
ghost use Rattle.math_round.specs.Whole.{floor_of};
ghost use Rattle.verdict.specs.Converts.{Converts};
ghost use Rattle.fmt_q14.specs.Q14.{moved, takes, outside, q14_of, q14_tap_of};

use fmt_q15::convert::{Coded, convert};
use verdict::Refusal;

// The largest number that there is.
const MOST: f64 = 2.0 - 1.0 / 16384.0;

// 2^50, below which the floor has a short way. `floor` tests that too, but it is too long to stand within a loop.
const SMALL: f64 = 1125899906842624.0;

// floor(16384 x + 0.5), x being element i: 11 with the index and −2, 2 − 1/16384, x where that floor isn't in −32768 to
// 32767, or for a NaN. Nothing saturates. Example: 0.5 gives 8192, −2 gives −32768, and so does −2 − 2^−15; 2 − 2^−15
// is refused.
pub fn q14_from_f64(i: u64, x: f64) -> Result<i16, Refusal>
    ensures { result ≡ q14_tap_of i x }
{
    let w = x * 16384.0 + 0.5;
    if w > -SMALL && w < SMALL {
        number(i, x, math_round::floor::floor_small(w))
    } else {
        number(i, x, math_round::floor::floor(w))
    }
}

// The number by its floor, where that is in 16 bits. A zero stands apart because a cast takes no −0.
fn number(i: u64, x: f64, v: f64) -> Result<i16, Refusal>
    requires { v ≡ floor_of (moved x) }
    ensures { result ≡ q14_tap_of i x }
{
    if v >= -32768.0 && v <= 32767.0 {
        if v == 0.0 { Ok(0) } else { Ok(v as i16) }
    } else {
        Err(Refusal::Element(i, -2.0, MOST, x))
    }
}

// Q2.14 as a code of 16 bits.
struct Q14;

impl Coded for Q14 {
    ghost takes = { takes };

    ghost outside = { outside };

    ghost item = { q14_of };

    #[tactic(auto, unfolding(crate::specs::Q14::q14_tap_of))]
    fn coded(i: u64, x: f64) -> Result<i16, Refusal> {
        q14_from_f64(i, x)
    }
}

// Converts sections, five numbers each, one after the other. Refused, in this order: 8 a source that isn't whole
// sections, with the length to the last whole one and the length; 8 where the lengths differ; and then nothing is
// written; 11 at the first number that isn't taken, counted from the first of all, and then those before it are
// converted and the rest is as it came.
pub fn to_q14(src: &[f64], dst: &mut [i16]) -> Result<(), Refusal>
    ensures { Converts 5 takes outside q14_of src.now dst.old result dst.new }
{
    let n = src.len();
    if n % 5 != 0 {
        let m = n as u64;
        return Err(Refusal::Length(m - m % 5, m));
    }
    convert::<Q14>(src, &mut *dst)
}
