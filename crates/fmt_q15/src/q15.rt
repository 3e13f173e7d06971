// Q15: a tap as a whole number of 1/32768, in 16 bits.
ghost use Rattle.std.specs.Prelude.{◌≡◌};
ghost use Rattle.verdict.specs.Converts.{Converts};
ghost use Rattle.fmt_q15.specs.Q15.{takes, outside, q15_of, q15_tap_of};

use super::convert::{Coded, convert};
use verdict::Refusal;

// The largest size that is taken: a hundredth above the largest Q15 number.
const LIMIT: f64 = (1.0 - 1.0 / 32768.0) * 1.01;

// floor(32768 x + 0.5), held to −32768 and 32767; 0 for a NaN. So halves go up: 2^−16 gives 1 and −2^−16 gives 0. Zeros
// stand apart because a cast takes no −0.
pub fn q15_from_f64(x: f64) -> i16
    ensures { result ≡ q15_of x }
{
    let moved = x * 32768.0 + 0.5;
    if moved != moved {
        return 0;
    }
    let v = math_round::floor::floor(moved);
    if v >= 32767.0 {
        32767
    } else if v <= -32768.0 {
        -32768
    } else if v == 0.0 {
        0
    } else {
        v as i16
    }
}

// Whether the size of t is at most the limit; a NaN's isn't.
fn takes_tap(t: f64) -> bool
    ensures { result ≡ takes t }
{
    math_round::fabs::fabs(t) <= LIMIT
}

// One tap as a Q15 number, t being element i: 11 with the index and −limit, limit, t where its size is above the limit
// or it is a NaN.
pub fn q15_tap(i: u64, t: f64) -> Result<i16, Refusal>
    ensures { result ≡ q15_tap_of i t }
{
    if takes_tap(t) {
        Ok(q15_from_f64(t))
    } else {
        Err(Refusal::Element(i, -LIMIT, LIMIT, t))
    }
}

// Q15 as a code of 16 bits.
struct Q15;

impl Coded for Q15 {
    ghost takes = { takes };

    ghost outside = { outside };

    ghost item = { q15_of };

    #[tactic(auto, unfolding(crate::specs::Q15::q15_tap_of))]
    fn coded(i: u64, x: f64) -> Result<i16, Refusal> {
        q15_tap(i, x)
    }
}

// Converts the source element by element. Refused: 8 where the lengths differ, and then nothing is written; 11 at the
// first element that isn't taken, and then those before it are converted and the rest is as it came. Example: 1, −1
// gives 32767, −32768.
pub fn to_q15(src: &[f64], dst: &mut [i16]) -> Result<(), Refusal>
    ensures { Converts 1 takes outside q15_of src.now dst.old result dst.new }
{
    convert::<Q15>(src, &mut *dst)
}
