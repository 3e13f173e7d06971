// One value as a Q15 or Q14 number, as exports.
ghost use Rattle.std.specs.Prelude.{◌≡◌};
ghost use Rattle.fmt_q15.specs.Q15.{q15_of, q15_tap_of};
ghost use Rattle.fmt_q14.specs.Q14.{q14_tap_of};
ghost use Rattle.c_math.specs.Reports.{coded_report};

use verdict::{Refusal, Report};

// floor(32768 x + 0.5), held to −32768 and 32767; 0 for a NaN.
pub fn pel_q15_from_f64(x: f64) -> i16
    ensures { result ≡ q15_of x }
{
    fmt_q15::q15::q15_from_f64(x)
}

// A number as the value, or why there is none. Inlined: an export then has no call, and no report of its own to copy.
#[inline(always)]
fn told(c: Result<i16, Refusal>) -> Report
    ensures { result ≡ coded_report c }
{
    match c {
        Ok(q) => Report::accepted(0, q as f64),
        Err(why) => Report::from(why),
    }
}

// One tap as a Q15 number, as the value. Refused: 11 with the index 0 and −limit, limit, tap where its size is above
// the limit, (1 − 1/32768) · 1.01, or it is a NaN. Example: 1 gives 32767, 1.01 is refused.
pub fn pel_q15_tap(tap: f64) -> Report
    ensures { result ≡ coded_report (q15_tap_of 0 tap) }
{
    told(fmt_q15::q15::q15_tap(0, tap))
}

// One coefficient as a Q14 number, floor(16384 x + 0.5), as the value. Refused: 11 with the index 0 and −2, 2 −
// 1/16384, x where that floor isn't in −32768 to 32767, or x is a NaN. Example: −2 − 2^−15 gives −32768, 2 − 2^−15 is
// refused.
pub fn pel_q14_from_f64(x: f64) -> Report
    ensures { result ≡ coded_report (q14_tap_of 0 x) }
{
    told(fmt_q14::q14_from_f64(0, x))
}
