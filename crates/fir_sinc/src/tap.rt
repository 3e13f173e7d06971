// The taps of a windowed sinc before their division, one at a time.
ghost use Rattle.std.specs.Prelude.{◌≡◌, ◌^◌, ◌<◌, ◌≤◌};
ghost use Rattle.fir_sinc.specs.Taps.{sinc, offset_at, ideal_at, raw_at, raw_within};

use super::window::{Window, window_at};
use math_numbers::{PI, TAP_LIMIT};

// sin(π x) / (π x), and 1 at 0.
fn sinc_at(x: f64) -> f64
    ensures { result ≡ sinc x }
{
    if x == 0.0 {
        1.0
    } else {
        math_trig::sin::sin(PI * x) / (PI * x)
    }
}

// Where tap i of n lies in the sinc: 2 fc (i − (n − 1)/2).
pub(crate) fn offset_at(fc: f64, n: u64, i: u64) -> f64
    requires n_high { n ≤ 2 ^ 24 }
    requires i_high { i < n }
    ensures { result ≡ offset_at fc n i }
{
    let m = ((n - 1) as f64) / 2.0;
    2.0 * fc * ((i as f64) - m)
}

// 2 fc sinc(2 fc (i − (n − 1)/2)): tap i of n without a window.
pub(crate) fn ideal_at(fc: f64, n: u64, i: u64) -> f64
    requires n_high { n ≤ 2 ^ 24 }
    requires i_high { i < n }
    ensures { result ≡ ideal_at fc n i }
{
    2.0 * fc * sinc_at(offset_at(fc, n, i))
}

// Tap i of n before the division: with the window.
pub(crate) fn raw_at(fc: f64, w: Window, i0: f64, n: u64, i: u64) -> f64
    requires n_high { n ≤ 2 ^ 24 }
    requires i_high { i < n }
    ensures { result ≡ raw_at fc w i0 n i }
{
    ideal_at(fc, n, i) * window_at(w, i0, n, i)
}

// The same for any numbers: 0 past the last tap, and for more taps than a design takes.
pub fn raw_tap(fc: f64, w: Window, i0: f64, n: u64, i: u64) -> f64
    ensures { result ≡ raw_within fc w i0 n i }
{
    if n > TAP_LIMIT {
        return 0.0;
    }
    if i < n { raw_at(fc, w, i0, n, i) } else { 0.0 }
}
