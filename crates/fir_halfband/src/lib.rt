// Half-band filters: every second tap but the middle one is zero, the right half mirrors the left, and the taps add up
// to 1.
#![tactic(auto)]

ghost use Rattle.std.specs.Prelude.{◌≡◌, ◌<◌};
ghost use Rattle.std.specs.Float.{binary64};
ghost use Rattle.laws.specs.Sums.{sum_to};
ghost use Rattle.fir_lowpass.specs.Cached.{Caches};
ghost use Rattle.fir_halfband.specs.Halfband.{length_taken, vanishes, unscaled, halfband_of, tap_of, PreparesHalfband};

use fir_design::Design;
use fir_lowpass::lowpass::{Lowpass, is_usable};
use fir_sinc::window::Window;
use verdict::{Reason, Refusal};

// A design: the low-pass that it is made from, how many taps, and the sum that they are divided by last.
#[derive(Clone, Copy)]
pub struct HalfbandDesign {
    pub lp: Lowpass,
    pub n: u64,
    pub sum: f64,
}

// Whether a half-band has n taps: n mod 4 = 3.
fn takes_length(n: u64) -> bool
    ensures { result ≡ length_taken n }
{
    3 <= n && n % 4 == 3
}

// Whether tap k of n is zero: its distance from the middle is even and not 0.
fn is_zero_at(n: u64, k: u64) -> bool
    requires { k < n }
    ensures { result ≡ vanishes n k }
{
    let m = (n - 1) / 2;
    let d = if k < m { m - k } else { k - m };
    d != 0 && d % 2 == 0
}

// Tap k of n before the last division: zero, or the tap of the low-pass at k or at its mirror image, whichever comes
// first. `raws` keeps the first raw taps of the low-pass.
fn unscaled_tap(lp: Lowpass, raws: &[f64], n: u64, k: u64) -> f64
    requires { k < n }
    ensures { Caches lp raws.now → result ≡ unscaled lp n k }
{
    if is_zero_at(n, k) {
        return 0.0;
    }
    let across = n - 1 - k;
    let first = if k < across { k } else { across };
    fir_lowpass::lowpass::cached_tap(lp, raws, first)
}

// The sum of the taps before the last division, by rising index from +0.
fn total(lp: Lowpass, raws: &[f64], n: u64) -> f64
    ensures { Caches lp raws.now → result ≡ sum_to binary64 (unscaled lp n) n }
{
    let mut sum = 0.0;
    for k in 0..n {
        sum = sum + unscaled_tap(lp, raws, n, k);
    }
    sum
}

// The design of a half-band of n taps with Kaiser's window. Refused, in this order: 6 where n isn't 3 mod 4; as a
// low-pass of n taps with the cutoff at a quarter of the rate: 6, 4, 16, 10; 10 where the sum of the taps is 0 or not
// finite.
// The first raw taps are left in `raws`, as many as it has places.
pub fn prepare(beta: f64, n: u64, raws: &mut [f64]) -> Result<HalfbandDesign, Refusal>
    ensures { PreparesHalfband (halfband_of beta n) result raws.new }
{
    if !takes_length(n) {
        return Err(Refusal::Plain(Reason::Count));
    }
    let lp = fir_lowpass::lowpass::prepare(0.25, 1.0, Window::Kaiser(beta), n, &mut *raws)?;
    let sum = total(lp, &*raws, n);
    if !is_usable(sum) {
        return Err(Refusal::Plain(Reason::Divisor));
    }
    Ok(HalfbandDesign { lp, n, sum })
}

// Tap k of a design, `raws` keeping the first raw taps of its low-pass; 0 past the last tap.
pub fn cached_tap(d: HalfbandDesign, raws: &[f64], k: u64) -> f64
    ensures { Caches d.lp raws.now → result ≡ tap_of d k }
{
    let n = d.n;
    if k < n {
        let lp = d.lp;
        unscaled_tap(lp, raws, n, k) / d.sum
    } else {
        0.0
    }
}

impl Design for HalfbandDesign {
    ghost count = { λ d. d.n };

    ghost divisor = { λ d. d.sum };

    ghost tap = { tap_of };

    ghost keeps = { λ d. Caches d.lp };

    fn count(self) -> u64 {
        self.len()
    }

    fn divisor(self) -> f64 {
        self.sum
    }

    fn tap(self, i: u64) -> f64 {
        HalfbandDesign::tap(self, i)
    }

    fn cached_tap(self, raws: &[f64], i: u64) -> f64 {
        cached_tap(self, raws, i)
    }
}

impl HalfbandDesign {
    // The design alone; refused as `prepare`.
    pub fn new(beta: f64, n: u64) -> Result<HalfbandDesign, Refusal>
        ensures { result ≡ halfband_of beta n }
    {
        let mut none = [0.0f64; 0];
        prepare(beta, n, &mut none)
    }

    // How many taps.
    pub fn len(self) -> u64
        ensures { result ≡ self.n }
    {
        self.n
    }

    // Tap k, divided by the sum.
    pub fn tap(self, k: u64) -> f64
        ensures { result ≡ tap_of self k }
    {
        let none = [0.0f64; 0];
        cached_tap(self, &none, k)
    }
}
