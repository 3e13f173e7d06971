// The windowed-sinc low-pass: judged first, then its taps one at a time.
ghost use Rattle.std.specs.Prelude.{◌≡◌, ◌<◌, ◌≤◌};
ghost use Rattle.fir_lowpass.specs.Lowpass.{inside, count_taken, beta_taken, series_settle, usable, judgement_of, design_of, lowpass_with, lowpass_of, tap_of};
ghost use Rattle.fir_lowpass.specs.Cached.{Caches, PreparesLowpass};

use fir_design::Design;
use fir_sinc::sum::total;
use fir_sinc::tap::raw_tap;
use fir_sinc::window::{Window, norm};
use math_numbers::TAP_LIMIT;
use verdict::{Reason, Refusal};

// A design: how many taps, the cutoff as a fraction of the rate, the window, the value that the window is divided by
// (the series at beta, 1 where the window isn't Kaiser's), and the sum that the taps are divided by.
#[derive(Clone, Copy)]
pub struct Lowpass {
    pub n: u64,
    pub fc: f64,
    pub window: Window,
    pub i0: f64,
    pub sum: f64,
}

// Whether a cutoff lies between 0 and half the rate.
fn is_inside(fc: f64) -> bool
    ensures { result ≡ inside fc }
{
    0.0 < fc && fc < 0.5
}

// Whether a design takes n taps: 1 to 2^24.
fn takes_count(n: u64) -> bool
    ensures { result ≡ count_taken n }
{
    0 < n && n <= TAP_LIMIT
}

// Whether a window's beta is taken: finite and not negative.
fn takes_beta(w: Window) -> bool
    ensures { result ≡ beta_taken w }
{
    match w {
        Window::Hann => true,
        Window::Hamming => true,
        Window::Blackman => true,
        Window::Kaiser(beta) => math_numbers::is_finite(beta) && 0.0 <= beta,
        Window::Cosines(_) => true,
    }
}

// Whether every series that n taps take has settled: Kaiser's at beta and at each tap. One tap takes none.
fn series_settle(w: Window, n: u64) -> bool
    requires { 0 < n }
    ensures { result ≡ series_settle w n }
{
    match w {
        Window::Hann => true,
        Window::Hamming => true,
        Window::Blackman => true,
        Window::Kaiser(beta) => win_settling::settles(beta, n - 1, n),
        Window::Cosines(_) => true,
    }
}

// Whether taps can be divided by s.
pub fn is_usable(s: f64) -> bool
    ensures { result ≡ usable s }
{
    math_numbers::is_finite(s) && s != 0.0
}

// The numbers of a ticket. Refused, in this order: 1 a rate that isn't finite and positive; 2 with 0, rate/2, cutoff
// where cutoff/rate isn't between 0 and 1/2; 6 no taps or more than 2^24; 4 a beta that isn't finite and not negative;
// 16 a series at beta or at a tap that hasn't settled, where there are more taps than one.
fn judge(cutoff: f64, rate: f64, window: Window, n: u64) -> Result<(), Refusal>
    ensures { result ≡ judgement_of cutoff rate window n }
{
    if !math_numbers::is_positive(rate) {
        return Err(Refusal::Plain(Reason::Rate));
    }
    if !is_inside(cutoff / rate) {
        return Err(Refusal::Range(Reason::Frequency, 0.0, rate / 2.0, cutoff));
    }
    if !takes_count(n) {
        return Err(Refusal::Plain(Reason::Count));
    }
    if !takes_beta(window) {
        return Err(Refusal::Plain(Reason::Attenuation));
    }
    if !series_settle(window, n) {
        return Err(Refusal::Plain(Reason::Unsettled));
    }
    Ok(())
}

// The design whose numbers passed, its window divided by i0; 10 where the sum of the raw taps is 0 or not finite.
fn build(fc: f64, window: Window, i0: f64, n: u64, raws: &mut [f64]) -> Result<Lowpass, Refusal>
    requires { n ≤ 16777216 }
    ensures { PreparesLowpass (design_of fc window i0 n) result raws.new }
{
    let sum = total(fc, window, i0, n, &mut *raws);
    if !is_usable(sum) {
        return Err(Refusal::Plain(Reason::Divisor));
    }
    Ok(Lowpass {
        n,
        fc,
        window,
        i0,
        sum,
    })
}

// The design of a low-pass. Refused, in this order: 1 a rate that isn't finite and positive; 2 with 0, rate/2, cutoff
// where cutoff/rate isn't between 0 and 1/2; 6 no taps or more than 2^24; 4 a beta that isn't finite and not negative;
// 16 a series at beta or at a tap that hasn't settled, where there are more taps than one; 10 a sum of the raw taps that
// is 0 or not finite.
// The first raw taps are left in `raws`, as many as it has places.
pub fn prepare(
    cutoff: f64,
    rate: f64,
    window: Window,
    n: u64,
    raws: &mut [f64],
) -> Result<Lowpass, Refusal>
    ensures { PreparesLowpass (lowpass_of cutoff rate window n) result raws.new }
{
    judge(cutoff, rate, window, n)?;
    build(cutoff / rate, window, norm(window), n, &mut *raws)
}

// The same where i0, the value that the window is divided by, is at hand; refused as that.
pub fn prepare_with(
    cutoff: f64,
    rate: f64,
    window: Window,
    i0: f64,
    n: u64,
    raws: &mut [f64],
) -> Result<Lowpass, Refusal>
    ensures { PreparesLowpass (lowpass_with cutoff rate window i0 n) result raws.new }
{
    judge(cutoff, rate, window, n)?;
    build(cutoff / rate, window, i0, n, &mut *raws)
}

impl Design for Lowpass {
    ghost count = { λ l. l.n };

    ghost divisor = { λ l. l.sum };

    ghost tap = { tap_of };

    ghost keeps = { Caches };

    fn count(self) -> u64 {
        self.len()
    }

    fn divisor(self) -> f64 {
        self.sum
    }

    fn tap(self, i: u64) -> f64 {
        Lowpass::tap(self, i)
    }

    fn quotients(self, raws: &[f64]) -> usize {
        fir_design::kept(self.n, raws)
    }
}

// Tap i of a design where `raws` keeps its first raw taps, which are taken from there.
pub fn cached_tap(lp: Lowpass, raws: &[f64], i: u64) -> f64
    ensures { Caches lp raws.now → result ≡ tap_of lp i }
{
    Design::cached_tap(lp, raws, i)
}

impl Lowpass {
    // The design alone; refused as `prepare`.
    pub fn new(cutoff: f64, rate: f64, window: Window, n: u64) -> Result<Lowpass, Refusal>
        ensures { result ≡ lowpass_of cutoff rate window n }
    {
        let mut none = [0.0f64; 1];
        prepare(cutoff, rate, window, n, &mut none)
    }

    // How many taps.
    pub fn len(self) -> u64
        ensures { result ≡ self.n }
    {
        self.n
    }

    // Tap i, divided by the sum; 0 past the last tap, and for a record with more taps than a design has.
    pub fn tap(self, i: u64) -> f64
        ensures { result ≡ tap_of self i }
    {
        let n = self.n;
        if n > TAP_LIMIT {
            return 0.0;
        }
        if i < n {
            let w = self.window;
            raw_tap(self.fc, w, self.i0, n, i) / self.sum
        } else {
            0.0
        }
    }
}
