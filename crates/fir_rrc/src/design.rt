// The design of the root-raised-cosine pulse: judged first, then its taps one at a time.
ghost use Rattle.std.specs.Prelude.{◌≡◌, ◌^◌, ◌<◌, ◌≤◌};
ghost use Rattle.std.specs.Float.{binary64};
ghost use Rattle.laws.specs.Binary64.{◌⊗◌};
ghost use Rattle.laws.specs.Sums.{sum_to};
ghost use Rattle.fir_rrc.specs.Rrc.{sampled, spanned, rrc_len_of, peak, corner, slope, pulse_at, unscaled_at, rolloff_taken, rrc_of, tap_of, fitted_of};

use fir_design::Design;
use math_numbers::{PI, TAP_LIMIT};
use verdict::{Reason, Refusal};

const SQRT_2: f64 = 1.4142135623730951;

// A design: the roll-off, the samples of a symbol, how many taps, and the factor that makes their energy 1.
#[derive(Clone, Copy)]
pub struct Rrc {
    pub rolloff: f64,
    pub sps: u64,
    pub n: u64,
    pub norm: f64,
}

// Whether a symbol has so many samples: 2 to 1024.
fn takes_samples(sps: u64) -> bool
    ensures { result ≡ sampled sps }
{
    2 <= sps && sps <= 1024
}

// Whether a pulse spans so many symbols: 4 to 32.
fn takes_span(span: u64) -> bool
    ensures { result ≡ spanned span }
{
    4 <= span && span <= 32
}

// How many taps: span · sps + 1. Refused, in this order: 6 with 2, 1024, sps; 6 with 4, 32, span. Example: (2, 4) has
// 9.
pub fn rrc_len(sps: u64, span: u64) -> Result<u64, Refusal>
    ensures { result ≡ rrc_len_of sps span }
{
    if !takes_samples(sps) {
        return Err(Refusal::Range(
            Reason::Count,
            2.0,
            1024.0,
            std::num::nearest_u64_to_f64(sps),
        ));
    }
    if !takes_span(span) {
        return Err(Refusal::Range(Reason::Count, 4.0, 32.0, std::num::nearest_u64_to_f64(span)));
    }
    Ok(span * sps + 1)
}

// Whether a roll-off is from 0.05 to 1.
fn takes_rolloff(b: f64) -> bool
    ensures { result ≡ rolloff_taken b }
{
    0.05 <= b && b <= 1.0
}

// The pulse in its middle.
fn peak_of(b: f64) -> f64
    ensures { result ≡ peak b }
{
    (1.0 - b) + 4.0 * b / PI
}

// The pulse where the formula has 0/0.
fn corner_of(b: f64) -> f64
    ensures { result ≡ corner b }
{
    let a = PI / (4.0 * b);
    (b / SQRT_2)
        * ((1.0 + 2.0 / PI) * math_trig::sin::sin(a) + (1.0 - 2.0 / PI) * math_trig::cos::cos(a))
}

// The pulse elsewhere, x being 4 b t and den 1 − x².
fn slope_of(b: f64, t: f64, x: f64, den: f64) -> f64
    ensures { result ≡ slope b t x den }
{
    let num = math_trig::sin::sin(PI * t * (1.0 - b)) + x * math_trig::cos::cos(PI * t * (1.0 + b));
    num / (PI * t * den)
}

// The pulse at t symbols from its middle.
fn pulse_at(b: f64, t: f64) -> f64
    ensures { result ≡ pulse_at b t }
{
    if t == 0.0 {
        return peak_of(b);
    }
    let x = 4.0 * b * t;
    let den = 1.0 - x * x;
    if math_round::fabs::fabs(den) < 1e-9 {
        return corner_of(b);
    }
    slope_of(b, t, x, den)
}

// A pulse before the scaling: the roll-off, the samples of a symbol, and how many taps. Both counts are exact as floats.
#[derive(Clone, Copy)]
struct Pulse {
    rolloff: f64,
    sps: u64,
    n: u64,
    ghost sps_high: { sps ≤ 2 ^ 24 },
    ghost n_high: { n ≤ 2 ^ 24 },
}

impl Pulse {
    // Tap k before the scaling.
    fn unscaled_at(self, k: u64) -> f64
        requires { k < self.n }
        ensures { result ≡ unscaled_at self.rolloff self.sps self.n k }
    {
        let t = ((k as f64) - ((self.n - 1) as f64) / 2.0) / (self.sps as f64);
        pulse_at(self.rolloff, t)
    }

    // The energy of the taps before the scaling, by rising index from +0.
    fn energy(self) -> f64
        ensures { result ≡ sum_to binary64 (λ k. unscaled_at self.rolloff self.sps self.n k ⊗ unscaled_at self.rolloff self.sps self.n k) self.n }
    {
        let mut sum = 0.0;
        for k in 0..self.n {
            let h = self.unscaled_at(k);
            sum = sum + h * h;
        }
        sum
    }
}

impl Rrc {
    // The design for a roll-off, sps samples a symbol and a span of so many symbols. Refused, in this order: 5 with
    // 0.05, 1, rolloff; then as `rrc_len`, the samples first.
    pub fn new(rolloff: f64, sps: u64, span: u64) -> Result<Rrc, Refusal>
        ensures { result ≡ rrc_of rolloff sps span }
    {
        if !takes_rolloff(rolloff) {
            return Err(Refusal::Range(Reason::Shape, 0.05, 1.0, rolloff));
        }
        let n = rrc_len(sps, span)?;
        let pulse = Pulse { rolloff, sps, n };
        let norm = 1.0 / math_sqrt::sqrt::sqrt(pulse.energy());
        Ok(Rrc {
            rolloff,
            sps,
            n,
            norm,
        })
    }

    // How many taps.
    pub fn len(self) -> u64
        ensures { result ≡ self.n }
    {
        self.n
    }

    // Tap k, times the factor; 0 past the last tap, and for a record that no design gives.
    pub fn tap(self, k: u64) -> f64
        ensures { result ≡ tap_of self k }
    {
        let n = self.n;
        if n > TAP_LIMIT {
            return 0.0;
        }
        if k < n {
            let sps = self.sps;
            if sps > TAP_LIMIT {
                return 0.0;
            }
            let pulse = Pulse {
                rolloff: self.rolloff,
                sps,
                n,
            };
            pulse.unscaled_at(k) * self.norm
        } else {
            0.0
        }
    }
}

impl Design for Rrc {
    ghost count = { λ d. d.n };

    ghost divisor = { λ d. d.norm };

    ghost tap = { tap_of };

    // No raw tap is kept, and a tap is a product.
    ghost keeps = { λ d rs. Unit {0} };

    fn count(self) -> u64 {
        self.len()
    }

    fn divisor(self) -> f64 {
        self.norm
    }

    fn tap(self, i: u64) -> f64 {
        Rrc::tap(self, i)
    }
}

// The design for a buffer of `len` elements: refused as `Rrc::new`, then 8 where the taps are not `len`.
pub fn fitted(rolloff: f64, sps: u64, span: u64, len: u64) -> Result<Rrc, Refusal>
    ensures { result ≡ fitted_of (rrc_of rolloff sps span) len }
{
    fir_design::fitted(Rrc::new(rolloff, sps, span), len)
}
