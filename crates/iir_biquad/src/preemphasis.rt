// First-order pre-emphasis.
ghost use Rattle.std.specs.Prelude.{◌≡◌};
ghost use Rattle.iir_biquad.specs.Preemphasis.{constant_taken, rate_taken, preemphasis_of};

use math_numbers::PI;
use verdict::{Reason, Refusal};

// b0, b1, a1 with a0 = 1; zeros where refused, beside the refusal and no `Result` for the reason that `Biquad` gives.
#[derive(Clone, Copy)]
pub struct Preemphasis {
    pub coefs: [f64; 3],
    pub verdict: Result<(), Refusal>,
}

// The numbers of what is refused.
const ZEROS: [f64; 3] = [0.0; 3];

// Whether a time constant is above 0 and at most a millisecond.
fn takes_constant(tau: f64) -> bool
    ensures { result ≡ constant_taken tau }
{
    0.0 < tau && tau <= 0.001
}

// Whether a rate is finite and at least 40 kHz. What is at least that is neither a NaN nor below, so that only infinity
// is left to test.
fn takes_rate(rate: f64) -> bool
    ensures { result ≡ rate_taken rate }
{
    40000.0 <= rate && rate < 1.0 / 0.0
}

// (1 + s tau)/(1 + s tau_p), the pole at rate/2.4, by the bilinear transform with K = 2 rate. Refused, in this order: 5
// with 0, 0.001, tau; 1 with 40000, infinity, rate.
pub fn preemphasis_coefs(tau: f64, rate: f64) -> Preemphasis
    ensures { result ≡ preemphasis_of tau rate }
{
    if !takes_constant(tau) {
        return Preemphasis {
            coefs: ZEROS,
            verdict: Err(Refusal::Range(Reason::Shape, 0.0, 0.001, tau)),
        };
    }
    if !takes_rate(rate) {
        let inf = 1.0 / 0.0;
        return Preemphasis {
            coefs: ZEROS,
            verdict: Err(Refusal::Range(Reason::Rate, 40000.0, inf, rate)),
        };
    }
    let pole = 1.0 / (2.0 * PI * (rate / 2.4));
    let k = 2.0 * rate;
    let den = 1.0 + k * pole;
    Preemphasis {
        coefs: [
            (1.0 + k * tau) / den,
            (1.0 - k * tau) / den,
            (1.0 - k * pole) / den,
        ],
        verdict: Ok(()),
    }
}
