// One second-order section of the RBJ Audio EQ Cookbook.
ghost use Rattle.std.specs.Prelude.{◌≡◌};
ghost use Rattle.iir_biquad.specs.Biquad.{centre_taken, quality_taken, section_of, biquad_of};

use math_numbers::PI;
use verdict::{Reason, Refusal};

// What a section lets through.
#[derive(Clone, Copy)]
pub enum Response {
    Lowpass,
    Highpass,
    Bandpass,
    Notch,
}

// b0, b1, b2, a1, a2 with a0 = 1; zeros where refused. The scope has an array beside its refusal, so this is no
// `Result`: both are there either way, and what takes the numbers need not ask first.
#[derive(Clone, Copy)]
pub struct Biquad {
    pub coefs: [f64; 5],
    pub verdict: Result<(), Refusal>,
}

// The numbers of a section that is refused.
const ZEROS: [f64; 5] = [0.0; 5];

// Whether a centre lies between 0 and half of a finite rate.
pub fn takes_centre(centre: f64, rate: f64) -> bool
    ensures { result ≡ centre_taken centre rate }
{
    0.0 < centre && centre < rate / 2.0 && math_numbers::is_finite(rate)
}

// Whether a quality is finite and positive.
fn takes_quality(q: f64) -> bool
    ensures { result ≡ quality_taken q }
{
    0.0 < q && math_numbers::is_finite(q)
}

// The section of cos w0 and alpha, divided by a0 = 1 + alpha.
fn section(response: Response, c: f64, alpha: f64) -> [f64; 5]
    ensures { result ≡ section_of response c alpha }
{
    let a0 = 1.0 + alpha;
    let a1 = -2.0 * c;
    let a2 = 1.0 - alpha;
    match response {
        Response::Lowpass => [
            (1.0 - c) / 2.0 / a0,
            (1.0 - c) / a0,
            (1.0 - c) / 2.0 / a0,
            a1 / a0,
            a2 / a0,
        ],
        Response::Highpass => [
            (1.0 + c) / 2.0 / a0,
            -(1.0 + c) / a0,
            (1.0 + c) / 2.0 / a0,
            a1 / a0,
            a2 / a0,
        ],
        Response::Bandpass => [alpha / a0, 0.0 / a0, -alpha / a0, a1 / a0, a2 / a0],
        Response::Notch => [1.0 / a0, -2.0 * c / a0, 1.0 / a0, a1 / a0, a2 / a0],
    }
}

// The section for a centre frequency and a quality q at a rate: w0 = 2 π centre/rate, alpha = sin w0 / (2 q). Refused,
// in this order: 2 with 0, rate/2, centre where the centre isn't between 0 and half of a finite rate, so a bad rate is
// 2 too; 5 with 0, infinity, q where q isn't finite and positive.
pub fn biquad_coefs(response: Response, centre: f64, q: f64, rate: f64) -> Biquad
    ensures { result ≡ biquad_of response centre q rate }
{
    if !takes_centre(centre, rate) {
        return Biquad {
            coefs: ZEROS,
            verdict: Err(Refusal::Range(Reason::Frequency, 0.0, rate / 2.0, centre)),
        };
    }
    if !takes_quality(q) {
        let inf = 1.0 / 0.0;
        return Biquad {
            coefs: ZEROS,
            verdict: Err(Refusal::Range(Reason::Shape, 0.0, inf, q)),
        };
    }
    let w0 = 2.0 * PI * centre / rate;
    let c = math_trig::cos::cos(w0);
    let alpha = math_trig::sin::sin(w0) / (2.0 * q);
    Biquad {
        coefs: section(response, c, alpha),
        verdict: Ok(()),
    }
}
