// A low-pass by what it has to do: Kaiser's formulas find how many taps and which beta.
#![tactic(auto)]

ghost use Rattle.std.specs.Prelude.{◌≡◌};
ghost use Rattle.fir_lowpass.specs.Cached.{PreparesLowpass};
ghost use Rattle.fir_spec.specs.Spec.{cutoff_taken, capped_of, spec_order_of, num_taps_of, spec_lowpass_of, spec_design_of};

use fir_length::order::{Order, kaiserord};
use fir_lowpass::lowpass::{Lowpass, prepare};
use fir_sinc::window::Window;
use verdict::{Reason, Refusal};

// The cutoff, the width of the transition around it, and the attenuation in dB beyond it.
#[derive(Clone, Copy)]
pub struct DesignSpec {
    pub cutoff: f64,
    pub transition: f64,
    pub attenuation: f64,
}

// Whether a cutoff is above 0 and at most `most`.
fn takes_cutoff(cutoff: f64, most: f64) -> bool
    ensures { result ≡ cutoff_taken cutoff most }
{
    0.0 < cutoff && cutoff <= most
}

// Taps and beta of a specification at a rate. Refused, in this order: 1 a rate that isn't finite and positive; 3 with
// 0, rate/2, transition where that isn't; 2 with 0, rate/2 − transition/2, cutoff where the cutoff isn't above 0 and at
// most that; 4, 3, 3 as kaiserord; 9 more taps than the cap.
pub fn spec_order(spec: DesignSpec, rate: f64, cap: u64) -> Result<Order, Refusal>
    ensures { result ≡ spec_order_of spec rate cap }
{
    if !math_numbers::is_positive(rate) {
        return Err(Refusal::Plain(Reason::Rate));
    }
    let transition = spec.transition;
    if !math_numbers::is_positive(transition) {
        return Err(Refusal::Range(Reason::Transition, 0.0, rate / 2.0, transition));
    }
    let cutoff = spec.cutoff;
    let most = rate / 2.0 - transition / 2.0;
    if !takes_cutoff(cutoff, most) {
        return Err(Refusal::Range(Reason::Frequency, 0.0, most, cutoff));
    }
    let order = kaiserord(spec.attenuation, transition, rate)?;
    if cap < order.taps {
        return Err(Refusal::Cap(order.taps, cap));
    }
    Ok(order)
}

// The design for a buffer of `len` elements: refused as `spec_order`, then 8 where the taps are not `len`, then as a
// low-pass.
// The first raw taps are left in `raws`, as many as it has places.
pub fn spec_prepare(
    spec: DesignSpec,
    rate: f64,
    cap: u64,
    len: u64,
    raws: &mut [f64],
) -> Result<Lowpass, Refusal>
    ensures { PreparesLowpass (spec_design_of spec rate cap len) result raws.new }
{
    let order = spec_order(spec, rate, cap)?;
    let n = order.taps;
    if n != len {
        return Err(Refusal::Length(n, len));
    }
    prepare(spec.cutoff, rate, Window::Kaiser(order.beta), n, &mut *raws)
}

impl DesignSpec {
    // How many taps, odd: refused as `spec_order`. Example: 60 dB, transition 100, cutoff 1000 at rate 8000 needs 293,
    // so a cap of 292 gives 9.
    pub fn num_taps(self, rate: f64, cap: u64) -> Result<u64, Refusal>
        ensures { result ≡ num_taps_of self rate cap }
    {
        Ok(spec_order(self, rate, cap)?.taps)
    }

    // The design alone, of as many taps as it needs: refused as `spec_order`, then as a low-pass.
    pub fn lowpass(self, rate: f64, cap: u64) -> Result<Lowpass, Refusal>
        ensures { result ≡ spec_lowpass_of self rate cap }
    {
        let order = spec_order(self, rate, cap)?;
        Lowpass::new(self.cutoff, rate, Window::Kaiser(order.beta), order.taps)
    }
}
