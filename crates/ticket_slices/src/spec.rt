// A low-pass by its specification into a buffer.
ghost use Rattle.std.specs.Prelude.{length};
ghost use Rattle.verdict.specs.Outcome.{Fills};
ghost use Rattle.fir_lowpass.specs.Lowpass.{outcome_of};
ghost use Rattle.fir_spec.specs.Spec.{spec_design_of};

use super::fill::finish;
use fir_spec::{DesignSpec, spec_prepare};
use verdict::Refusal;

// Fills the buffer, whose length must be that of `num_taps`; refused as `spec_prepare`, with the buffer as it came.
pub fn design(spec: DesignSpec, rate: f64, cap: u64, taps: &mut [f64]) -> Result<(), Refusal>
    ensures { Fills (outcome_of (spec_design_of spec rate cap (length taps.old))) taps.old result taps.new }
{
    let mut none = [0.0f64; 1];
    let designed = spec_prepare(spec, rate, cap, taps.len() as u64, &mut none);
    finish(designed, &mut *taps)
}
