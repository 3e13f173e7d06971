// The Gaussian pulse into a buffer.
ghost use Rattle.std.specs.Prelude.{length};
ghost use Rattle.fir_gaussian.specs.Gaussian.{gaussian_of, fitted_of, outcome_of};
ghost use Rattle.verdict.specs.Outcome.{Fills};

use super::fill::finish;
use fir_gaussian::gaussian_design::fitted;
use verdict::Refusal;

// Fills the buffer, which must have span sps + 1 elements; refused as `fitted`, with the buffer as it came. Example: bt
// 0.5, 8 samples and a span of 4 make 33 taps.
pub fn gaussian(bt: f64, sps: u64, span: u64, taps: &mut [f64]) -> Result<(), Refusal>
    ensures { Fills (outcome_of (fitted_of (gaussian_of bt sps span) (length taps.old))) taps.old result taps.new }
{
    let mut none = [0.0f64; 0];
    let designed = fitted(bt, sps, span, taps.len() as u64, &mut none);
    finish(designed, &mut *taps)
}
