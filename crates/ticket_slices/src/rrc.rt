// The root-raised-cosine pulse into a buffer.
ghost use Rattle.std.specs.Prelude.{length};
ghost use Rattle.verdict.specs.Outcome.{Fills};
ghost use Rattle.fir_rrc.specs.Rrc.{rrc_of, fitted_of, outcome_of};

use super::fill::finish;
use fir_rrc::design::fitted;
use verdict::Refusal;

// Fills the buffer, which must have span sps + 1 elements, with a pulse of unit energy; refused as `fitted`, with the
// buffer as it came. Example: roll-off 0.5, 8 samples and a span of 8 make 65 taps.
pub fn rrc(rolloff: f64, sps: u64, span: u64, taps: &mut [f64]) -> Result<(), Refusal>
    ensures { Fills (outcome_of (fitted_of (rrc_of rolloff sps span) (length taps.old))) taps.old result taps.new }
{
    let designed = fitted(rolloff, sps, span, taps.len() as u64);
    finish(designed, &mut *taps)
}
