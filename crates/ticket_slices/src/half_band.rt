// A half-band into a buffer.
ghost use Rattle.std.specs.Prelude.{length};
ghost use Rattle.verdict.specs.Outcome.{Fills};
ghost use Rattle.fir_halfband.specs.Halfband.{halfband_taps_of};

use super::fill::finish;
use fir_halfband::HalfbandDesign;
use verdict::Refusal;

// Fills the buffer with the taps of a half-band of as many taps as it has elements; refused as `prepare`, with the
// buffer as it came. Example: 3 taps with beta 0 are 0.28, 0.44, 0.28, nearly; 5 are refused with 6.
pub fn halfband_taps(beta: f64, taps: &mut [f64]) -> Result<(), Refusal>
    ensures { Fills (halfband_taps_of beta (length taps.old)) taps.old result taps.new }
{
    let designed = HalfbandDesign::new(beta, taps.len() as u64);
    finish(designed, &mut *taps)
}
