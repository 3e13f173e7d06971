// A design's taps in a buffer of f64s, whichever kind it is of.
ghost use Rattle.fir_design.specs.Designs.{outcome_of};
ghost use Rattle.verdict.specs.Outcome.{Fills};

use fir_design::Design;
use verdict::Refusal;

// Fills the buffer with the taps of a design, as many as it has elements, or leaves it as it came.
pub(crate) fn finish<D: Design>(
    designed: Result<D, Refusal>,
    taps: &mut [f64],
) -> Result<(), Refusal>
    ensures { Fills (outcome_of D.count D.divisor D.tap designed) taps.old result taps.new }
{
    let design = designed?;
    for i in 0..taps.len() {
        taps[i] = design.tap(i as u64);
    }
    Ok(())
}
