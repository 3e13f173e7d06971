// A low-pass whose record is kept, and the turns of its knob: demands 1 and 3 of each, that a refusal leaves the record,
// and that a designed record stays one, designed from the numbers that were accepted last.
ghost use Rattle.std.specs.Prelude.{◌/◌, length};
ghost use Rattle.wire.specs.Bytes.{float_bytes};
ghost use Rattle.fir_lowpass.specs.Lowpass.{outcome_of};
ghost use Rattle.fir_retune.specs.Operations.{NewCutoff, NewBeta};
ghost use Rattle.ticket_codes.specs.Codes.{window_of};
ghost use Rattle.c_lowpass.specs.Lowpass.{lowpass_bytes};
ghost use Rattle.c_retune.specs.Designs.{cutoff_for, beta_for};
ghost use Rattle.promise_refusals.specs.Demand.{FilledOrKept};
ghost use Rattle.promise_retune.specs.Histories.{call_of, Promised, Begins, LeavesRecord};
ghost use Rattle.promise_totals.specs.Written.{Totals};

use c_retune::record::Design;
use c_retune::write::Tuned;

// Its report and its bytes are those of pel_lowpass.
pub fn design_lowpass(cutoff: f64, rate: f64, window: u64, beta: f64, out: &mut [u8]) -> Tuned
    ensures filled_or_kept { FilledOrKept float_bytes (lowpass_bytes cutoff rate (window_of window beta) (length out.old)) out.old result.report out.new }
    ensures totals { Totals result.report out.new }
    ensures begins { Begins cutoff rate window beta (length out.old / 8) result out.new }
{
    c_retune::retune::pel_design_lowpass(cutoff, rate, window, beta, &mut *out)
}

pub fn new_cutoff(design: Design, cutoff: f64, rate: f64, out: &mut [u8]) -> Tuned
    ensures filled_or_kept { FilledOrKept float_bytes (outcome_of (cutoff_for design cutoff rate (length out.old))) out.old result.report out.new }
    ensures totals { Totals result.report out.new }
    ensures leaves_record { LeavesRecord design result }
    ensures promised { Promised (call_of (NewCutoff cutoff rate) design out.old result out.new) }
{
    c_retune::retune::pel_design_new_cutoff(design, cutoff, rate, &mut *out)
}

pub fn new_beta(design: Design, beta: f64, out: &mut [u8]) -> Tuned
    ensures filled_or_kept { FilledOrKept float_bytes (outcome_of (beta_for design beta (length out.old))) out.old result.report out.new }
    ensures totals { Totals result.report out.new }
    ensures leaves_record { LeavesRecord design result }
    ensures promised { Promised (call_of (NewBeta beta) design out.old result out.new) }
{
    c_retune::retune::pel_design_new_beta(design, beta, &mut *out)
}
