// A low-pass with the record to keep, and the two turns of its knob.
ghost use Rattle.std.specs.Prelude.{length};
ghost use Rattle.c_retune.specs.Designs.{none, lowpass_for, Tunes, cutoff_for, beta_for};

use c_retune::record::Design;
use c_retune::write::Tuned;

// Fills the buffer with the taps of a low-pass, eight bytes each, the lowest first, as many as it has room for, and
// gives the record to keep with it; windows, report and refusals are those of pel_lowpass.
#[unsafe(no_mangle)]
pub extern "C" fn pel_design_lowpass(
    cutoff: f64,
    rate: f64,
    window: u64,
    beta: f64,
    out: &mut [u8],
) -> Tuned
    ensures { Tunes none (lowpass_for cutoff rate window beta (length out.old)) out.old result out.new }
{
    c_retune::retune::pel_design_lowpass(cutoff, rate, window, beta, &mut *out)
}

// Turns the knob to a new cutoff, given with its rate: the taps in the buffer, and the record to keep from now on.
#[unsafe(no_mangle)]
pub extern "C" fn pel_design_new_cutoff(
    design: Design,
    cutoff: f64,
    rate: f64,
    out: &mut [u8],
) -> Tuned
    ensures { Tunes design (cutoff_for design cutoff rate (length out.old)) out.old result out.new }
{
    c_retune::retune::pel_design_new_cutoff(design, cutoff, rate, &mut *out)
}

// Turns the knob to a new beta: the taps in the buffer, and the record to keep from now on.
#[unsafe(no_mangle)]
pub extern "C" fn pel_design_new_beta(design: Design, beta: f64, out: &mut [u8]) -> Tuned
    ensures { Tunes design (beta_for design beta (length out.old)) out.old result out.new }
{
    c_retune::retune::pel_design_new_beta(design, beta, &mut *out)
}
