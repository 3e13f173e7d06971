// A low-pass into a buffer.
ghost use Rattle.std.specs.Prelude.{length};
ghost use Rattle.verdict.specs.Outcome.{Fills};
ghost use Rattle.fir_lowpass.specs.Lowpass.{lowpass_of, outcome_of};

use super::fill::finish;
use fir_lowpass::lowpass::prepare;
use fir_sinc::window::Window;
use verdict::Refusal;

// The low-pass of as many taps as the buffer has elements; refused as `prepare`, with the buffer as it came. Example:
// Hann, cutoff 0.25 at rate 1: one tap is 1, two are refused with 10.
pub fn firwin_lowpass(
    cutoff: f64,
    rate: f64,
    window: Window,
    taps: &mut [f64],
) -> Result<(), Refusal>
    ensures { Fills (outcome_of (lowpass_of cutoff rate window (length taps.old))) taps.old result taps.new }
{
    let mut none = [0.0f64; 1];
    let designed = prepare(cutoff, rate, window, taps.len() as u64, &mut none);
    finish(designed, &mut *taps)
}
