// The windowed-sinc low-pass with a loaded window, as exports: the design judged, and its taps in a buffer. Such a
// window has no code, so its record stands in place of one.
ghost use Rattle.std.specs.Prelude.{◌≡◌, length, Some};
ghost use Rattle.fir_sinc.specs.declared.window.Window.TheVariants as Window;
ghost use Rattle.fir_lowpass.specs.Lowpass.{outcome_of};
ghost use Rattle.verdict.specs.Reports.{outcome_report};
ghost use Rattle.wire.specs.Bytes.{float_bytes};
ghost use Rattle.wire.specs.Writes.{Writes};
ghost use Rattle.c_lowpass.specs.Lowpass.{lowpass_coded, lowpass_bytes};

use fir_cache::CACHED;
use fir_design::told;
use fir_lowpass::lowpass::Lowpass;
use fir_sinc::window::Window;
use ticket_bytes::lowpasses::put_lowpass;
use verdict::Report;
use win_shapes::cosines::Cosines;

// Judges a design with a window that pel_load_cosines gave, which isn't checked again, and gives its number of taps as
// the count and the sum that they are divided by as the value.
// Refused, in this order: 1 a rate that isn't finite and positive; 2 with 0, rate/2, cutoff where cutoff/rate isn't
// between 0 and 1/2; 6 no taps or more than 2^24; 10 a sum that is 0 or not finite. Example: (0.25, 1, any window, 1)
// has the sum 0.5.
pub fn pel_lowpass_cosines_new(cutoff: f64, rate: f64, window: Cosines, taps: u64) -> Report
    ensures { result ≡ outcome_report (outcome_of (lowpass_coded cutoff rate (Some (Window.Cosines window)) taps)) }
{
    told(Lowpass::new(cutoff, rate, Window::Cosines(window), taps))
}

// Fills the buffer with the taps of a design, eight bytes each, the lowest first, as many as it has room for; answers
// as pel_lowpass_cosines_new. Refused as that, and first 8 a length that isn't a multiple of 8, with the length to the
// last whole tap and the length, in bytes. A refusal leaves the buffer as it came. A loaded Hann, Hamming or Blackman
// window gives what pel_lowpass gives with its code. Example: (0.25, 1, any window) and 8 bytes write 1.0.
pub fn pel_lowpass_cosines(cutoff: f64, rate: f64, window: Cosines, out: &mut [u8]) -> Report
    ensures { Writes float_bytes (lowpass_bytes cutoff rate (Some (Window.Cosines window)) (length out.old)) out.old result out.new }
{
    let mut raws = [0.0f64; CACHED];
    put_lowpass(cutoff, rate, Window::Cosines(window), &mut raws, &mut *out)
}
