// The Gaussian pulse: the design judged, and its taps in a buffer.
ghost use Rattle.std.specs.Prelude.{◌≡◌, length};
ghost use Rattle.verdict.specs.Reports.{outcome_report};
ghost use Rattle.wire.specs.Bytes.{float_bytes};
ghost use Rattle.wire.specs.Writes.{Writes};
ghost use Rattle.c_pulses.specs.Buffers.{gaussian_bytes};
ghost use Rattle.fir_gaussian.specs.Gaussian.{gaussian_of, outcome_of};

use verdict::Report;

// Judges a Gaussian pulse of bandwidth bt, so many samples a symbol and a span of so many symbols: samples · span + 1
// taps as the count, the sum that they are divided by as the value.
#[unsafe(no_mangle)]
pub extern "C" fn pel_gaussian_new(bt: f64, samples: u64, span: u64) -> Report
    ensures { result ≡ outcome_report (outcome_of (gaussian_of bt samples span)) }
{
    c_pulses::pulse::pel_gaussian_new(bt, samples, span)
}

// Fills the buffer with the taps of the pulse, eight bytes each, the lowest first; answers as pel_gaussian_new.
#[unsafe(no_mangle)]
pub extern "C" fn pel_gaussian(bt: f64, samples: u64, span: u64, out: &mut [u8]) -> Report
    ensures { Writes float_bytes (gaussian_bytes bt samples span (length out.old)) out.old result out.new }
{
    c_pulses::pulse::pel_gaussian(bt, samples, span, &mut *out)
}
