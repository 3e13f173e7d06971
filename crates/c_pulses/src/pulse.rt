// The Gaussian pulse, as exports: the design judged, and its taps in a buffer.
ghost use Rattle.std.specs.Prelude.{◌≡◌, length};
ghost use Rattle.fir_gaussian.specs.Gaussian.{gaussian_of, outcome_of};
ghost use Rattle.verdict.specs.Reports.{outcome_report};
ghost use Rattle.wire.specs.Bytes.{float_bytes};
ghost use Rattle.wire.specs.Writes.{Writes};
ghost use Rattle.c_pulses.specs.Buffers.{gaussian_bytes};

use fir_cache::CACHED;
use fir_design::told;
use fir_gaussian::gaussian_design::Gaussian;
use ticket_bytes::pulses::put_gaussian;
use verdict::Report;

// Judges a Gaussian pulse of bandwidth bt, so many samples a symbol and a span of so many symbols: samples · span + 1
// taps as the count, the sum that they are divided by as the value. Refused, in this order: 5 with 0.2, 1, bt; 6 with
// 2, 8, span; 6 with 2, (2^24 − 1)/span rounded down, samples. Example: (0.5, 8, 4) has 33 taps.
pub fn pel_gaussian_new(bt: f64, samples: u64, span: u64) -> Report
    ensures { result ≡ outcome_report (outcome_of (gaussian_of bt samples span)) }
{
    told(Gaussian::new(bt, samples, span))
}

// Fills the buffer with the taps of the pulse, eight bytes each, the lowest first; answers as pel_gaussian_new.
// Refused, in this order: 8 a length that isn't a multiple of 8, with the length to the last whole tap and the length,
// in bytes; as pel_gaussian_new; 8 a buffer for another number of taps, with both numbers of taps. A refusal leaves the
// buffer as it came.
pub fn pel_gaussian(bt: f64, samples: u64, span: u64, out: &mut [u8]) -> Report
    ensures { Writes float_bytes (gaussian_bytes bt samples span (length out.old)) out.old result out.new }
{
    let mut raws = [0.0f64; CACHED];
    put_gaussian(bt, samples, span, &mut raws, &mut *out)
}
