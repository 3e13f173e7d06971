// The half-band filter, as exports: the design judged, and its taps in a buffer.
ghost use Rattle.std.specs.Prelude.{◌≡◌, length};
ghost use Rattle.fir_halfband.specs.Halfband.{halfband_of, outcome_of};
ghost use Rattle.verdict.specs.Reports.{outcome_report};
ghost use Rattle.wire.specs.Bytes.{float_bytes};
ghost use Rattle.wire.specs.Writes.{Writes};
ghost use Rattle.c_pulses.specs.Buffers.{halfband_bytes};

use fir_cache::CACHED;
use fir_design::told;
use fir_halfband::HalfbandDesign;
use ticket_bytes::pulses::put_halfband;
use verdict::Report;

// Judges a half-band of so many taps with Kaiser's window: their number as the count, the sum that they are divided by
// last as the value. Refused, in this order: 6 where the taps aren't 3 mod 4, or are more than 2^24; 4 a beta that
// isn't finite and not negative; 16 a series that hasn't settled, as at a beta above about 714; 10 a sum that is 0 or
// not finite. Example: 5 taps are refused with 6.
pub fn pel_halfband_new(beta: f64, taps: u64) -> Report
    ensures { result ≡ outcome_report (outcome_of (halfband_of beta taps)) }
{
    told(HalfbandDesign::new(beta, taps))
}

// Fills the buffer with the taps of a half-band, eight bytes each, the lowest first, as many as it has room for;
// answers as pel_halfband_new. Refused first: 8 a length that isn't a multiple of 8, with the length to the last whole
// tap and the length, in bytes; then as that. A refusal leaves the buffer as it came.
pub fn pel_halfband(beta: f64, out: &mut [u8]) -> Report
    ensures { Writes float_bytes (halfband_bytes beta (length out.old)) out.old result out.new }
{
    let mut raws = [0.0f64; CACHED];
    put_halfband(beta, &mut raws, &mut *out)
}
