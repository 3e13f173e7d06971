// The root-raised-cosine pulse, as exports: how many taps, the design judged, and its taps in a buffer.
ghost use Rattle.std.specs.Prelude.{◌≡◌, length};
ghost use Rattle.fir_rrc.specs.Rrc.{rrc_len_of, rrc_of, outcome_of};
ghost use Rattle.verdict.specs.Reports.{length_report, outcome_report};
ghost use Rattle.wire.specs.Bytes.{float_bytes};
ghost use Rattle.wire.specs.Writes.{Writes};
ghost use Rattle.c_pulses.specs.Buffers.{rrc_bytes};

use fir_design::told;
use fir_rrc::design::Rrc;
use ticket_bytes::pulses::put_rrc;
use verdict::Report;

// How many taps a pulse of so many samples a symbol and a span of so many symbols has, as the count: span · samples +
// 1. Refused, in this order: 6 with 2, 1024, samples; 6 with 4, 32, span. Example: (2, 4) has 9.
pub fn pel_rrc_len(samples: u64, span: u64) -> Report
    ensures { result ≡ length_report (rrc_len_of samples span) }
{
    Report::from(fir_rrc::design::rrc_len(samples, span))
}

// Judges a root-raised-cosine pulse: its number of taps as the count, the factor that makes their energy 1 as the
// value. Refused, in this order: 5 with 0.05, 1, rolloff; then as pel_rrc_len. Example: (0.5, 8, 8) has 65 taps.
pub fn pel_rrc_new(rolloff: f64, samples: u64, span: u64) -> Report
    ensures { result ≡ outcome_report (outcome_of (rrc_of rolloff samples span)) }
{
    told(Rrc::new(rolloff, samples, span))
}

// Fills the buffer with the taps of the pulse, eight bytes each, the lowest first; answers as pel_rrc_new. Refused, in
// this order: 8 a length that isn't a multiple of 8, with the length to the last whole tap and the length, in bytes; as
// pel_rrc_new; 8 a buffer for another number of taps, with both numbers of taps. A refusal leaves the buffer as it
// came.
pub fn pel_rrc(rolloff: f64, samples: u64, span: u64, out: &mut [u8]) -> Report
    ensures { Writes float_bytes (rrc_bytes rolloff samples span (length out.old)) out.old result out.new }
{
    put_rrc(rolloff, samples, span, &mut *out)
}
