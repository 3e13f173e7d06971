// The root-raised-cosine pulse: its length, the design judged, and its taps in a buffer.
ghost use Rattle.std.specs.Prelude.{◌≡◌, length};
ghost use Rattle.fir_rrc.specs.Rrc.{rrc_len_of, rrc_of, outcome_of};
ghost use Rattle.verdict.specs.Reports.{length_report, outcome_report};
ghost use Rattle.wire.specs.Bytes.{float_bytes};
ghost use Rattle.wire.specs.Writes.{Writes};
ghost use Rattle.c_pulses.specs.Buffers.{rrc_bytes};

use verdict::Report;

// How many taps a pulse of so many samples a symbol and a span of so many symbols has, as the count: span · samples +
// 1.
#[unsafe(no_mangle)]
pub extern "C" fn pel_rrc_len(samples: u64, span: u64) -> Report
    ensures { result ≡ length_report (rrc_len_of samples span) }
{
    c_pulses::cosine::pel_rrc_len(samples, span)
}

// Judges a root-raised-cosine pulse: its number of taps as the count, the factor that makes their energy 1 as the
// value.
#[unsafe(no_mangle)]
pub extern "C" fn pel_rrc_new(rolloff: f64, samples: u64, span: u64) -> Report
    ensures { result ≡ outcome_report (outcome_of (rrc_of rolloff samples span)) }
{
    c_pulses::cosine::pel_rrc_new(rolloff, samples, span)
}

// Fills the buffer with the taps of the pulse, eight bytes each, the lowest first; answers as pel_rrc_new.
#[unsafe(no_mangle)]
pub extern "C" fn pel_rrc(rolloff: f64, samples: u64, span: u64, out: &mut [u8]) -> Report
    ensures { Writes float_bytes (rrc_bytes rolloff samples span (length out.old)) out.old result out.new }
{
    c_pulses::cosine::pel_rrc(rolloff, samples, span, &mut *out)
}
