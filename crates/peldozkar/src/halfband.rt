// The half-band filter: the design judged, and its taps in a buffer.
ghost use Rattle.std.specs.Prelude.{◌≡◌, length};
ghost use Rattle.verdict.specs.Reports.{outcome_report};
ghost use Rattle.wire.specs.Bytes.{float_bytes};
ghost use Rattle.wire.specs.Writes.{Writes};
ghost use Rattle.c_pulses.specs.Buffers.{halfband_bytes};
ghost use Rattle.fir_halfband.specs.Halfband.{halfband_of, outcome_of};

use verdict::Report;

// Judges a half-band of so many taps with Kaiser's window: their number as the count, the sum that they are divided by
// last as the value.
#[unsafe(no_mangle)]
pub extern "C" fn pel_halfband_new(beta: f64, taps: u64) -> Report
    ensures { result ≡ outcome_report (outcome_of (halfband_of beta taps)) }
{
    c_pulses::halfbands::pel_halfband_new(beta, taps)
}

// Fills the buffer with the taps of a half-band, eight bytes each, the lowest first, as many as it has room for;
// answers as pel_halfband_new.
#[unsafe(no_mangle)]
pub extern "C" fn pel_halfband(beta: f64, out: &mut [u8]) -> Report
    ensures { Writes float_bytes (halfband_bytes beta (length out.old)) out.old result out.new }
{
    c_pulses::halfbands::pel_halfband(beta, &mut *out)
}
