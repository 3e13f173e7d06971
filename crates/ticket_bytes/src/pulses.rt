// The half-band and the two pulses as the bytes of a buffer.
ghost use Rattle.std.specs.Prelude.{◌/◌, length};
ghost use Rattle.fir_halfband.specs.Halfband as Halfband;
ghost use Rattle.fir_gaussian.specs.Gaussian as Gaussian;
ghost use Rattle.fir_rrc.specs.Rrc as Rrc;
ghost use Rattle.wire.specs.Bytes.{float_bytes};
ghost use Rattle.wire.specs.Writes.{Writes, whole_taps};

use ticket_taps::write;
use verdict::{Refusal, Report};

// Fills the buffer with the taps of a half-band, eight bytes each, as many as it has room for. Refused first: 8 a
// length that isn't a multiple of 8, with the length to the last whole tap and the length, in bytes; then as
// `HalfbandDesign::new`. A refusal leaves the buffer as it came.
pub fn put_halfband(beta: f64, raws: &mut [f64], out: &mut [u8]) -> Report
    ensures { Writes float_bytes (whole_taps (length out.old) (Halfband.outcome_of (Halfband.halfband_of beta (length out.old / 8)))) out.old result out.new }
{
    let len = out.len() as u64;
    if len % 8 != 0 {
        return Report::from(Refusal::Length(len - len % 8, len));
    }
    let designed = fir_halfband::prepare(beta, len / 8, &mut *raws);
    write(designed, &*raws, &mut *out)
}

// The same of a Gaussian, whose own 8, a buffer for another number of taps, comes last.
pub fn put_gaussian(bt: f64, samples: u64, span: u64, raws: &mut [f64], out: &mut [u8]) -> Report
    ensures { Writes float_bytes (whole_taps (length out.old) (Gaussian.outcome_of (Gaussian.fitted_of (Gaussian.gaussian_of bt samples span) (length out.old / 8)))) out.old result out.new }
{
    let len = out.len() as u64;
    if len % 8 != 0 {
        return Report::from(Refusal::Length(len - len % 8, len));
    }
    let designed = fir_gaussian::gaussian_design::fitted(bt, samples, span, len / 8, &mut *raws);
    write(designed, &*raws, &mut *out)
}

// The same of a root-raised cosine, of which no raw tap is kept.
pub fn put_rrc(rolloff: f64, samples: u64, span: u64, out: &mut [u8]) -> Report
    ensures { Writes float_bytes (whole_taps (length out.old) (Rrc.outcome_of (Rrc.fitted_of (Rrc.rrc_of rolloff samples span) (length out.old / 8)))) out.old result out.new }
{
    let len = out.len() as u64;
    if len % 8 != 0 {
        return Report::from(Refusal::Length(len - len % 8, len));
    }
    let designed = fir_rrc::design::fitted(rolloff, samples, span, len / 8);
    write(designed, &[0.0f64; 0], &mut *out)
}
