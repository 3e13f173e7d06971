// Low-passes as the bytes of a buffer: by their numbers, by a specification, and a channelizer's prototype.
ghost use Rattle.std.specs.Prelude.{◌/◌, length};
ghost use Rattle.fir_lowpass.specs.Lowpass.{lowpass_of, outcome_of};
ghost use Rattle.fir_spec.specs.Spec.{spec_design_of};
ghost use Rattle.fir_channelizer.specs.Channelizer.{channelizer_lowpass_of, fitted_of};
ghost use Rattle.wire.specs.Bytes.{float_bytes};
ghost use Rattle.wire.specs.Writes.{Writes, whole_taps};

use fir_sinc::window::Window;
use fir_spec::DesignSpec;
use ticket_taps::write;
use verdict::{Refusal, Report};

// Fills the buffer with the taps of a low-pass, eight bytes each, as many as it has room for. Refused first: 8 a length
// that isn't a multiple of 8, with the length to the last whole tap and the length, in bytes; then as `Lowpass::new`. A
// refusal leaves the buffer as it came.
pub fn put_lowpass(
    cutoff: f64,
    rate: f64,
    window: Window,
    raws: &mut [f64],
    out: &mut [u8],
) -> Report
    ensures { Writes float_bytes (whole_taps (length out.old) (outcome_of (lowpass_of cutoff rate window (length out.old / 8)))) out.old result out.new }
{
    let len = out.len() as u64;
    if len % 8 != 0 {
        return Report::from(Refusal::Length(len - len % 8, len));
    }
    let designed = fir_lowpass::lowpass::prepare(cutoff, rate, window, len / 8, &mut *raws);
    write(designed, &*raws, &mut *out)
}

// The same of a low-pass by its specification, whose own 8, a buffer for another number of taps, comes after its
// length is known.
pub fn put_spec(spec: DesignSpec, rate: f64, cap: u64, raws: &mut [f64], out: &mut [u8]) -> Report
    ensures { Writes float_bytes (whole_taps (length out.old) (outcome_of (spec_design_of spec rate cap (length out.old / 8)))) out.old result out.new }
{
    let len = out.len() as u64;
    if len % 8 != 0 {
        return Report::from(Refusal::Length(len - len % 8, len));
    }
    let designed = fir_spec::spec_prepare(spec, rate, cap, len / 8, &mut *raws);
    write(designed, &*raws, &mut *out)
}

// The same of a channelizer's prototype, whose own 8 comes last.
pub fn put_prototype(
    channels: u64,
    branch: u64,
    passband: f64,
    stopband: f64,
    attenuation: f64,
    raws: &mut [f64],
    out: &mut [u8],
) -> Report
    ensures { Writes float_bytes (whole_taps (length out.old) (outcome_of (fitted_of (channelizer_lowpass_of channels branch passband stopband attenuation) (length out.old / 8)))) out.old result out.new }
{
    let len = out.len() as u64;
    if len % 8 != 0 {
        return Report::from(Refusal::Length(len - len % 8, len));
    }
    let designed = fir_channelizer::fitted(
        channels,
        branch,
        passband,
        stopband,
        attenuation,
        len / 8,
        &mut *raws,
    );
    write(designed, &*raws, &mut *out)
}
