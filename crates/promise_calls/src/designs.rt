// The designs: demand 1 of each, and demand 3 of those that are divided by their sum; and of a low-pass and a half-band
// that a beta up to 713 is never refused for its series.
ghost use Rattle.std.specs.Prelude.{length};
ghost use Rattle.wire.specs.Bytes.{float_bytes};
ghost use Rattle.ticket_codes.specs.Codes.{window_of};
ghost use Rattle.c_lowpass.specs.Lowpass.{lowpass_bytes};
ghost use Rattle.c_lowpass.specs.Spec.{spec_of, spec_bytes};
ghost use Rattle.c_lowpass.specs.Prototype.{channelizer_bytes};
ghost use Rattle.c_pulses.specs.Buffers.{halfband_bytes, gaussian_bytes, rrc_bytes};
ghost use Rattle.promise_refusals.specs.Demand.{FilledOrKept};
ghost use Rattle.promise_settling.specs.Settling.{TakenTo713};
ghost use Rattle.promise_totals.specs.Written.{Totals};
ghost use Rattle.promise_totals.specs.Mirror.{Mirrored, Vanishes};

use verdict::Report;

pub fn lowpass(cutoff: f64, rate: f64, window: u64, beta: f64, out: &mut [u8]) -> Report
    ensures filled_or_kept { FilledOrKept float_bytes (lowpass_bytes cutoff rate (window_of window beta) (length out.old)) out.old result out.new }
    ensures totals { Totals result out.new }
    ensures taken_to713 { TakenTo713 beta result }
{
    c_lowpass::lowpass::pel_lowpass(cutoff, rate, window, beta, &mut *out)
}

pub fn spec_design(
    cutoff: f64,
    transition: f64,
    attenuation: f64,
    rate: f64,
    cap: u64,
    out: &mut [u8],
) -> Report
    ensures filled_or_kept { FilledOrKept float_bytes (spec_bytes (spec_of cutoff transition attenuation) rate cap (length out.old)) out.old result out.new }
    ensures totals { Totals result out.new }
{
    c_lowpass::spec::pel_spec_design(cutoff, transition, attenuation, rate, cap, &mut *out)
}

pub fn channelizer_prototype(
    channels: u64,
    branch: u64,
    passband: f64,
    stopband: f64,
    attenuation: f64,
    out: &mut [u8],
) -> Report
    ensures filled_or_kept { FilledOrKept float_bytes (channelizer_bytes channels branch passband stopband attenuation (length out.old)) out.old result out.new }
    ensures totals { Totals result out.new }
{
    c_lowpass::prototype::pel_channelizer_prototype(
        channels,
        branch,
        passband,
        stopband,
        attenuation,
        &mut *out,
    )
}

// Its taps mirror to the bit besides, and are zero where half-bands are zero.
pub fn halfband(beta: f64, out: &mut [u8]) -> Report
    ensures filled_or_kept { FilledOrKept float_bytes (halfband_bytes beta (length out.old)) out.old result out.new }
    ensures totals { Totals result out.new }
    ensures mirrored { Mirrored result out.new }
    ensures vanishes { Vanishes result out.new }
    ensures taken_to713 { TakenTo713 beta result }
{
    c_pulses::halfbands::pel_halfband(beta, &mut *out)
}

pub fn gaussian(bt: f64, samples: u64, span: u64, out: &mut [u8]) -> Report
    ensures filled_or_kept { FilledOrKept float_bytes (gaussian_bytes bt samples span (length out.old)) out.old result out.new }
    ensures totals { Totals result out.new }
{
    c_pulses::pulse::pel_gaussian(bt, samples, span, &mut *out)
}

pub fn rrc(rolloff: f64, samples: u64, span: u64, out: &mut [u8]) -> Report
    ensures { FilledOrKept float_bytes (rrc_bytes rolloff samples span (length out.old)) out.old result out.new }
{
    c_pulses::cosine::pel_rrc(rolloff, samples, span, &mut *out)
}
