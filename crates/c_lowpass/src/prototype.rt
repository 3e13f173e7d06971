// The channelizer's prototype, as exports: how many taps its edges need, the design judged, and its taps in a buffer.
ghost use Rattle.std.specs.Prelude.{◌≡◌, length};
ghost use Rattle.fir_lowpass.specs.Lowpass.{outcome_of};
ghost use Rattle.fir_channelizer.specs.Channelizer.{channelizer_taps_of, branch_of, channelizer_lowpass_of};
ghost use Rattle.verdict.specs.Reports.{length_report, outcome_report};
ghost use Rattle.wire.specs.Bytes.{float_bytes};
ghost use Rattle.wire.specs.Writes.{Writes};
ghost use Rattle.c_lowpass.specs.Prototype.{channelizer_bytes};

use fir_cache::CACHED;
use fir_design::told;
use ticket_bytes::lowpasses::put_prototype;
use verdict::Report;

// How many taps Kaiser's estimate has for band edges in channel spacings and an attenuation in dB, as the count; not
// made odd. Refused, in this order: 6 channels that aren't a power of two from 4 to 256; 2 a passband that isn't finite
// and positive; 2 a stopband that isn't above it and at most 1.5; 4 with 20, 120, attenuation; 3 where the estimate
// isn't finite or is above 2^24. Example: (16, 0.5, 1, 60) has 118 taps.
pub fn pel_channelizer_taps(channels: u64, passband: f64, stopband: f64, attenuation: f64) -> Report
    ensures { result ≡ length_report (channelizer_taps_of channels passband stopband attenuation) }
{
    Report::from(fir_channelizer::channelizer_taps(channels, passband, stopband, attenuation))
}

// How many taps each branch needs, as the count: taps / channels rounded up, refused as pel_channelizer_taps. Example:
// (16, 0.5, 1, 60) has 8.
pub fn pel_channelizer_taps_per_branch(
    channels: u64,
    passband: f64,
    stopband: f64,
    attenuation: f64,
) -> Report
    ensures { result ≡ length_report (branch_of channels (channelizer_taps_of channels passband stopband attenuation)) }
{
    Report::from(fir_channelizer::channelizer_taps_per_branch(
        channels,
        passband,
        stopband,
        attenuation,
    ))
}

// Judges the prototype of channels · branch taps: their number as the count, the sum that they are divided by as the
// value. Refused, in this order: 6 the channels; 6 a branch that isn't 4 to 32 taps; 2, 2, 4 as pel_channelizer_taps;
// then as pel_lowpass_new with the cutoff (passband + stopband)/(2 channels) at rate 1 and Kaiser's window.
pub fn pel_channelizer_lowpass(
    channels: u64,
    branch: u64,
    passband: f64,
    stopband: f64,
    attenuation: f64,
) -> Report
    ensures { result ≡ outcome_report (outcome_of (channelizer_lowpass_of channels branch passband stopband attenuation)) }
{
    told(fir_channelizer::channelizer_lowpass(channels, branch, passband, stopband, attenuation))
}

// Fills the buffer with the taps of the prototype, eight bytes each, the lowest first; answers as
// pel_channelizer_lowpass. Refused, in this order: 8 a length that isn't a multiple of 8, with the length to the last
// whole tap and the length, in bytes; as pel_channelizer_lowpass; 8 a buffer for another number of taps, with both
// numbers of taps. A refusal leaves the buffer as it came. Example: (16, 8, 0.5, 1, 60) needs 1024 bytes.
pub fn pel_channelizer_prototype(
    channels: u64,
    branch: u64,
    passband: f64,
    stopband: f64,
    attenuation: f64,
    out: &mut [u8],
) -> Report
    ensures { Writes float_bytes (channelizer_bytes channels branch passband stopband attenuation (length out.old)) out.old result out.new }
{
    let mut raws = [0.0f64; CACHED];
    put_prototype(
        channels,
        branch,
        passband,
        stopband,
        attenuation,
        &mut raws,
        &mut *out,
    )
}
