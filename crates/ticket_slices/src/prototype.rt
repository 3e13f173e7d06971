// The prototype of a channelizer into a buffer.
ghost use Rattle.std.specs.Prelude.{length};
ghost use Rattle.verdict.specs.Outcome.{Fills};
ghost use Rattle.fir_lowpass.specs.Lowpass.{outcome_of};
ghost use Rattle.fir_channelizer.specs.Channelizer.{channelizer_lowpass_of, fitted_of};

use super::fill::finish;
use fir_channelizer::fitted;
use verdict::Refusal;

// Fills the buffer, which must have channels · branch elements; refused as `fitted`, with the buffer as it came.
// Example: 16 channels of 8 taps, 0.5, 1, 60 dB: 128 taps.
pub fn channelizer_prototype(
    channels: u64,
    branch: u64,
    passband: f64,
    stopband: f64,
    attenuation: f64,
    taps: &mut [f64],
) -> Result<(), Refusal>
    ensures { Fills (outcome_of (fitted_of (channelizer_lowpass_of channels branch passband stopband attenuation) (length taps.old))) taps.old result taps.new }
{
    let mut none = [0.0f64; 1];
    let len = taps.len() as u64;
    let designed = fitted(
        channels,
        branch,
        passband,
        stopband,
        attenuation,
        len,
        &mut none,
    );
    finish(designed, &mut *taps)
}
