// The prototype filter of a channelizer: how many taps its band edges need, and the low-pass itself.
#![tactic(auto)]

ghost use Rattle.std.specs.Prelude.{◌≡◌, length};
ghost use Rattle.fir_lowpass.specs.Cached.{PreparesLowpass};
ghost use Rattle.fir_channelizer.specs.Channelizer.{channels_taken, branch_taken, stop_taken, attenuation_taken, edges_of, count_taken, channelizer_taps_of, branch_of, channelizer_lowpass_of, fitted_of};

use fir_lowpass::lowpass::Lowpass;
use fir_sinc::window::Window;
use verdict::{Reason, Refusal};

// Whether a channelizer has so many channels: a power of two from 4 to 256.
fn takes_channels(channels: u64) -> bool
    ensures { result ≡ channels_taken channels }
{
    match channels {
        4 => true,
        8 => true,
        16 => true,
        32 => true,
        64 => true,
        128 => true,
        256 => true,
        _ => false,
    }
}

// Whether a branch has so many taps: 4 to 32.
fn takes_branch(branch: u64) -> bool
    ensures { result ≡ branch_taken branch }
{
    4 <= branch && branch <= 32
}

// Whether the stopband begins above the passband's edge and at 1.5 channel spacings at most.
fn takes_stopband(passband: f64, stopband: f64) -> bool
    ensures { result ≡ stop_taken passband stopband }
{
    math_numbers::is_finite(stopband) && passband < stopband && stopband <= 1.5
}

// Whether an attenuation is from 20 to 120 dB.
fn takes_attenuation(attenuation: f64) -> bool
    ensures { result ≡ attenuation_taken attenuation }
{
    20.0 <= attenuation && attenuation <= 120.0
}

// The band edges, in channel spacings, and the attenuation in dB: 2 a passband that isn't finite and positive; 2 a
// stopband that isn't above it and at most 1.5; 4 with 20, 120, attenuation.
fn check_edges(passband: f64, stopband: f64, attenuation: f64) -> Result<(), Refusal>
    ensures { result ≡ edges_of passband stopband attenuation }
{
    if !math_numbers::is_positive(passband) {
        return Err(Refusal::Plain(Reason::Frequency));
    }
    if !takes_stopband(passband, stopband) {
        return Err(Refusal::Plain(Reason::Frequency));
    }
    if !takes_attenuation(attenuation) {
        return Err(Refusal::Range(Reason::Attenuation, 20.0, 120.0, attenuation));
    }
    Ok(())
}

// Whether an estimate is a number of taps: finite and at most 2^24.
fn takes_estimate(num: f64) -> bool
    ensures { result ≡ count_taken num }
{
    math_numbers::is_finite(num) && num <= 16777216.0
}

// How many taps Kaiser's estimate has for these edges, not made odd. Refused, in this order: 6 the channels; 2, 2, 4 as
// the edges; 3 where the estimate isn't finite or is above 2^24. Example: 16 channels, 0.5, 1, 60 dB: 118.
pub fn channelizer_taps(
    channels: u64,
    passband: f64,
    stopband: f64,
    attenuation: f64,
) -> Result<u64, Refusal>
    ensures { result ≡ channelizer_taps_of channels passband stopband attenuation }
{
    if !takes_channels(channels) {
        return Err(Refusal::Plain(Reason::Count));
    }
    check_edges(passband, stopband, attenuation)?;
    let width = 2.0 * (stopband - passband) / std::num::nearest_u64_to_f64(channels);
    let num = fir_length::order::taps_estimate(attenuation, width);
    if takes_estimate(num) {
        Ok(math_numbers::to_count(math_round::ceil::ceil(num)))
    } else {
        Err(Refusal::Plain(Reason::Transition))
    }
}

// How many taps a branch needs, taps / channels rounded up; refused as `channelizer_taps`. Example: 16 channels, 0.5,
// 1, 60 dB: 8.
pub fn channelizer_taps_per_branch(
    channels: u64,
    passband: f64,
    stopband: f64,
    attenuation: f64,
) -> Result<u64, Refusal>
    ensures { result ≡ branch_of channels (channelizer_taps_of channels passband stopband attenuation) }
{
    let n = channelizer_taps(channels, passband, stopband, attenuation)?;
    Ok(if n % channels == 0 {
        n / channels
    } else {
        n / channels + 1
    })
}

// The prototype, channels · branch taps: the cutoff lies half way between the edges. Refused, in this order: 6 the
// channels; 6 a branch that isn't 4 to 32 taps; 2, 2, 4 as the edges; then as a low-pass at rate 1.
// The first raw taps are left in `raws`, as many as it has places.
pub fn prepare(
    channels: u64,
    branch: u64,
    passband: f64,
    stopband: f64,
    attenuation: f64,
    raws: &mut [f64],
) -> Result<Lowpass, Refusal>
    ensures { PreparesLowpass (channelizer_lowpass_of channels branch passband stopband attenuation) result raws.new }
{
    if !takes_channels(channels) {
        return Err(Refusal::Plain(Reason::Count));
    }
    if !takes_branch(branch) {
        return Err(Refusal::Plain(Reason::Count));
    }
    check_edges(passband, stopband, attenuation)?;
    let cutoff = (passband + stopband) / (2.0 * std::num::nearest_u64_to_f64(channels));
    let beta = fir_length::beta::kaiser_beta(attenuation);
    fir_lowpass::lowpass::prepare(
        cutoff,
        1.0,
        Window::Kaiser(beta),
        channels * branch,
        &mut *raws,
    )
}

// The design alone; refused as `prepare`.
pub fn channelizer_lowpass(
    channels: u64,
    branch: u64,
    passband: f64,
    stopband: f64,
    attenuation: f64,
) -> Result<Lowpass, Refusal>
    ensures { result ≡ channelizer_lowpass_of channels branch passband stopband attenuation }
{
    let mut none = [0.0f64; 1];
    prepare(channels, branch, passband, stopband, attenuation, &mut none)
}

// The design for a buffer of `len` elements: refused as `prepare`, and last 8 where the taps are not `len`.
pub fn fitted(
    channels: u64,
    branch: u64,
    passband: f64,
    stopband: f64,
    attenuation: f64,
    len: u64,
    raws: &mut [f64],
) -> Result<Lowpass, Refusal>
    ensures { PreparesLowpass (fitted_of (channelizer_lowpass_of channels branch passband stopband attenuation) len) result raws.new }
{
    let designed = prepare(
        channels,
        branch,
        passband,
        stopband,
        attenuation,
        &mut *raws,
    );
    fir_design::fitted(designed, len)
}
