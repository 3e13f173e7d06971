// The half-band, the pulses and the channelizer without a buffer. A line has the arguments of an export and its report.
use c_lowpass::prototype::{
    pel_channelizer_lowpass, pel_channelizer_taps, pel_channelizer_taps_per_branch,
};
use c_pulses::cosine::{pel_rrc_len, pel_rrc_new};
use c_pulses::halfbands::pel_halfband_new;
use c_pulses::pulse::pel_gaussian_new;
use replay_lines::told;
use verdict::Report;
use wire::float_of;

pub(crate) fn halfband_new(words: &[u64]) -> Option<bool> {
    let (&[beta, taps], report) = words.split_first_chunk::<2>()?;
    told::judge(pel_halfband_new(float_of(beta), taps), report)
}

pub(crate) fn gaussian_new(words: &[u64]) -> Option<bool> {
    let (&[bt, samples, span], report) = words.split_first_chunk::<3>()?;
    told::judge(pel_gaussian_new(float_of(bt), samples, span), report)
}

pub(crate) fn rrc_len(words: &[u64]) -> Option<bool> {
    let (&[samples, span], report) = words.split_first_chunk::<2>()?;
    told::judge(pel_rrc_len(samples, span), report)
}

pub(crate) fn rrc_new(words: &[u64]) -> Option<bool> {
    let (&[rolloff, samples, span], report) = words.split_first_chunk::<3>()?;
    told::judge(pel_rrc_new(float_of(rolloff), samples, span), report)
}

// Both lengths of a channelizer take the same arguments.
fn judge_taps<F: FnOnce(u64, f64, f64, f64) -> Report>(words: &[u64], export: F) -> Option<bool>
    requires { F.IsAlwaysCallable export }
{
    let (&[channels, passband, stopband, attenuation], report) = words.split_first_chunk::<4>()?;
    let r = export(
        channels,
        float_of(passband),
        float_of(stopband),
        float_of(attenuation),
    );
    told::judge(r, report)
}

pub(crate) fn channelizer_taps(words: &[u64]) -> Option<bool> {
    judge_taps(words, pel_channelizer_taps)
}

pub(crate) fn channelizer_taps_per_branch(words: &[u64]) -> Option<bool> {
    judge_taps(words, pel_channelizer_taps_per_branch)
}

pub(crate) fn channelizer_lowpass(words: &[u64]) -> Option<bool> {
    let (&[channels, branch, passband, stopband, attenuation], report) = words.split_first_chunk::<
        5,
    >()?;
    let r = pel_channelizer_lowpass(
        channels,
        branch,
        float_of(passband),
        float_of(stopband),
        float_of(attenuation),
    );
    told::judge(r, report)
}
