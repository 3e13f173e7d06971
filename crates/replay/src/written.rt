// Designs and windows that are written to a buffer, whose length in bytes is the last argument.
use c_lowpass::lowpass::pel_lowpass;
use c_lowpass::prototype::pel_channelizer_prototype;
use c_lowpass::spec::pel_spec_design;
use c_pulses::cosine::pel_rrc;
use c_pulses::halfbands::pel_halfband;
use c_pulses::pulse::pel_gaussian;
use c_sections::cascade::pel_butterworth_sos;
use c_sections::section::{pel_biquad_coefs, pel_preemphasis_coefs};
use replay_lines::lent::{MARK, ROOM};
use replay_lines::{lent, written};
use verdict::Report;
use wire::float_of;

// The bytes of an f64.
const TAP: usize = 8;

// Whether write answers and writes what the words from the buffer's length on tell; its elements have width bytes.
pub(crate) fn judge<F: FnOnce(&mut [u8]) -> Report>(
    words: &[u64],
    width: usize,
    write: F,
) -> Option<bool>
    requires { F.IsAlwaysCallable write }
{
    let (asked, answer) = words.split_first()?;
    let bytes = lent::length(*asked)?;
    let mut out = [MARK; ROOM];
    let r = write(&mut out[..bytes]);
    written::judge(r, &out, answer, bytes, width)
}

pub(crate) fn lowpass(words: &[u64]) -> Option<bool> {
    let (&[cutoff, rate, window, beta], written) = words.split_first_chunk::<4>()?;
    judge(written, TAP, |out| {
        pel_lowpass(
            float_of(cutoff),
            float_of(rate),
            window,
            float_of(beta),
            out,
        )
    })
}

pub(crate) fn spec_design(words: &[u64]) -> Option<bool> {
    let (&[cutoff, transition, attenuation, rate, cap], written) = words.split_first_chunk::<5>()?;
    judge(written, TAP, |out| {
        pel_spec_design(
            float_of(cutoff),
            float_of(transition),
            float_of(attenuation),
            float_of(rate),
            cap,
            out,
        )
    })
}

pub(crate) fn halfband(words: &[u64]) -> Option<bool> {
    let (&[beta], written) = words.split_first_chunk::<1>()?;
    judge(written, TAP, |out| pel_halfband(float_of(beta), out))
}

pub(crate) fn gaussian(words: &[u64]) -> Option<bool> {
    let (&[bt, samples, span], written) = words.split_first_chunk::<3>()?;
    judge(
        written,
        TAP,
        |out| pel_gaussian(float_of(bt), samples, span, out),
    )
}

pub(crate) fn channelizer_prototype(words: &[u64]) -> Option<bool> {
    let (&[channels, branch, passband, stopband, attenuation], written) = words.split_first_chunk::<
        5,
    >()?;
    judge(written, TAP, |out| {
        pel_channelizer_prototype(
            channels,
            branch,
            float_of(passband),
            float_of(stopband),
            float_of(attenuation),
            out,
        )
    })
}

pub(crate) fn rrc(words: &[u64]) -> Option<bool> {
    let (&[rolloff, samples, span], written) = words.split_first_chunk::<3>()?;
    judge(
        written,
        TAP,
        |out| pel_rrc(float_of(rolloff), samples, span, out),
    )
}

pub(crate) fn biquad_coefs(words: &[u64]) -> Option<bool> {
    let (&[response, centre, q, rate], written) = words.split_first_chunk::<4>()?;
    judge(written, TAP, |out| {
        pel_biquad_coefs(response, float_of(centre), float_of(q), float_of(rate), out)
    })
}

pub(crate) fn butterworth_sos(words: &[u64]) -> Option<bool> {
    let (&[response, order, cutoff, rate], written) = words.split_first_chunk::<4>()?;
    judge(written, TAP, |out| {
        pel_butterworth_sos(response, order, float_of(cutoff), float_of(rate), out)
    })
}

pub(crate) fn preemphasis_coefs(words: &[u64]) -> Option<bool> {
    let (&[tau, rate], written) = words.split_first_chunk::<2>()?;
    judge(written, TAP, |out| {
        pel_preemphasis_coefs(float_of(tau), float_of(rate), out)
    })
}
