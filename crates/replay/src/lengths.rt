// A Bessel sum, Kaiser's lengths and half samples of delay. A line has the arguments of an export and its report.
use c_math::lengths::{pel_delay, pel_halfband_len, pel_kaiserord};
use c_math::shape::pel_bessel_i0;
use replay_lines::told;
use wire::float_of;

pub(crate) fn bessel_i0(words: &[u64]) -> Option<bool> {
    let (&[x], report) = words.split_first_chunk::<1>()?;
    told::judge(pel_bessel_i0(float_of(x)), report)
}

pub(crate) fn kaiserord(words: &[u64]) -> Option<bool> {
    let (&[ripple, transition, rate], report) = words.split_first_chunk::<3>()?;
    let r = pel_kaiserord(float_of(ripple), float_of(transition), float_of(rate));
    told::judge(r, report)
}

pub(crate) fn halfband_len(words: &[u64]) -> Option<bool> {
    let (&[transition, attenuation, rate], report) = words.split_first_chunk::<3>()?;
    let r = pel_halfband_len(float_of(transition), float_of(attenuation), float_of(rate));
    told::judge(r, report)
}

pub(crate) fn delay(words: &[u64]) -> Option<bool> {
    let (&[taps], report) = words.split_first_chunk::<1>()?;
    told::judge(pel_delay(taps), report)
}
