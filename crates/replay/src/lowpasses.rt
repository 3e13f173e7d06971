// The low-pass designs without a buffer. A line has the arguments of an export and its report.
use c_lowpass::lowpass::pel_lowpass_new;
use c_lowpass::spec::{pel_spec_lowpass, pel_spec_num_taps};
use replay_lines::told;
use verdict::Report;
use wire::float_of;

pub(crate) fn lowpass_new(words: &[u64]) -> Option<bool> {
    let (&[cutoff, rate, window, beta, taps], report) = words.split_first_chunk::<5>()?;
    let r = pel_lowpass_new(
        float_of(cutoff),
        float_of(rate),
        window,
        float_of(beta),
        taps,
    );
    told::judge(r, report)
}

// Both exports of a specification take the same arguments.
fn judge_spec<F: FnOnce(f64, f64, f64, f64, u64) -> Report>(
    words: &[u64],
    export: F,
) -> Option<bool>
    requires { F.IsAlwaysCallable export }
{
    let (&[cutoff, transition, attenuation, rate, cap], report) = words.split_first_chunk::<5>()?;
    let r = export(
        float_of(cutoff),
        float_of(transition),
        float_of(attenuation),
        float_of(rate),
        cap,
    );
    told::judge(r, report)
}

pub(crate) fn spec_num_taps(words: &[u64]) -> Option<bool> {
    judge_spec(words, pel_spec_num_taps)
}

pub(crate) fn spec_lowpass(words: &[u64]) -> Option<bool> {
    judge_spec(words, pel_spec_lowpass)
}
