// The judgements without a buffer: the number is 0 exactly where the definition designs, else one of the refusals'.
ghost use Rattle.verdict.specs.Outcome.{answered};
ghost use Rattle.fir_lowpass.specs.Lowpass as Lowpass;
ghost use Rattle.fir_spec.specs.Spec.{spec_lowpass_of};
ghost use Rattle.fir_channelizer.specs.Channelizer.{channelizer_lowpass_of};
ghost use Rattle.fir_halfband.specs.Halfband as Halfband;
ghost use Rattle.fir_gaussian.specs.Gaussian as Gaussian;
ghost use Rattle.fir_rrc.specs.Rrc as Rrc;
ghost use Rattle.ticket_codes.specs.Codes.{window_of};
ghost use Rattle.c_lowpass.specs.Lowpass.{lowpass_coded};
ghost use Rattle.c_lowpass.specs.Spec.{spec_of};
ghost use Rattle.promise_refusals.specs.Demand.{Numbered};

use verdict::Report;

pub fn lowpass_new(cutoff: f64, rate: f64, window: u64, beta: f64, taps: u64) -> Report
    ensures { Numbered (answered (Lowpass.outcome_of (lowpass_coded cutoff rate (window_of window beta) taps))) result.number }
{
    c_lowpass::lowpass::pel_lowpass_new(cutoff, rate, window, beta, taps)
}

pub fn spec_lowpass(cutoff: f64, transition: f64, attenuation: f64, rate: f64, cap: u64) -> Report
    ensures { Numbered (answered (Lowpass.outcome_of (spec_lowpass_of (spec_of cutoff transition attenuation) rate cap))) result.number }
{
    c_lowpass::spec::pel_spec_lowpass(cutoff, transition, attenuation, rate, cap)
}

pub fn channelizer_lowpass(
    channels: u64,
    branch: u64,
    passband: f64,
    stopband: f64,
    attenuation: f64,
) -> Report
    ensures { Numbered (answered (Lowpass.outcome_of (channelizer_lowpass_of channels branch passband stopband attenuation))) result.number }
{
    c_lowpass::prototype::pel_channelizer_lowpass(channels, branch, passband, stopband, attenuation)
}

pub fn halfband_new(beta: f64, taps: u64) -> Report
    ensures { Numbered (answered (Halfband.outcome_of (Halfband.halfband_of beta taps))) result.number }
{
    c_pulses::halfbands::pel_halfband_new(beta, taps)
}

pub fn gaussian_new(bt: f64, samples: u64, span: u64) -> Report
    ensures { Numbered (answered (Gaussian.outcome_of (Gaussian.gaussian_of bt samples span))) result.number }
{
    c_pulses::pulse::pel_gaussian_new(bt, samples, span)
}

pub fn rrc_new(rolloff: f64, samples: u64, span: u64) -> Report
    ensures { Numbered (answered (Rrc.outcome_of (Rrc.rrc_of rolloff samples span))) result.number }
{
    c_pulses::cosine::pel_rrc_new(rolloff, samples, span)
}
