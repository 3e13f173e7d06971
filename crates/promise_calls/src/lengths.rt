// Lengths, half samples of delay and single numbers: the number is 0 exactly where there is one, else one of the
// refusals'. The half of a delay is kept besides, and so are the terms and the sum of a series.
ghost use Rattle.math_bessel.specs.Series.{series_of};
ghost use Rattle.fir_length.specs.Kaiser.{order_of, halfband_len_of};
ghost use Rattle.fir_delay.specs.Delay.{delay_of};
ghost use Rattle.fir_spec.specs.Spec.{num_taps_of};
ghost use Rattle.fir_rrc.specs.Rrc.{rrc_len_of};
ghost use Rattle.fir_channelizer.specs.Channelizer.{channelizer_taps_of, branch_of};
ghost use Rattle.fmt_q15.specs.Q15.{q15_tap_of};
ghost use Rattle.fmt_q14.specs.Q14.{q14_tap_of};
ghost use Rattle.c_lowpass.specs.Spec.{spec_of};
ghost use Rattle.c_math.specs.Delays.{KeepsHalf};
ghost use Rattle.c_math.specs.SeriesTold.{KeepsSum};
ghost use Rattle.promise_refusals.specs.Demand.{Numbered};
ghost use Rattle.promise_refusals.specs.Verdicts.{of_length, of_order, of_delay, of_coded, of_series};

use verdict::Report;

pub fn kaiserord(ripple: f64, transition: f64, rate: f64) -> Report
    ensures { Numbered (of_order (order_of ripple transition rate)) result.number }
{
    c_math::lengths::pel_kaiserord(ripple, transition, rate)
}

pub fn halfband_len(transition: f64, attenuation: f64, rate: f64) -> Report
    ensures { Numbered (of_length (halfband_len_of transition attenuation rate)) result.number }
{
    c_math::lengths::pel_halfband_len(transition, attenuation, rate)
}

pub fn delay(taps: u64) -> Report
    ensures numbered { Numbered (of_delay (delay_of taps)) result.number }
    ensures keeps_half { KeepsHalf taps result }
{
    c_math::lengths::pel_delay(taps)
}

pub fn spec_num_taps(cutoff: f64, transition: f64, attenuation: f64, rate: f64, cap: u64) -> Report
    ensures { Numbered (of_length (num_taps_of (spec_of cutoff transition attenuation) rate cap)) result.number }
{
    c_lowpass::spec::pel_spec_num_taps(cutoff, transition, attenuation, rate, cap)
}

pub fn rrc_len(samples: u64, span: u64) -> Report
    ensures { Numbered (of_length (rrc_len_of samples span)) result.number }
{
    c_pulses::cosine::pel_rrc_len(samples, span)
}

pub fn channelizer_taps(channels: u64, passband: f64, stopband: f64, attenuation: f64) -> Report
    ensures { Numbered (of_length (channelizer_taps_of channels passband stopband attenuation)) result.number }
{
    c_lowpass::prototype::pel_channelizer_taps(channels, passband, stopband, attenuation)
}

pub fn channelizer_taps_per_branch(
    channels: u64,
    passband: f64,
    stopband: f64,
    attenuation: f64,
) -> Report
    ensures { Numbered (of_length (branch_of channels (channelizer_taps_of channels passband stopband attenuation))) result.number }
{
    c_lowpass::prototype::pel_channelizer_taps_per_branch(channels, passband, stopband, attenuation)
}

pub fn q15_tap(tap: f64) -> Report
    ensures { Numbered (of_coded (q15_tap_of 0 tap)) result.number }
{
    c_math::single::pel_q15_tap(tap)
}

pub fn q14_from_f64(x: f64) -> Report
    ensures { Numbered (of_coded (q14_tap_of 0 x)) result.number }
{
    c_math::single::pel_q14_from_f64(x)
}

// The series has its number of terms and its sum for every argument, also where it hasn't settled.
pub fn bessel_i0(x: f64) -> Report
    ensures numbered { Numbered (of_series (series_of x)) result.number }
    ensures keeps_sum { KeepsSum x result }
{
    c_math::shape::pel_bessel_i0(x)
}
