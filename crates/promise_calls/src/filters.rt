// The chain to the filter: a design export, then pel_to_q15 of what it wrote. Where both accept, the 16-bit numbers in
// the bytes have the Q15 total.
ghost use Rattle.promise_totals.specs.Filter.{Filters};

use c_formats::buffers::pel_to_q15;
use verdict::Report;

// What both were told.
#[derive(Clone, Copy)]
pub struct Filter {
    pub design: Report,
    pub conversion: Report,
}

pub fn lowpass_q15(
    cutoff: f64,
    rate: f64,
    window: u64,
    beta: f64,
    taps: &mut [u8],
    out: &mut [u8],
) -> Filter
    ensures { Filters result.design taps.new result.conversion out.new }
{
    let design = c_lowpass::lowpass::pel_lowpass(cutoff, rate, window, beta, &mut *taps);
    let conversion = pel_to_q15(&*taps, &mut *out);
    Filter { design, conversion }
}

pub fn spec_q15(
    cutoff: f64,
    transition: f64,
    attenuation: f64,
    rate: f64,
    cap: u64,
    taps: &mut [u8],
    out: &mut [u8],
) -> Filter
    ensures { Filters result.design taps.new result.conversion out.new }
{
    let design = c_lowpass::spec::pel_spec_design(
        cutoff,
        transition,
        attenuation,
        rate,
        cap,
        &mut *taps,
    );
    let conversion = pel_to_q15(&*taps, &mut *out);
    Filter { design, conversion }
}

pub fn channelizer_q15(
    channels: u64,
    branch: u64,
    passband: f64,
    stopband: f64,
    attenuation: f64,
    taps: &mut [u8],
    out: &mut [u8],
) -> Filter
    ensures { Filters result.design taps.new result.conversion out.new }
{
    let design = c_lowpass::prototype::pel_channelizer_prototype(
        channels,
        branch,
        passband,
        stopband,
        attenuation,
        &mut *taps,
    );
    let conversion = pel_to_q15(&*taps, &mut *out);
    Filter { design, conversion }
}

pub fn halfband_q15(beta: f64, taps: &mut [u8], out: &mut [u8]) -> Filter
    ensures { Filters result.design taps.new result.conversion out.new }
{
    let design = c_pulses::halfbands::pel_halfband(beta, &mut *taps);
    let conversion = pel_to_q15(&*taps, &mut *out);
    Filter { design, conversion }
}

pub fn gaussian_q15(bt: f64, samples: u64, span: u64, taps: &mut [u8], out: &mut [u8]) -> Filter
    ensures { Filters result.design taps.new result.conversion out.new }
{
    let design = c_pulses::pulse::pel_gaussian(bt, samples, span, &mut *taps);
    let conversion = pel_to_q15(&*taps, &mut *out);
    Filter { design, conversion }
}
