// The designs straight into a slice of f64s: demand 3 of each.
ghost use Rattle.std.specs.Prelude.{length};
ghost use Rattle.fir_lowpass.specs.Lowpass as Lowpass;
ghost use Rattle.fir_spec.specs.Spec.{spec_design_of};
ghost use Rattle.fir_halfband.specs.Halfband as Halfband;
ghost use Rattle.fir_gaussian.specs.Gaussian as Gaussian;
ghost use Rattle.fir_channelizer.specs.Channelizer as Channelizer;
ghost use Rattle.promise_totals.specs.Slices.{SliceTotals, SliceMirrors};

use fir_sinc::window::Window;
use fir_spec::DesignSpec;
use verdict::Refusal;

pub fn lowpass_slice(
    cutoff: f64,
    rate: f64,
    window: Window,
    taps: &mut [f64],
) -> Result<(), Refusal>
    ensures { SliceTotals (Lowpass.outcome_of (Lowpass.lowpass_of cutoff rate window (length taps.old))) result taps.new }
{
    ticket_slices::low_pass::firwin_lowpass(cutoff, rate, window, &mut *taps)
}

pub fn spec_slice(spec: DesignSpec, rate: f64, cap: u64, taps: &mut [f64]) -> Result<(), Refusal>
    ensures { SliceTotals (Lowpass.outcome_of (spec_design_of spec rate cap (length taps.old))) result taps.new }
{
    ticket_slices::spec::design(spec, rate, cap, &mut *taps)
}

pub fn channelizer_slice(
    channels: u64,
    branch: u64,
    passband: f64,
    stopband: f64,
    attenuation: f64,
    taps: &mut [f64],
) -> Result<(), Refusal>
    ensures { SliceTotals (Lowpass.outcome_of (Channelizer.fitted_of (Channelizer.channelizer_lowpass_of channels branch passband stopband attenuation) (length taps.old))) result taps.new }
{
    ticket_slices::prototype::channelizer_prototype(
        channels,
        branch,
        passband,
        stopband,
        attenuation,
        &mut *taps,
    )
}

// Its taps mirror to the bit besides, and are zero where half-bands are zero.
pub fn halfband_slice(beta: f64, taps: &mut [f64]) -> Result<(), Refusal>
    ensures slice_totals { SliceTotals (Halfband.outcome_of (Halfband.halfband_of beta (length taps.old))) result taps.new }
    ensures slice_mirrors { SliceMirrors result taps.new }
{
    ticket_slices::half_band::halfband_taps(beta, &mut *taps)
}

pub fn gaussian_slice(bt: f64, sps: u64, span: u64, taps: &mut [f64]) -> Result<(), Refusal>
    ensures { SliceTotals (Gaussian.outcome_of (Gaussian.fitted_of (Gaussian.gaussian_of bt sps span) (length taps.old))) result taps.new }
{
    ticket_slices::gaussian::gaussian(bt, sps, span, &mut *taps)
}
