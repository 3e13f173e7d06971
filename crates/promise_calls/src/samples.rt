// Windows and a window's gain: demand 1 of each; and of Kaiser's windows that no sample is a NaN, an infinity or
// negative, and that a beta up to 713 is never refused for its series.
ghost use Rattle.std.specs.Prelude.{◌/◌, length};
ghost use Rattle.win_sampled.specs.declared.shape.Shape.TheVariants.{Hann, BlackmanHarris, Kaiser};
ghost use Rattle.c_windows.specs.declared.sample.Sample.TheVariants.{Single, Q15};
ghost use Rattle.c_windows.specs.Codes.{symmetry_of};
ghost use Rattle.c_windows.specs.Samples.{sample_bytes, window_bytes};
ghost use Rattle.promise_refusals.specs.Demand.{Numbered, FilledOrKept};
ghost use Rattle.promise_refusals.specs.Verdicts.{of_samples};
ghost use Rattle.promise_settling.specs.Settling.{TakenTo713, FiniteSamples};

use c_gain::level::GainReport;
use verdict::Report;

pub fn hann_f32(symmetry: u64, out: &mut [u8]) -> Report
    ensures { FilledOrKept (sample_bytes Single) (window_bytes Single Hann (symmetry_of symmetry) (length out.old)) out.old result out.new }
{
    c_windows::samples::pel_hann_f32(symmetry, &mut *out)
}

pub fn hann_q15(symmetry: u64, out: &mut [u8]) -> Report
    ensures { FilledOrKept (sample_bytes Q15) (window_bytes Q15 Hann (symmetry_of symmetry) (length out.old)) out.old result out.new }
{
    c_windows::samples::pel_hann_q15(symmetry, &mut *out)
}

pub fn blackman_harris_f32(symmetry: u64, out: &mut [u8]) -> Report
    ensures { FilledOrKept (sample_bytes Single) (window_bytes Single BlackmanHarris (symmetry_of symmetry) (length out.old)) out.old result out.new }
{
    c_windows::samples::pel_blackman_harris_f32(symmetry, &mut *out)
}

pub fn blackman_harris_q15(symmetry: u64, out: &mut [u8]) -> Report
    ensures { FilledOrKept (sample_bytes Q15) (window_bytes Q15 BlackmanHarris (symmetry_of symmetry) (length out.old)) out.old result out.new }
{
    c_windows::samples::pel_blackman_harris_q15(symmetry, &mut *out)
}

pub fn kaiser_f32(beta: f64, symmetry: u64, out: &mut [u8]) -> Report
    ensures filled_or_kept { FilledOrKept (sample_bytes Single) (window_bytes Single (Kaiser beta) (symmetry_of symmetry) (length out.old)) out.old result out.new }
    ensures finite_samples { FiniteSamples beta (symmetry_of symmetry) (length out.old / 4) result }
    ensures taken_to713 { TakenTo713 beta result }
{
    c_windows::samples::pel_kaiser_f32(beta, symmetry, &mut *out)
}

pub fn kaiser_q15(beta: f64, symmetry: u64, out: &mut [u8]) -> Report
    ensures filled_or_kept { FilledOrKept (sample_bytes Q15) (window_bytes Q15 (Kaiser beta) (symmetry_of symmetry) (length out.old)) out.old result out.new }
    ensures finite_samples { FiniteSamples beta (symmetry_of symmetry) (length out.old / 2) result }
    ensures taken_to713 { TakenTo713 beta result }
{
    c_windows::samples::pel_kaiser_q15(beta, symmetry, &mut *out)
}

// Nothing is written: the source is lent to be read.
pub fn window_gain(src: &[u8]) -> GainReport
    ensures { Numbered (of_samples src.now) result.number }
{
    c_gain::level::pel_window_gain(src)
}
