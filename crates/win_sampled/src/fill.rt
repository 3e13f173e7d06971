// A window into a buffer of samples of any type: one loop, made for each.
ghost use Rattle.std.specs.Prelude.{◌≡◌, Float};
ghost use Rattle.fmt_q15.specs.Q15.{q15_of};
ghost use Rattle.fmt_f32.specs.Single.{single_of};
ghost use Rattle.win_sampled.specs.Shapes.{FillsWindow};

use super::shape::{Shape, Symmetry, divisor, judge, norm, sample_at};
use verdict::Refusal;

// What a sample is kept as.
trait Sample: Copy {
    ghost of: { Float → Self };

    // The sample of a value.
    fn of(x: f64) -> Self
        ensures { result ≡ of x };
}

impl Sample for f32 {
    ghost of = { single_of };

    fn of(x: f64) -> f32 {
        fmt_f32::narrow::narrow(x)
    }
}

impl Sample for i16 {
    ghost of = { q15_of };

    fn of(x: f64) -> i16 {
        fmt_q15::q15::q15_from_f64(x)
    }
}

// Fills the buffer with the window; refused as `judge`, with the buffer as it came.
fn fill<S: Sample>(shape: Shape, symmetry: Symmetry, out: &mut [S]) -> Result<(), Refusal>
    ensures { FillsWindow S.of shape symmetry out.old result out.new }
{
    let n = out.len();
    judge(shape, symmetry, n as u64)?;
    let i0 = norm(shape);
    let d = divisor(symmetry, n as u64);
    for i in 0..n {
        out[i] = S::of(sample_at(shape, i0, d, i as u64));
    }
    Ok(())
}

// Fills the buffer with the window, each sample the nearest f32. Refused, with the buffer as it came: 4 a beta that
// isn't finite and not negative, also for an empty buffer; 16 a series that hasn't settled. Example: four periodic Hann
// samples are 0, 0.5, 1, 0.5.
pub fn fill_f32(shape: Shape, symmetry: Symmetry, out: &mut [f32]) -> Result<(), Refusal>
    ensures { FillsWindow single_of shape symmetry out.old result out.new }
{
    fill::<f32>(shape, symmetry, &mut *out)
}

// The same as Q15 numbers: 1 is held to 32767.
pub fn fill_q15(shape: Shape, symmetry: Symmetry, out: &mut [i16]) -> Result<(), Refusal>
    ensures { FillsWindow q15_of shape symmetry out.old result out.new }
{
    fill::<i16>(shape, symmetry, &mut *out)
}
