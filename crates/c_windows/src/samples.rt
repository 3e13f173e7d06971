// Windows into a buffer of f32 or Q15 samples, as exports.
ghost use Rattle.std.specs.Prelude.{length};
ghost use Rattle.win_sampled.specs.declared.shape.Shape.TheVariants.{Hann, BlackmanHarris, Kaiser};
ghost use Rattle.c_windows.specs.declared.sample.Sample.TheVariants.{Single, Q15};
ghost use Rattle.c_windows.specs.Codes.{symmetry_of};
ghost use Rattle.c_windows.specs.Samples.{sample_bytes, window_bytes};
ghost use Rattle.wire.specs.Writes.{Writes};

use super::sample::Sample;
use super::write::write_window;
use verdict::Report;
use win_sampled::shape::Shape;

// Fills the buffer with the samples of a Hann window, four bytes each, the lowest first, as many as it has room for,
// and tells how many as the count. Symmetries: 0 periodic, 1 symmetric. Where a symmetric window has one sample, that
// is 1; an empty buffer stays empty. Refused, in this order, with the buffer as it came: 7 another symmetry; 8 a length
// that isn't whole samples, with the length to the last whole one and the length, in bytes. Example: 16 bytes and 0
// give 0, 0.5, 1, 0.5.
pub fn pel_hann_f32(symmetry: u64, out: &mut [u8]) -> Report
    ensures { Writes (sample_bytes Single) (window_bytes Single Hann (symmetry_of symmetry) (length out.old)) out.old result out.new }
{
    write_window(Shape::Hann, symmetry, Sample::Single, &mut *out)
}

// The same as Q15 numbers, two bytes each: 1 is held to 32767.
pub fn pel_hann_q15(symmetry: u64, out: &mut [u8]) -> Report
    ensures { Writes (sample_bytes Q15) (window_bytes Q15 Hann (symmetry_of symmetry) (length out.old)) out.old result out.new }
{
    write_window(Shape::Hann, symmetry, Sample::Q15, &mut *out)
}

// A four-term Blackman-Harris window as f32s, as pel_hann_f32.
pub fn pel_blackman_harris_f32(symmetry: u64, out: &mut [u8]) -> Report
    ensures { Writes (sample_bytes Single) (window_bytes Single BlackmanHarris (symmetry_of symmetry) (length out.old)) out.old result out.new }
{
    write_window(Shape::BlackmanHarris, symmetry, Sample::Single, &mut *out)
}

// The same as Q15 numbers.
pub fn pel_blackman_harris_q15(symmetry: u64, out: &mut [u8]) -> Report
    ensures { Writes (sample_bytes Q15) (window_bytes Q15 BlackmanHarris (symmetry_of symmetry) (length out.old)) out.old result out.new }
{
    write_window(Shape::BlackmanHarris, symmetry, Sample::Q15, &mut *out)
}

// Kaiser's window with beta as f32s, as pel_hann_f32; refused besides, last: 4 a beta that isn't finite and not
// negative, also for an empty buffer; 16 a series at beta or at a sample that hasn't settled, as at a beta above about
// 714. An empty buffer and one symmetric sample take no series.
pub fn pel_kaiser_f32(beta: f64, symmetry: u64, out: &mut [u8]) -> Report
    ensures { Writes (sample_bytes Single) (window_bytes Single (Kaiser beta) (symmetry_of symmetry) (length out.old)) out.old result out.new }
{
    write_window(Shape::Kaiser(beta), symmetry, Sample::Single, &mut *out)
}

// The same as Q15 numbers.
pub fn pel_kaiser_q15(beta: f64, symmetry: u64, out: &mut [u8]) -> Report
    ensures { Writes (sample_bytes Q15) (window_bytes Q15 (Kaiser beta) (symmetry_of symmetry) (length out.old)) out.old result out.new }
{
    write_window(Shape::Kaiser(beta), symmetry, Sample::Q15, &mut *out)
}
