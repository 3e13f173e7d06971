// Windows as f32 or Q15 samples in a buffer.
ghost use Rattle.std.specs.Prelude.{length};
ghost use Rattle.win_sampled.specs.declared.shape.Shape.TheVariants.{Hann, BlackmanHarris, Kaiser};
ghost use Rattle.c_windows.specs.declared.sample.Sample.TheVariants.{Single, Q15};
ghost use Rattle.c_windows.specs.Codes.{symmetry_of};
ghost use Rattle.c_windows.specs.Samples.{sample_bytes, window_bytes};
ghost use Rattle.wire.specs.Writes.{Writes};

use verdict::Report;

// Fills the buffer with the samples of a Hann window, four bytes each, the lowest first, as many as it has room for,
// and tells how many as the count.
#[unsafe(no_mangle)]
pub extern "C" fn pel_hann_f32(symmetry: u64, out: &mut [u8]) -> Report
    ensures { Writes (sample_bytes Single) (window_bytes Single Hann (symmetry_of symmetry) (length out.old)) out.old result out.new }
{
    c_windows::samples::pel_hann_f32(symmetry, &mut *out)
}

// The same as Q15 numbers, two bytes each: 1 is held to 32767.
#[unsafe(no_mangle)]
pub extern "C" fn pel_hann_q15(symmetry: u64, out: &mut [u8]) -> Report
    ensures { Writes (sample_bytes Q15) (window_bytes Q15 Hann (symmetry_of symmetry) (length out.old)) out.old result out.new }
{
    c_windows::samples::pel_hann_q15(symmetry, &mut *out)
}

// A four-term Blackman-Harris window as f32s, as pel_hann_f32.
#[unsafe(no_mangle)]
pub extern "C" fn pel_blackman_harris_f32(symmetry: u64, out: &mut [u8]) -> Report
    ensures { Writes (sample_bytes Single) (window_bytes Single BlackmanHarris (symmetry_of symmetry) (length out.old)) out.old result out.new }
{
    c_windows::samples::pel_blackman_harris_f32(symmetry, &mut *out)
}

// The same as Q15 numbers.
#[unsafe(no_mangle)]
pub extern "C" fn pel_blackman_harris_q15(symmetry: u64, out: &mut [u8]) -> Report
    ensures { Writes (sample_bytes Q15) (window_bytes Q15 BlackmanHarris (symmetry_of symmetry) (length out.old)) out.old result out.new }
{
    c_windows::samples::pel_blackman_harris_q15(symmetry, &mut *out)
}

// Kaiser's window with beta as f32s, as pel_hann_f32; refused besides, last: 4 a beta that isn't finite and not
// negative, also for an empty buffer; 16 a series at beta or at a sample that hasn't settled, as at a beta above about
// 714.
#[unsafe(no_mangle)]
pub extern "C" fn pel_kaiser_f32(beta: f64, symmetry: u64, out: &mut [u8]) -> Report
    ensures { Writes (sample_bytes Single) (window_bytes Single (Kaiser beta) (symmetry_of symmetry) (length out.old)) out.old result out.new }
{
    c_windows::samples::pel_kaiser_f32(beta, symmetry, &mut *out)
}

// The same as Q15 numbers.
#[unsafe(no_mangle)]
pub extern "C" fn pel_kaiser_q15(beta: f64, symmetry: u64, out: &mut [u8]) -> Report
    ensures { Writes (sample_bytes Q15) (window_bytes Q15 (Kaiser beta) (symmetry_of symmetry) (length out.old)) out.old result out.new }
{
    c_windows::samples::pel_kaiser_q15(beta, symmetry, &mut *out)
}
