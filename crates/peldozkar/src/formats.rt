// Buffers of f64s converted to Q15, Q14 and f32.
ghost use Rattle.c_formats.specs.Format.{Q15, Q14, Single};
ghost use Rattle.c_formats.specs.Conversions.{ConvertsBytes};

use verdict::Report;

// Converts f64s, eight bytes each, to Q15 numbers, two bytes each, the lowest byte first, and tells how many as the
// count.
#[unsafe(no_mangle)]
pub extern "C" fn pel_to_q15(src: &[u8], out: &mut [u8]) -> Report
    ensures { ConvertsBytes Q15 1 src.now out.old result out.new }
{
    c_formats::buffers::pel_to_q15(src, &mut *out)
}

// Converts sections, five f64s each, to Q14 numbers, two bytes each.
#[unsafe(no_mangle)]
pub extern "C" fn pel_to_q14(src: &[u8], out: &mut [u8]) -> Report
    ensures { ConvertsBytes Q14 5 src.now out.old result out.new }
{
    c_formats::buffers::pel_to_q14(src, &mut *out)
}

// Converts f64s to f32s, four bytes each: the nearest, ties to even; an infinity where it is too large, 7FC00000 for a
// NaN.
#[unsafe(no_mangle)]
pub extern "C" fn pel_to_f32(src: &[u8], out: &mut [u8]) -> Report
    ensures { ConvertsBytes Single 1 src.now out.old result out.new }
{
    c_formats::buffers::pel_to_f32(src, &mut *out)
}

// The same of sections, five f64s each: refused with 8 as pel_to_q14.
#[unsafe(no_mangle)]
pub extern "C" fn pel_to_f32_sos(src: &[u8], out: &mut [u8]) -> Report
    ensures { ConvertsBytes Single 5 src.now out.old result out.new }
{
    c_formats::buffers::pel_to_f32_sos(src, &mut *out)
}
