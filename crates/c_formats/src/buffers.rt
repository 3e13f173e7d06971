// Buffers of f64s converted to Q15, Q14 and f32, as exports.
ghost use Rattle.c_formats.specs.Format.{Q15, Q14, Single};
ghost use Rattle.c_formats.specs.Conversions.{ConvertsBytes};

use super::convert::convert;
use super::element;
use verdict::Report;

// Converts f64s, eight bytes each, to Q15 numbers, two bytes each, the lowest byte first, and tells how many as the
// count. Refused, in this order: 8 a source that isn't a multiple of 8 and 8 a destination that isn't a multiple of 2,
// each with the length to the last whole element and the length, in bytes; 8 a destination for another number of
// elements, with both numbers; 11 at the first element that isn't taken, as pel_q15_tap with its index: those before it
// are converted and the rest is as it came. An 8 leaves the destination as it came.
pub fn pel_to_q15(src: &[u8], out: &mut [u8]) -> Report
    ensures { ConvertsBytes Q15 1 src.now out.old result out.new }
{
    convert::<element::Q15>(1, src, &mut *out)
}

// Converts sections, five f64s each, to Q14 numbers, two bytes each. Refused as pel_to_q15, but for 8 before the
// numbers of elements are compared: a source that isn't whole sections, with the number of elements to the last whole
// one and the number; and 11 as pel_q14_from_f64, the index counted from the first number of all.
pub fn pel_to_q14(src: &[u8], out: &mut [u8]) -> Report
    ensures { ConvertsBytes Q14 5 src.now out.old result out.new }
{
    convert::<element::Q14>(5, src, &mut *out)
}

// Converts f64s to f32s, four bytes each: the nearest, ties to even; an infinity where it is too large, 7FC00000 for a
// NaN. Refused with 8 as pel_to_q15, never with 11.
pub fn pel_to_f32(src: &[u8], out: &mut [u8]) -> Report
    ensures { ConvertsBytes Single 1 src.now out.old result out.new }
{
    convert::<element::Single>(1, src, &mut *out)
}

// The same of sections, five f64s each: refused with 8 as pel_to_q14.
pub fn pel_to_f32_sos(src: &[u8], out: &mut [u8]) -> Report
    ensures { ConvertsBytes Single 5 src.now out.old result out.new }
{
    convert::<element::Single>(5, src, &mut *out)
}
