// The conversions: demand 1 of each, an 11's prefix and rest included.
ghost use Rattle.c_formats.specs.Format.{Q15, Q14, Single};
ghost use Rattle.promise_refusals.specs.Demand.{ConvertedOrKept};

use verdict::Report;

pub fn to_q15(src: &[u8], out: &mut [u8]) -> Report
    ensures { ConvertedOrKept Q15 1 src.now out.old result out.new }
{
    c_formats::buffers::pel_to_q15(src, &mut *out)
}

pub fn to_q14(src: &[u8], out: &mut [u8]) -> Report
    ensures { ConvertedOrKept Q14 5 src.now out.old result out.new }
{
    c_formats::buffers::pel_to_q14(src, &mut *out)
}

pub fn to_f32(src: &[u8], out: &mut [u8]) -> Report
    ensures { ConvertedOrKept Single 1 src.now out.old result out.new }
{
    c_formats::buffers::pel_to_f32(src, &mut *out)
}

pub fn to_f32_sos(src: &[u8], out: &mut [u8]) -> Report
    ensures { ConvertedOrKept Single 5 src.now out.old result out.new }
{
    c_formats::buffers::pel_to_f32_sos(src, &mut *out)
}
