// A buffer of f64s converted to another format, from bytes to bytes.
ghost use Rattle.std.specs.Prelude.{◌≡◌, ◌*◌, ◌/◌, ◌%◌, ◌<◌, length, Ok};
ghost use Rattle.c_formats.specs.Format.{Format};
ghost use Rattle.c_formats.specs.Formats.{width_of};
ghost use Rattle.c_formats.specs.Conversions.{lengths_of, ConvertsWhole, ConvertsBytes};

use super::element::{Elements, Encoded};
use super::store::put_four;
use verdict::{Refusal, Report};

// Whether two lengths in bytes fit a conversion to elements of so many bytes, of which a group belongs together.
fn judge_lengths(from: u64, to: u64, wide: u64, group: u64) -> Result<(), Refusal>
    requires wide_low { 0 < wide }
    requires group_low { 0 < group }
    ensures { result ≡ lengths_of wide group from to }
{
    if from % 8 != 0 {
        return Err(Refusal::Length(from - from % 8, from));
    }
    if to % wide != 0 {
        return Err(Refusal::Length(to - to % wide, to));
    }
    let n = from / 8;
    if n % group != 0 {
        return Err(Refusal::Length(n - n % group, n));
    }
    if n != to / wide {
        return Err(Refusal::Length(n, to / wide));
    }
    Ok(())
}

// The elements of a source of whole f64s into a destination for as many, up to the first that isn't taken. Never
// inlined, so that the loop is laid out by itself: within an export it took up to 1.4 of the time.
#[inline(never)]
pub(crate) fn put_elements<E: Encoded>(src: &[u8], out: &mut [u8]) -> Result<(), Refusal>
    requires whole { length src.now % 8 ≡ 0 }
    requires room { length out.old ≡ width_of E.format * (length src.now / 8) }
    ensures { ConvertsWhole E.format src.now out.old result out.new }
{
    let words = src.as_chunks::<8>().0;
    let wide = E::width();
    for i in 0..words.len() {
        let bits = wire::number_in(&words[i]);
        let pattern = E::encode(i as u64, bits)?;
        E::store(&mut *out, wide * i, pattern);
    }
    Ok(())
}

// The f32s of a source of whole f64s. Every value has one, so nothing is asked of an element. Never inlined: both exports
// run the one loop as it is laid out by itself, where one of two copies took 1.4 of the time.
#[inline(never)]
pub(crate) fn put_singles(src: &[u8], out: &mut [u8])
    requires whole { length src.now % 8 ≡ 0 }
    requires room { length out.old ≡ width_of Format.Single * (length src.now / 8) }
    ensures { ConvertsWhole Format.Single src.now out.old (Ok tt) out.new }
{
    let words = src.as_chunks::<8>().0;
    for i in 0..words.len() {
        let pattern = fmt_f32::narrow::pattern_of_bits(wire::number_in(&words[i]));
        put_four(&mut *out, 4 * i, pattern as u64);
    }
}

// Converts a buffer and tells how many elements as the count; tells a refusal, and leaves the destination but for an
// 11's prefix.
pub(crate) fn convert<E: Elements>(group: u64, src: &[u8], out: &mut [u8]) -> Report
    requires { 0 < group }
    ensures { ConvertsBytes E.format group src.now out.old result out.new }
{
    let from = src.len() as u64;
    if let Err(why) = judge_lengths(from, out.len() as u64, E::width() as u64, group) {
        return Report::from(why);
    }
    match E::put(src, &mut *out) {
        Ok(()) => Report::accepted(from / 8, 0.0),
        Err(why) => Report::from(why),
    }
}
