// The formats of an element: what an f64 is as a bit pattern, and its bytes.
ghost use Rattle.std.specs.Prelude.{◌≡◌, ◌+◌, ◌*◌, ◌/◌, ◌%◌, ◌≤◌, length};
ghost use Rattle.std.specs.Float.{binary64};
ghost use Rattle.std.specs.Float.Ieee.{of_bits};
ghost use Rattle.wire.specs.Bytes.{put_of};
ghost use Rattle.c_formats.specs.Format.{Format};
ghost use Rattle.c_formats.specs.Formats.{width_of, encoded_of};
ghost use Rattle.c_formats.specs.Conversions.{ConvertsWhole};

use super::convert::{put_elements, put_singles};
use super::store::put_two;
use verdict::Refusal;

// A format that f64s are converted to.
pub(crate) trait Element {
    ghost format: { Format };

    // How many bytes an element has.
    fn width() -> usize
        ensures { result ≡ width_of format };
}

// One that may refuse an element, so that a loop over elements is made for each.
pub(crate) trait Encoded: Element {
    // The pattern of element i, from that of its f64.
    fn encode(i: u64, bits: u64) -> Result<u64, Refusal>
        ensures { result ≡ encoded_of Self.format i (of_bits binary64 bits) };

    // Stores a pattern's bytes at a proved place, which become one store.
    fn store(out: &mut [u8], at: usize, pattern: u64)
        requires { at + width_of Self.format ≤ length out.old }
        ensures { out.new ≡ put_of (width_of Self.format) out.old at pattern };
}

// The loop over a format's elements.
pub(crate) trait Elements: Element {
    // The elements of a source of whole f64s into a destination for as many, up to the first that isn't taken.
    fn put(src: &[u8], out: &mut [u8]) -> Result<(), Refusal>
        requires whole { length src.now % 8 ≡ 0 }
        requires room { length out.old ≡ width_of Self.format * (length src.now / 8) }
        ensures { ConvertsWhole Self.format src.now out.old result out.new };
}

pub(crate) struct Q15;

pub(crate) struct Q14;

pub(crate) struct Single;

impl Element for Q15 {
    ghost format = { Format.Q15 };

    #[tactic(auto, unfolding(crate::specs::Formats::width_of))]
    fn width() -> usize {
        2
    }
}

impl Encoded for Q15 {
    fn encode(i: u64, bits: u64) -> Result<u64, Refusal> {
        let q = fmt_q15::q15::q15_tap(i, wire::float_of(bits))?;
        Ok(wire::bits_of(q))
    }

    #[tactic(auto, unfolding(crate::specs::Formats::width_of))]
    fn store(out: &mut [u8], at: usize, pattern: u64) {
        put_two(&mut *out, at, pattern);
    }
}

impl Elements for Q15 {
    fn put(src: &[u8], out: &mut [u8]) -> Result<(), Refusal> {
        put_elements::<Q15>(src, &mut *out)
    }
}

impl Element for Q14 {
    ghost format = { Format.Q14 };

    #[tactic(auto, unfolding(crate::specs::Formats::width_of))]
    fn width() -> usize {
        2
    }
}

impl Encoded for Q14 {
    fn encode(i: u64, bits: u64) -> Result<u64, Refusal> {
        let q = fmt_q14::q14_from_f64(i, wire::float_of(bits))?;
        Ok(wire::bits_of(q))
    }

    #[tactic(auto, unfolding(crate::specs::Formats::width_of))]
    fn store(out: &mut [u8], at: usize, pattern: u64) {
        put_two(&mut *out, at, pattern);
    }
}

impl Elements for Q14 {
    fn put(src: &[u8], out: &mut [u8]) -> Result<(), Refusal> {
        put_elements::<Q14>(src, &mut *out)
    }
}

impl Element for Single {
    ghost format = { Format.Single };

    #[tactic(auto, unfolding(crate::specs::Formats::width_of))]
    fn width() -> usize {
        4
    }
}

// Every value has an f32, so none is refused.
impl Elements for Single {
    fn put(src: &[u8], out: &mut [u8]) -> Result<(), Refusal> {
        put_singles(src, &mut *out);
        Ok(())
    }
}
