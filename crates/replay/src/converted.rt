// A buffer of f64s converted to Q15, Q14 and f32, whose numbers have two bytes or four.
use c_formats::buffers::{pel_to_f32, pel_to_f32_sos, pel_to_q14, pel_to_q15};
use replay_lines::lent::{MARK, ROOM};
use replay_lines::{converted, lent, offered};
use verdict::Report;

// Whether convert answers and writes what the words tell; its numbers have width bytes.
fn judge<F: FnOnce(&[u8], &mut [u8]) -> Report>(
    words: &[u64],
    width: usize,
    convert: F,
) -> Option<bool>
    requires { F.IsAlwaysCallable convert }
{
    let (to, source) = words.split_first()?;
    let bytes = lent::length(*to)?;
    let (source, answer) = offered::buffer(source, 8)?;
    let mut out = [MARK; ROOM];
    let r = convert(source.as_slice(), &mut out[..bytes]);
    converted::judge(r, &out, answer, source.len() / 8, width)
}

pub(crate) fn to_q15(words: &[u64]) -> Option<bool> {
    judge(words, 2, pel_to_q15)
}

pub(crate) fn to_q14(words: &[u64]) -> Option<bool> {
    judge(words, 2, pel_to_q14)
}

pub(crate) fn to_f32(words: &[u64]) -> Option<bool> {
    judge(words, 4, pel_to_f32)
}

pub(crate) fn to_f32_sos(words: &[u64]) -> Option<bool> {
    judge(words, 4, pel_to_f32_sos)
}
