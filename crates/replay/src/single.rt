// Single numbers to Q15 and Q14.
use c_math::single::{pel_q14_from_f64, pel_q15_from_f64, pel_q15_tap};
use replay_lines::told;
use wire::float_of;

// A Q15 number is a word of its two bytes, as they stand in a buffer.
pub(crate) fn q15_from_f64(words: &[u64]) -> Option<bool> {
    let [x, code] = words else {
        return None;
    };
    Some(wire::bits_of(pel_q15_from_f64(float_of(*x))) == *code)
}

pub(crate) fn q15_tap(words: &[u64]) -> Option<bool> {
    let (&[tap], report) = words.split_first_chunk::<1>()?;
    told::judge(pel_q15_tap(float_of(tap)), report)
}

pub(crate) fn q14_from_f64(words: &[u64]) -> Option<bool> {
    let (&[x], report) = words.split_first_chunk::<1>()?;
    told::judge(pel_q14_from_f64(float_of(x)), report)
}
