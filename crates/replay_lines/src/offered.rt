// The buffer that an export reads from. A line has its length in bytes, and after that the patterns of its whole
// elements.
ghost use Rattle.std.specs.Prelude.{◌≡◌, ◌+◌, ◌/◌, ◌≤◌, drop, IfSome, slice_index};
ghost use Rattle.arrayvec.specs.ArrayVec.{array_vec_len};

use crate::lent::{ELEMENTS, MARK};
use arrayvec::ArrayVec;

// The most bytes: as many elements of eight bytes as a line can have, and a part of one more.
const BYTES: usize = (ELEMENTS + 1) * 8;

// The buffer that is next among the words, with elements of width bytes, and the words after it. A part of an element
// has no pattern: its bytes are marks.
pub fn buffer(words: &[u64], width: usize) -> Option<(ArrayVec<u8, BYTES>, &[u64])>
    ensures length { IfSome result (λ r. array_vec_len r.0 ≡ slice_index words.now 0) }
    ensures room { IfSome result (λ r. array_vec_len r.0 ≤ 264) }
    ensures rest { IfSome result (λ r. r.1.now ≡ drop (slice_index words.now 0 / width + 1) words.now) }
{
    let (length, rest) = words.split_first()?;
    let length = *length as usize;
    let (elements, rest) = rest.split_at_checked(length.checked_div(width)?)?;
    if elements.len() > ELEMENTS {
        return None;
    }
    let mut bytes = ArrayVec::new();
    for element in elements {
        bytes
            .try_extend_from_slice(element.to_le_bytes().get(..width)?)
            .ok()?;
    }
    for _ in 0..length % width {
        bytes.try_push(MARK).ok()?;
    }
    Some((bytes, rest))
}
