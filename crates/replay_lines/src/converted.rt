// A buffer of f64s that was converted. A line has the destination's and the source's length in bytes, the source's
// whole elements, the report, and the patterns that were written.
use crate::lent::ROOM;
use crate::written::Answer;
use verdict::Report;

// The number of the refusal that stops a conversion.
const STOPPED: u64 = 11;

// Can so many elements have the answer? An accepted conversion has a number for each element, one that was stopped
// those before the index that it names, and another refusal none.
fn can_have(answer: &Answer, elements: usize) -> bool {
    let numbers = answer.elements.len();
    match answer.number() {
        0 => numbers == elements,
        STOPPED => numbers as u64 == answer.index(),
        _ => numbers == 0,
    }
}

// Whether the words after the source's elements tell what came of their conversion: out had marks alone before it, and
// it was answered with r. Its numbers have width bytes.
pub fn judge(
    r: Report,
    out: &[u8; ROOM],
    words: &[u64],
    elements: usize,
    width: usize,
) -> Option<bool> {
    let answer = Answer::read(words)?;
    if !can_have(&answer, elements) {
        return None;
    }
    Some(answer.is(r, out, width))
}
