// What was written to a buffer. A line's last argument is the buffer's length in bytes, and where the answer is no
// refusal the patterns of the buffer's elements follow the report.
use crate::lent::{ELEMENTS, ROOM};
use crate::told::FIELDS;
use crate::{lent, told};
use verdict::Report;

// The indices of a report's number and of its index among its words.
const NUMBER: usize = 0;

const INDEX: usize = 7;

// What a line tells of a buffer: the report, and the patterns of the elements that were written.
#[derive(Clone, Copy)]
pub(crate) struct Answer<'a> {
    report: &'a [u64; FIELDS],
    pub(crate) elements: &'a [u64],
}

impl<'a> Answer<'a> {
    pub(crate) fn read(words: &'a [u64]) -> Option<Answer<'a>> {
        let (report, elements) = words.split_first_chunk()?;
        if elements.len() > ELEMENTS {
            return None;
        }
        Some(Answer { report, elements })
    }

    pub(crate) fn number(&self) -> u64 {
        self.report[NUMBER]
    }

    pub(crate) fn index(&self) -> u64 {
        self.report[INDEX]
    }

    // Is it what came of a call that was answered with r, out being the buffer after it? Elements have width bytes.
    // What was not written has to be as it came.
    pub(crate) fn is(&self, r: Report, out: &[u8; ROOM], width: usize) -> bool {
        told::is_told(r, self.report) && lent::holds(out, self.elements, width)
    }
}

// Can a buffer of so many bytes have the answer? What is accepted fills it, and what is refused has no elements.
fn can_have(answer: &Answer, bytes: usize, width: usize) -> bool {
    if answer.number() == 0 {
        answer.elements.len().checked_mul(width) == Some(bytes)
    } else {
        answer.elements.is_empty()
    }
}

// Whether the words after the buffer's length tell what came of a call: it was lent so many bytes of out, which had
// marks alone before it, and was answered with r. Its elements have width bytes.
pub fn judge(
    r: Report,
    out: &[u8; ROOM],
    words: &[u64],
    bytes: usize,
    width: usize,
) -> Option<bool> {
    let answer = Answer::read(words)?;
    if !can_have(&answer, bytes, width) {
        return None;
    }
    Some(answer.is(r, out, width))
}
