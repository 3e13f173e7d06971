// The lines of the list, read from the input one after the other.
use crate::line::TEXT;
use arrayvec::ArrayVec;
use std::io::Read;

// How many bytes are read at once.
pub const CHUNK: usize = 4096;

// What takes the lines. It is no closure, since a function that calls one has to require that it may be called.
pub trait TakesLines {
    // A line with its newline, or what can't be read: what stands at the end of the input without one.
    fn take(&mut self, text: &[u8]);
}

// Puts a part of a line behind what came of it before. What a line has no room for is dropped, the newline too: no line
// that is so long can be read.
fn append(text: &mut ArrayVec<u8, TEXT>, part: &[u8]) {
    let room = part.len().min(text.remaining_capacity());
    let _ = text.try_extend_from_slice(&part[..room]);
}

// Hands each line to judge, with its newline: as it stands in the chunk, or put together where an earlier chunk has the
// start of it. A proved loop has to end, and nothing says that the input does. So the reads are counted, up to a number
// that no run reaches.
pub fn for_each_line(rt: &impl Print, input: &mut impl Read, judge: &mut impl TakesLines) {
    let mut chunk = [0u8; CHUNK];
    let mut text = ArrayVec::<u8, TEXT>::new();
    for _ in 0..u64::MAX {
        let Ok(n) = input.read(&mut chunk) else {
            let _ = println!(rt; "the list cannot be read");
            break;
        };
        if n == 0 {
            break;
        }
        let mut from = 0;
        for at in 0..n {
            if chunk[at] != b'\n' {
                continue;
            }
            let part = &chunk[from..at + 1];
            if text.is_empty() {
                judge.take(part);
            } else {
                append(&mut text, part);
                judge.take(text.as_slice());
                text.clear();
            }
            from = at + 1;
        }
        append(&mut text, &chunk[from..n]);
    }
    if !text.is_empty() {
        judge.take(text.as_slice());
    }
}
