// The buffer that an export writes to: a part of it is lent, and all of it is looked at afterwards.
ghost use Rattle.std.specs.Prelude.{◌≤◌, IfSome};
ghost use Rattle.std.specs.Option.{SomeIff};

// The longest part that a line may ask for.
pub const LENT: u64 = 4096;

// The buffer's own length: a tap more, so that there are always bytes beyond the lent part.
pub const ROOM: usize = 4104;

// What every byte is before the call.
pub const MARK: u8 = 0xA5;

// Eight of them.
const MARKS: u64 = MARK as u64 * 0x0101_0101_0101_0101;

// The most elements that a buffer of a line has: taps, samples or numbers.
pub const ELEMENTS: usize = 32;

// How many bytes to lend where a line asks for so many.
pub fn length(asked: u64) -> Option<usize>
    ensures given { SomeIff result (asked ≤ 4096) asked }
    ensures room { IfSome result (λ n. n ≤ 4096) }
{
    if asked > LENT {
        return None;
    }
    Some(asked as usize)
}

// The number that the bytes are, the lowest first.
fn number(bytes: &[u8]) -> u64 {
    bytes.iter().rev().fold(0, |n, b| n << 8 | u64::from(*b))
}

// Is every byte a mark? Eight are looked at in one, since a call leaves most of the buffer as it was.
fn are_marks(bytes: &[u8]) -> bool {
    let (eights, rest) = bytes.as_chunks::<8>();
    eights
        .iter()
        .all(|eight| u64::from_le_bytes(*eight) == MARKS)
        && rest.iter().all(|b| *b == MARK)
}

// Are the elements, of width bytes each, the start of the buffer, and does nothing else stand in it?
pub fn holds(out: &[u8; ROOM], elements: &[u64], width: usize) -> bool {
    let mut rest = out.as_slice();
    for element in elements {
        let Some((bytes, after)) = rest.split_at_checked(width) else {
            return false;
        };
        if number(bytes) != *element {
            return false;
        }
        rest = after;
    }
    are_marks(rest)
}
