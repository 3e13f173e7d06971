// A line of the list, taken apart: a kind in decimal, then words of 16 hexadecimal digits, each after one space.
ghost use Rattle.std.specs.Prelude.{◌≡◌, ◌-◌, ◌<◌, ◌≤◌, length, take, IfSome, ◌==◌};
ghost use Rattle.std.specs.List.{before_first};
ghost use Rattle.std.specs.Str.Parse.{digits_value};
ghost use Rattle.replay_lines.specs.Digits.{digit_of};
ghost use Rattle.replay_lines.specs.Kinds.{kind_number};
ghost use Rattle.replay_lines.specs.Words.{word_at};

use crate::kind::Kind;

// The most words that a line has.
pub const WORDS: usize = 96;

// A space and 16 digits.
const STEP: usize = 17;

// The room for a line: three bytes for a kind, which has at most two digits, the words and the newline.
pub const TEXT: usize = 3 + WORDS * STEP + 1;

// The words of a line: how many there are, and the array that they were put into. Whoever reads lines lends it, one for
// all of them, since an array for each would have to be cleared and moved.
#[derive(Clone, Copy)]
pub struct Words<'a> {
    room: &'a [u64; WORDS],
    count: usize,
    ghost count_high: { count ≤ 96 },
}

impl Words<'_> {
    pub fn as_slice(&self) -> &[u64]
        ensures { result.now ≡ take self.now.count self.now.room.now }
    {
        let room = self.room;
        &room[..self.count]
    }
}

#[derive(Clone, Copy)]
pub struct Line<'a> {
    pub kind: Kind,
    pub words: Words<'a>,
}

// The value of a digit, the letters in upper case.
#[tactic(auto, unfolding(crate::specs::Digits::digit_of))]
fn read_digit(b: u8) -> Option<u64>
    ensures value { result ≡ digit_of b }
    ensures small { IfSome result (λ d. d < 16) }
{
    match b {
        b'0'..=b'9' => Some((b - b'0') as u64),
        b'A'..=b'F' => Some((b - b'A') as u64 + 10),
        _ => None,
    }
}

// The word of a space and its digits.
#[tactic(auto, unfolding(crate::specs::Words::word_at))]
fn read_word(text: &[u8; STEP]) -> Option<u64>
    ensures { result ≡ word_at text.now 0 }
{
    if text[0] != b' ' {
        return None;
    }
    let mut value = 0;
    for digit in &text[1..] {
        value = value * 16 + read_digit(*digit)?;
    }
    Some(value)
}

// The words, where nothing else stands in the text. They are put into room.
fn read_words<'a>(text: &[u8], room: &'a mut [u64; WORDS]) -> Option<Words<'a>> {
    let (steps, []) = text.as_chunks::<STEP>() else {
        return None;
    };
    let count = steps.len();
    if count > WORDS {
        return None;
    }
    for i in 0..count {
        room[i] = read_word(&steps[i])?;
    }
    Some(Words { room, count })
}

// The kind whose number the text is, of one digit or two and with no zero in front.
fn read_kind(text: &[u8]) -> Option<Kind>
    ensures value { IfSome result (λ kind. kind_number kind ≡ digits_value 10 text.now) }
    ensures small { IfSome result (λ kind. kind_number kind < 1000) }
{
    let number = match text {
        [ones @ b'1'..=b'9'] => usize::from(ones - b'0'),
        [tens @ b'1'..=b'9', ones @ b'0'..=b'9'] => {
            usize::from(tens - b'0') * 10 + usize::from(ones - b'0')
        }
        _ => return None,
    };
    Kind::try_from(number).ok()
}

// The line, where it is whole and can be read. Its words are put into room.
pub fn take_apart<'a>(text: &[u8], room: &'a mut [u64; WORDS]) -> Option<Line<'a>>
    ensures number { IfSome result (λ line. kind_number line.kind
        ≡ digits_value 10 (before_first (λ b. b == 32) (take (length text.now - 1) text.now))) }
    ensures small { IfSome result (λ line. kind_number line.kind < 1000) }
{
    let [line @ .., b'\n'] = text else {
        return None;
    };
    let end = line.iter().position(|b| *b == b' ').unwrap_or(line.len());
    let (kind, words) = line.split_at(end);
    Some(Line {
        kind: read_kind(kind)?,
        words: read_words(words, room)?,
    })
}
