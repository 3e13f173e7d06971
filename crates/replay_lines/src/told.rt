// An answer held to the words that a line has for it, which stand in the order of its fields.
ghost use Rattle.std.specs.Prelude.{◌≡◌};
ghost use Rattle.replay_lines.specs.Told.{has_word, have_words, fields_judged};

use crate::pattern::agrees;
use verdict::Report;

// The words of a report.
pub const FIELDS: usize = 10;

// A field of an answer. A number is its word, and a float has it for its pattern.
#[derive(Clone, Copy)]
pub enum Field {
    Number(u64),
    Float(f64),
}

impl Field {
    fn has(self, word: u64) -> bool
        ensures { result ≡ has_word self word }
    {
        match self {
            Field::Number(n) => n == word,
            Field::Float(x) => agrees(x, word),
        }
    }
}

fn fields(r: Report) -> [Field; FIELDS] {
    [
        Field::Number(r.number as u64),
        Field::Number(r.carries as u64),
        Field::Float(r.smallest),
        Field::Float(r.largest),
        Field::Float(r.offered),
        Field::Number(r.expected),
        Field::Number(r.given),
        Field::Number(r.index),
        Field::Number(r.count),
        Field::Float(r.value),
    ]
}

// Has each field the word in its place?
fn have(fields: &[Field], words: &[u64]) -> bool
    ensures { result ≡ have_words fields.now words.now }
{
    fields
        .iter()
        .zip(words)
        .all(|(field, word)| field.has(*word))
}

// Is r the report that the words tell?
pub fn is_told(r: Report, words: &[u64; FIELDS]) -> bool {
    have(&fields(r), words)
}

// Whether these are the fields of the answer that ends a line.
pub fn judge_fields(fields: &[Field], words: &[u64]) -> Option<bool>
    ensures { result ≡ fields_judged fields.now words.now }
{
    if fields.len() != words.len() {
        return None;
    }
    Some(have(fields, words))
}

// Whether r is the report that ends a line.
pub fn judge(r: Report, words: &[u64]) -> Option<bool> {
    judge_fields(&fields(r), words)
}
