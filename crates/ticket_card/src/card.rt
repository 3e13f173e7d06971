// A whole card, read record by record.
ghost use Rattle.ticket_card.specs.Cards.{Checks};

use super::reader::read;
use verdict::Refusal;

// How many tickets were read, at which byte reading ended, and how: at the end of the card, or at a record that is
// refused.
#[derive(Clone, Copy)]
pub struct Checked {
    pub tickets: u64,
    pub place: usize,
    pub ended: Result<(), Refusal>,
}

// Reads a card to its end, or to the first record that is refused. Each record takes 22 bytes at least, so it ends.
// The place is no counter: each record moves it by its own length, and it is answered, so that no iterator has it.
pub fn check(src: &[u8]) -> Checked
    ensures { Checks src.now result }
{
    let len = src.len();
    let mut at: usize = 0;
    let mut tickets: u64 = 0;
    while at < len {
        match read(&src[at..]) {
            Ok(found) => {
                at += found.taken;
                tickets += 1;
            }
            Err(why) => {
                return Checked {
                    tickets,
                    place: at,
                    ended: Err(why),
                };
            }
        }
    }
    Checked {
        tickets,
        place: at,
        ended: Ok(()),
    }
}
