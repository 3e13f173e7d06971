// The reader: a ticket with the bytes that its record takes, and the part of the caller's bytes that stays unread.
ghost use Rattle.std.specs.Prelude.{◌≡◌, drop};
ghost use Rattle.ticket_card.specs.Card.{read_of, taken_of};

use super::{Reading, fields};
use ticket_kinds::Ticket;
use ticket_kinds::kind::Kind;
use verdict::{Reason, Refusal};

// Reads the record that the bytes begin with. Refused, in this order: 12 fewer than six bytes; 13 a kind that isn't 1
// to 6; 14 a length that isn't the kind's; 12 fewer bytes than the record takes; 7 a window above 3. No other field is
// judged, and what follows the record doesn't matter.
#[tactic(auto, using(ticket_kinds::specs::KindsLaws::least_fields, ticket_kinds::specs::KindsLaws::most_fields, ticket_kinds::specs::KindsLaws::formed_numbers, crate::specs::Orders::there), unfolding(crate::specs::Card::read_of))]
pub fn read(src: &[u8]) -> Result<Reading, Refusal>
    ensures { result ≡ read_of src.now }
{
    let len = src.len();
    if len < 6 {
        return Err(Refusal::Plain(Reason::CutShort));
    }
    let kind = Kind::try_from(fields::kind_in(src))?;
    let count = kind.fields();
    if fields::length_in(src) != 2 + 8 * count {
        return Err(Refusal::Plain(Reason::RecordLength));
    }
    let taken = (6 + 8 * count) as usize;
    if len < taken {
        return Err(Refusal::Plain(Reason::CutShort));
    }
    let ticket = Ticket::try_from(fields::numbers_in(src, kind))?;
    Ok(Reading { ticket, taken })
}

// What stays unread: the part behind the record that the bytes begin with, or all of them where there is none.
pub fn unread(src: &[u8]) -> &[u8]
    ensures { result.now ≡ drop (taken_of (read_of src.now)) src.now }
{
    match read(src) {
        Ok(found) => &src[found.taken..],
        Err(_) => src,
    }
}
