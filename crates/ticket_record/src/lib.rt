// A ticket written as a record of a card, into a buffer that is as long as the record.
#![tactic(auto)]

ghost use Rattle.std.specs.Prelude.{◌≡◌, length, take};
ghost use Rattle.ticket_kinds.specs.Kinds.{has_code, kind_number, field_count};
ghost use Rattle.ticket_card.specs.Card.{record_length};
ghost use Rattle.ticket_record.specs.Record.{record_bytes, field_list, WritesRecord};

use ticket_kinds::kind::Kind;
use ticket_kinds::numbers::Numbers;
use ticket_kinds::{Ticket, TicketWindow};
use verdict::{Reason, Refusal};

// Whether a card has a code for it: for a loaded window it has none.
fn has_code(t: Ticket) -> bool
    ensures { result ≡ has_code t }
{
    match t {
        Ticket::Lowpass(l) => !matches!(l.window, TicketWindow::Loaded(_)),
        _ => true,
    }
}

// Stores a record: the length of what follows, the kind, and its first fields, of which it has two, three or five.
#[tactic(auto, using(ticket_kinds::specs::KindsLaws::most_fields))]
fn put_record(n: Numbers, kind: Kind, out: &mut [u8])
    requires { length out.old ≡ record_length (field_count (kind_number kind)) }
    ensures { out.new ≡ record_bytes n.kind (take (field_count (kind_number kind)) (field_list n)) }
{
    let count = kind.fields();
    wire::put(&mut *out, 0, 4, 2 + 8 * count);
    wire::put(&mut *out, 4, 2, n.kind);
    wire::put(&mut *out, 6, 8, n.first);
    wire::put(&mut *out, 14, 8, n.second);
    if count == 2 {
        return;
    }
    wire::put(&mut *out, 22, 8, n.third);
    if count == 3 {
        return;
    }
    wire::put(&mut *out, 30, 8, n.fourth);
    wire::put(&mut *out, 38, 8, n.fifth);
}

// Writes the record of a ticket. Refused, in this order, with the buffer as it came: 7 a loaded window, for which a
// card has no code; 8 a buffer that isn't as long as the record, with both lengths in bytes. Nothing else is judged:
// what a ticket can hold, a card can.
#[tactic(auto, using(crate::specs::RecordLaws::size_of, crate::specs::RecordLaws::record_is, ticket_kinds::specs::KindsLaws::most_fields), unfolding(crate::specs::Record::write_of))]
pub fn write(t: Ticket, out: &mut [u8]) -> Result<(), Refusal>
    ensures { WritesRecord t out.old result out.new }
{
    if !has_code(t) {
        return Err(Refusal::Plain(Reason::Code));
    }
    let n = Numbers::from(t);
    let kind = t.kind();
    let size = (6 + 8 * kind.fields()) as usize;
    let len = out.len();
    if len != size {
        return Err(Refusal::Length(size as u64, len as u64));
    }
    put_record(n, kind, &mut *out);
    Ok(())
}
