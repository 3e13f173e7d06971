// Tickets on a card: a record read and written, a card checked, a ticket judged and designed.
ghost use Rattle.std.specs.Prelude.{◌≡◌, length};
ghost use Rattle.ticket_card.specs.Card.{read_of};
ghost use Rattle.c_card.specs.Cards.{told_of, ChecksCard};
ghost use Rattle.verdict.specs.Reports.{outcome_report};
ghost use Rattle.ticket_kinds.specs.Kinds.{formed_of};
ghost use Rattle.c_card.specs.Tickets.{judged_for, bytes_for};
ghost use Rattle.wire.specs.Bytes.{float_bytes};
ghost use Rattle.wire.specs.Writes.{Writes};
ghost use Rattle.c_card.specs.Writing.{WritesTicket};

use c_card::reading::{CardChecked, TicketRead};
use ticket_kinds::numbers::Numbers;
use verdict::Report;

// Reads the record that the bytes begin with: how many of them it takes as the count, so that the others stay unread.
#[unsafe(no_mangle)]
pub extern "C" fn pel_read_ticket(src: &[u8]) -> TicketRead
    ensures { result ≡ told_of (read_of src.now) }
{
    c_card::reading::pel_read_ticket(src)
}

// Reads a card record by record: how many tickets it has as the count, where it is read to its end.
#[unsafe(no_mangle)]
pub extern "C" fn pel_check_card(src: &[u8]) -> CardChecked
    ensures { ChecksCard src.now result }
{
    c_card::reading::pel_check_card(src)
}

// Judges a ticket as it would be designed into a buffer of its own length: its number of taps as the count, what they
// are divided by as the value.
#[unsafe(no_mangle)]
pub extern "C" fn pel_judge_ticket(ticket: Numbers) -> Report
    ensures { result ≡ outcome_report (judged_for (formed_of ticket)) }
{
    c_card::tickets::pel_judge_ticket(ticket)
}

// Fills the buffer with the taps of a ticket, eight bytes each, the lowest first; answers as pel_judge_ticket.
#[unsafe(no_mangle)]
pub extern "C" fn pel_design_ticket(ticket: Numbers, out: &mut [u8]) -> Report
    ensures { Writes float_bytes (bytes_for (formed_of ticket) (length out.old)) out.old result out.new }
{
    c_card::tickets::pel_design_ticket(ticket, &mut *out)
}

// Writes a ticket as a record into a buffer that is as long as the record: how many bytes that is as the count.
#[unsafe(no_mangle)]
pub extern "C" fn pel_write_ticket(ticket: Numbers, out: &mut [u8]) -> Report
    ensures { WritesTicket (formed_of ticket) out.old result out.new }
{
    c_card::writing::pel_write_ticket(ticket, &mut *out)
}
