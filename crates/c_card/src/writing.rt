// Tickets written back, as an export: the record of a ticket in a buffer.
ghost use Rattle.ticket_kinds.specs.Kinds.{formed_of};
ghost use Rattle.c_card.specs.Writing.{WritesTicket};

use super::reading::told_end;
use ticket_kinds::Ticket;
use ticket_kinds::numbers::Numbers;
use ticket_record::write;
use verdict::Report;

// Writes a ticket as a record into a buffer that is as long as the record: how many bytes that is as the count.
// Refused, in this order, with the buffer as it came: 13 a kind that isn't 1 to 6; 7 a low-pass with a window above 3,
// a loaded one among them; 8 a buffer of another length, with the record's and its own, in bytes. Fields past the
// kind's, and the beta of a window that takes none, aren't looked at: such a beta is written as zeros. Example: kind 3,
// the bits of 8.0 and 31 take 22 bytes.
pub fn pel_write_ticket(ticket: Numbers, out: &mut [u8]) -> Report
    ensures { WritesTicket (formed_of ticket) out.old result out.new }
{
    let len = out.len() as u64;
    match Ticket::try_from(ticket) {
        Ok(t) => {
            let ended = write(t, &mut *out);
            told_end(len, ended)
        }
        Err(why) => Report::from(why),
    }
}
