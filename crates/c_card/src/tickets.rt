// Tickets of any kind, as exports: judged, and their taps in a buffer.
ghost use Rattle.std.specs.Prelude.{◌≡◌, length};
ghost use Rattle.verdict.specs.Reports.{outcome_report};
ghost use Rattle.wire.specs.Bytes.{float_bytes};
ghost use Rattle.wire.specs.Writes.{Writes};
ghost use Rattle.ticket_kinds.specs.Kinds.{formed_of};
ghost use Rattle.c_card.specs.Tickets.{judged_for, bytes_for};

use ticket_design::design::design;
use ticket_design::judge::judge;
use ticket_kinds::Ticket;
use ticket_kinds::numbers::Numbers;
use verdict::Report;

// Judges a ticket as it would be designed into a buffer of its own length: its number of taps as the count, what they
// are divided by as the value. Refused, in this order: 13 a kind that isn't 1 to 6; 7 a low-pass with a window above 3;
// then as its kind is without a buffer. Example: kind 3 with the bits of 8.0 and the count 31 has 31 taps.
pub fn pel_judge_ticket(ticket: Numbers) -> Report
    ensures { result ≡ outcome_report (judged_for (formed_of ticket)) }
{
    match Ticket::try_from(ticket) {
        Ok(t) => Report::from(judge(t)),
        Err(why) => Report::from(why),
    }
}

// Fills the buffer with the taps of a ticket, eight bytes each, the lowest first; answers as pel_judge_ticket. Refused,
// in this order: 13 and 7 as that; 8 a length that isn't a multiple of 8, with the length to the last whole tap and the
// length, in bytes; 8 a low-pass's or a half-band's count that isn't the buffer's number of taps, with both; then as
// its kind is. A refusal leaves the buffer as it came.
pub fn pel_design_ticket(ticket: Numbers, out: &mut [u8]) -> Report
    ensures { Writes float_bytes (bytes_for (formed_of ticket) (length out.old)) out.old result out.new }
{
    match Ticket::try_from(ticket) {
        Ok(t) => design(t, &mut *out),
        Err(why) => Report::from(why),
    }
}
