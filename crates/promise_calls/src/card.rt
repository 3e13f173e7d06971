// Tickets on a card: a record read whole or refused, a card checked to its first broken place, a ticket judged and
// designed with demands 1 and 3, also after a conversion to Q15, and designed as it was read.
ghost use Rattle.std.specs.Prelude.{length};
ghost use Rattle.verdict.specs.Outcome.{answered};
ghost use Rattle.wire.specs.Bytes.{float_bytes};
ghost use Rattle.ticket_kinds.specs.Kinds.{formed_of};
ghost use Rattle.c_card.specs.Tickets.{judged_for, bytes_for};
ghost use Rattle.promise_refusals.specs.Demand.{Numbered, FilledOrKept};
ghost use Rattle.promise_card.specs.Reads.{ReadOrNone, CheckedCard};
ghost use Rattle.promise_card.specs.Tickets.{TicketTotals, TicketFilters, TicketMirrors, DesignsRead};

use super::filters::Filter;
use c_card::reading::{CardChecked, TicketRead};
use c_formats::buffers::pel_to_q15;
use ticket_kinds::numbers::Numbers;
use verdict::Report;

pub fn read_ticket(src: &[u8]) -> TicketRead
    ensures { ReadOrNone src.now result }
{
    c_card::reading::pel_read_ticket(src)
}

pub fn check_card(src: &[u8]) -> CardChecked
    ensures { CheckedCard src.now result }
{
    c_card::reading::pel_check_card(src)
}

pub fn judge_ticket(ticket: Numbers) -> Report
    ensures { Numbered (answered (judged_for (formed_of ticket))) result.number }
{
    c_card::tickets::pel_judge_ticket(ticket)
}

pub fn design_ticket(ticket: Numbers, out: &mut [u8]) -> Report
    ensures filled_or_kept { FilledOrKept float_bytes (bytes_for (formed_of ticket) (length out.old)) out.old result out.new }
    ensures ticket_totals { TicketTotals ticket.kind result out.new }
    ensures ticket_mirrors { TicketMirrors ticket.kind result out.new }
{
    c_card::tickets::pel_design_ticket(ticket, &mut *out)
}

pub fn ticket_q15(ticket: Numbers, taps: &mut [u8], out: &mut [u8]) -> Filter
    ensures { TicketFilters ticket.kind result.design taps.new result.conversion out.new }
{
    let design = c_card::tickets::pel_design_ticket(ticket, &mut *taps);
    let conversion = pel_to_q15(&*taps, &mut *out);
    Filter { design, conversion }
}

// A ticket goes from the reader to the designer as it was read.
pub fn design_as_read(src: &[u8], out: &mut [u8]) -> Report
    ensures { DesignsRead src.now out.old result out.new }
{
    let found = c_card::reading::pel_read_ticket(src);
    c_card::tickets::pel_design_ticket(found.ticket, &mut *out)
}
