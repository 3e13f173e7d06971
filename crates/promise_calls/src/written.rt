// Tickets written back to a card: a record whole in the buffer or the buffer as it came, read back as it was written,
// and written back as it was read.
ghost use Rattle.promise_written.specs.Written.{numbers, WrittenOrKept, ReadAs, ReadsBack, WritesBack};

use c_card::reading::TicketRead;
use ticket_kinds::numbers::Numbers;
use verdict::Report;

pub fn write_ticket(ticket: Numbers, out: &mut [u8]) -> Report
    ensures { WrittenOrKept ticket out.old result out.new }
{
    c_card::writing::pel_write_ticket(ticket, &mut *out)
}

// What the writer and the reader tell.
#[derive(Clone, Copy)]
pub struct BothWays {
    pub written: Report,
    pub found: TicketRead,
}

// Any ticket, by its kind and the 64 bits of each field, is read back from the buffer that it was written into.
pub fn read_as_written(
    kind: u64,
    first: u64,
    second: u64,
    third: u64,
    fourth: u64,
    fifth: u64,
    out: &mut [u8],
) -> BothWays
    ensures read_as { ReadAs (numbers kind first second third fourth fifth) result.written result.found }
    ensures reads_back { ReadsBack (numbers kind first second third fourth fifth) result.written out.new }
{
    let written = c_card::writing::pel_write_ticket(
        Numbers {
            kind,
            first,
            second,
            third,
            fourth,
            fifth,
        },
        &mut *out,
    );
    let found = c_card::reading::pel_read_ticket(&*out);
    BothWays { written, found }
}

// Any record is written back from what was read of it.
pub fn write_as_read(src: &[u8], out: &mut [u8]) -> BothWays
    ensures { WritesBack src.now result.found out.old result.written out.new }
{
    let found = c_card::reading::pel_read_ticket(src);
    let written = c_card::writing::pel_write_ticket(found.ticket, &mut *out);
    BothWays { written, found }
}
