// A ticket of any kind designed into a buffer of bytes.
ghost use Rattle.std.specs.Prelude.{◌≡◌, ◌&&◌, not, ◌/◌, ◌%◌, eqb, length};
ghost use Rattle.wire.specs.Bytes.{float_bytes};
ghost use Rattle.wire.specs.Writes.{Writes};
ghost use Rattle.ticket_kinds.specs.declared.Ticket.TheVariants as Ticket;
ghost use Rattle.ticket_design.specs.Design.{ticket_bytes};

use super::numbers::{spec_for, window_for};
use fir_cache::CACHED;
use ticket_bytes::lowpasses::{put_lowpass, put_prototype, put_spec};
use ticket_bytes::pulses::{put_gaussian, put_halfband, put_rrc};
use ticket_kinds::{ChannelizerTicket, HalfbandTicket, LowpassTicket, Ticket};
use verdict::{Refusal, Report};
use wire::float_of;

// Whether a buffer of len bytes has whole taps, and another number of them than the ticket says.
fn other_count(count: u64, len: u64) -> bool
    ensures { result ≡ (eqb (len % 8) 0 && not (eqb count (len / 8))) }
{
    len % 8 == 0 && count != len / 8
}

fn design_lowpass(l: LowpassTicket, raws: &mut [f64], out: &mut [u8]) -> Report
    ensures { Writes float_bytes (ticket_bytes (Ticket.Lowpass l) (length out.old)) out.old result out.new }
{
    let len = out.len() as u64;
    let count = l.count;
    if other_count(count, len) {
        return Report::from(Refusal::Length(count, len / 8));
    }
    let window = l.window;
    let w = window_for(window);
    let cutoff = float_of(l.cutoff);
    let rate = float_of(l.rate);
    put_lowpass(cutoff, rate, w, &mut *raws, &mut *out)
}

fn design_halfband(h: HalfbandTicket, raws: &mut [f64], out: &mut [u8]) -> Report
    ensures { Writes float_bytes (ticket_bytes (Ticket.Halfband h) (length out.old)) out.old result out.new }
{
    let len = out.len() as u64;
    let count = h.count;
    if other_count(count, len) {
        return Report::from(Refusal::Length(count, len / 8));
    }
    let beta = float_of(h.beta);
    put_halfband(beta, &mut *raws, &mut *out)
}

fn design_channelizer(c: ChannelizerTicket, raws: &mut [f64], out: &mut [u8]) -> Report
    ensures { Writes float_bytes (ticket_bytes (Ticket.Channelizer c) (length out.old)) out.old result out.new }
{
    let passband = float_of(c.passband);
    let stopband = float_of(c.stopband);
    let attenuation = float_of(c.attenuation);
    put_prototype(
        c.channels,
        c.branch,
        passband,
        stopband,
        attenuation,
        &mut *raws,
        &mut *out,
    )
}

// Fills the buffer with the taps of a ticket, eight bytes each, the lowest first. Refused, in this order, with the
// buffer as it came: 8 a length that isn't a multiple of 8, with the length to the last whole tap and the length, in
// bytes; 8 a low-pass's or a half-band's count that isn't the buffer's number of taps, with both; then as its kind is,
// the other kinds with their own 8.
pub fn design(t: Ticket, out: &mut [u8]) -> Report
    ensures { Writes float_bytes (ticket_bytes t (length out.old)) out.old result out.new }
{
    let mut raws = [0.0f64; CACHED];
    match t {
        Ticket::Lowpass(l) => design_lowpass(l, &mut raws, &mut *out),
        Ticket::Spec(s) => {
            let spec = spec_for(s);
            let rate = float_of(s.rate);
            put_spec(spec, rate, s.cap, &mut raws, &mut *out)
        }
        Ticket::Halfband(h) => design_halfband(h, &mut raws, &mut *out),
        Ticket::Gaussian(g) => {
            let bt = float_of(g.bt);
            put_gaussian(bt, g.samples, g.span, &mut raws, &mut *out)
        }
        Ticket::Rrc(r) => {
            let rolloff = float_of(r.rolloff);
            put_rrc(rolloff, r.samples, r.span, &mut *out)
        }
        Ticket::Channelizer(c) => design_channelizer(c, &mut raws, &mut *out),
    }
}
