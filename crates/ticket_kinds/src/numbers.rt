// A ticket as the number of its kind and the numbers of its fields, as a record and C have it, and back.
ghost use Rattle.std.specs.Prelude.{◌≡◌};
ghost use Rattle.ticket_kinds.specs.Kinds.{window_coded, window_code, window_beta, numbers_of, formed_of};

use super::kind::Kind;
use super::{
    ChannelizerTicket, GaussianTicket, HalfbandTicket, LowpassTicket, RrcTicket, SpecTicket,
    Ticket, TicketWindow,
};
use verdict::{Reason, Refusal};

// The kind, 1 to 6, and the fields in the order of its record; those past the kind's are 0. The kind is a number, since
// C can give any.
#[repr(C)]
#[derive(Clone, Copy, Default)]
pub struct Numbers {
    pub kind: u64,
    pub first: u64,
    pub second: u64,
    pub third: u64,
    pub fourth: u64,
    pub fifth: u64,
}

// 0 Hann, 1 Hamming, 2 Blackman, 3 Kaiser, which alone takes beta. Refused with 7: a code above 3.
fn window_of(code: u64, beta: u64) -> Result<TicketWindow, Refusal>
    ensures { result ≡ window_coded code beta }
{
    match code {
        0 => Ok(TicketWindow::Hann),
        1 => Ok(TicketWindow::Hamming),
        2 => Ok(TicketWindow::Blackman),
        3 => Ok(TicketWindow::Kaiser(beta)),
        _ => Err(Refusal::Plain(Reason::Code)),
    }
}

impl TicketWindow {
    // The code; 4, which is no window's, of a loaded one.
    fn code(self) -> u64
        ensures { result ≡ window_code self }
    {
        match self {
            TicketWindow::Hann => 0,
            TicketWindow::Hamming => 1,
            TicketWindow::Blackman => 2,
            TicketWindow::Kaiser(_) => 3,
            TicketWindow::Loaded(_) => 4,
        }
    }

    // The bits of beta, all zero where the window isn't Kaiser.
    fn beta(self) -> u64
        ensures { result ≡ window_beta self }
    {
        match self {
            TicketWindow::Kaiser(beta) => beta,
            _ => 0,
        }
    }
}

// The ticket of these numbers. Fields past the kind's, and the beta of a window that takes none, aren't looked at.
// Refused, in this order: 13 a kind that isn't 1 to 6; 7 a window above 3. No other number is judged.
impl TryFrom<Numbers> for Ticket {
    type Error = Refusal;

    ghost try_from_gives = { λ n formed. formed ≡ formed_of n };

    #[tactic(auto, unfolding(crate::specs::Kinds::formed_of, crate::specs::Kinds::field_count, crate::specs::Kinds::window_taken, crate::specs::Kinds::ticket_of))]
    fn try_from(n: Numbers) -> Result<Ticket, Refusal> {
        Ok(match Kind::try_from(n.kind)? {
            Kind::Lowpass => Ticket::Lowpass(LowpassTicket {
                cutoff: n.first,
                rate: n.second,
                window: window_of(n.third, n.fourth)?,
                count: n.fifth,
            }),
            Kind::Spec => Ticket::Spec(SpecTicket {
                cutoff: n.first,
                transition: n.second,
                attenuation: n.third,
                rate: n.fourth,
                cap: n.fifth,
            }),
            Kind::Halfband => Ticket::Halfband(HalfbandTicket {
                beta: n.first,
                count: n.second,
            }),
            Kind::Gaussian => Ticket::Gaussian(GaussianTicket {
                bt: n.first,
                samples: n.second,
                span: n.third,
            }),
            Kind::Rrc => Ticket::Rrc(RrcTicket {
                rolloff: n.first,
                samples: n.second,
                span: n.third,
            }),
            Kind::Channelizer => Ticket::Channelizer(ChannelizerTicket {
                channels: n.first,
                branch: n.second,
                passband: n.third,
                stopband: n.fourth,
                attenuation: n.fifth,
            }),
        })
    }
}

// The numbers of a ticket; those of a loaded window are 4 and 0, and come back as no ticket.
impl From<Ticket> for Numbers {
    ghost from_gives = { λ t numbers. numbers ≡ numbers_of t };

    fn from(t: Ticket) -> Numbers {
        let kind = u64::from(t.kind());
        match t {
            Ticket::Lowpass(l) => Numbers {
                kind,
                first: l.cutoff,
                second: l.rate,
                third: l.window.code(),
                fourth: l.window.beta(),
                fifth: l.count,
            },
            Ticket::Spec(s) => Numbers {
                kind,
                first: s.cutoff,
                second: s.transition,
                third: s.attenuation,
                fourth: s.rate,
                fifth: s.cap,
            },
            Ticket::Halfband(h) => Numbers {
                kind,
                first: h.beta,
                second: h.count,
                ..Numbers::default()
            },
            Ticket::Gaussian(g) => Numbers {
                kind,
                first: g.bt,
                second: g.samples,
                third: g.span,
                ..Numbers::default()
            },
            Ticket::Rrc(r) => Numbers {
                kind,
                first: r.rolloff,
                second: r.samples,
                third: r.span,
                ..Numbers::default()
            },
            Ticket::Channelizer(c) => Numbers {
                kind,
                first: c.channels,
                second: c.branch,
                third: c.passband,
                fourth: c.stopband,
                fifth: c.attenuation,
            },
        }
    }
}
