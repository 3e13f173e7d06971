// The kinds of tickets, by the numbers that cards and C know them by.
ghost use Rattle.std.specs.Prelude.{◌≡◌};
ghost use Rattle.ticket_kinds.specs.Kinds.{kind_number, kind_of, field_count, NamesKind};

use super::Ticket;
use verdict::{Reason, Refusal};

#[derive(Clone, Copy)]
pub enum Kind {
    Lowpass = 1,
    Spec = 2,
    Halfband = 3,
    Gaussian = 4,
    Rrc = 5,
    Channelizer = 6,
}

impl Kind {
    // How many fields a ticket of this kind has.
    #[tactic(auto, unfolding(crate::specs::Kinds::field_count))]
    pub fn fields(self) -> u64
        ensures { result ≡ field_count (kind_number self) }
    {
        match self {
            Kind::Halfband => 2,
            Kind::Gaussian | Kind::Rrc => 3,
            Kind::Lowpass | Kind::Spec | Kind::Channelizer => 5,
        }
    }
}

impl Ticket {
    pub fn kind(self) -> Kind
        ensures { kind_number result ≡ kind_of self }
    {
        match self {
            Ticket::Lowpass(_) => Kind::Lowpass,
            Ticket::Spec(_) => Kind::Spec,
            Ticket::Halfband(_) => Kind::Halfband,
            Ticket::Gaussian(_) => Kind::Gaussian,
            Ticket::Rrc(_) => Kind::Rrc,
            Ticket::Channelizer(_) => Kind::Channelizer,
        }
    }
}

impl From<Kind> for u64 {
    ghost from_gives = { λ kind number. number ≡ kind_number kind };

    fn from(kind: Kind) -> u64 {
        kind as u64
    }
}

// Refused with 13: a number that isn't 1 to 6.
impl TryFrom<u64> for Kind {
    type Error = Refusal;

    ghost try_from_gives = { NamesKind };

    #[tactic(auto, unfolding(crate::specs::Kinds::field_count))]
    fn try_from(number: u64) -> Result<Kind, Refusal> {
        match number {
            1 => Ok(Kind::Lowpass),
            2 => Ok(Kind::Spec),
            3 => Ok(Kind::Halfband),
            4 => Ok(Kind::Gaussian),
            5 => Ok(Kind::Rrc),
            6 => Ok(Kind::Channelizer),
            _ => Err(Refusal::Plain(Reason::Kind)),
        }
    }
}
