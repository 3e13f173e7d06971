// Tickets of six kinds, as a card, the registry of a visit and C have them: floats as their bits, so that a NaN's
// payload is kept, and counts as they are. What comes of one is told by `ticket_design`.
#![tactic(auto)]

use win_shapes::cosines::Cosines;

pub mod kind;
pub mod numbers;

// The window of a low-pass ticket: Kaiser with the bits of its beta, or a loaded one, which has no code.
#[derive(Clone, Copy)]
pub enum TicketWindow {
    Hann,
    Hamming,
    Blackman,
    Kaiser(u64),
    Loaded(Cosines),
}

#[derive(Clone, Copy)]
pub struct LowpassTicket {
    pub cutoff: u64,
    pub rate: u64,
    pub window: TicketWindow,
    pub count: u64,
}

#[derive(Clone, Copy)]
pub struct SpecTicket {
    pub cutoff: u64,
    pub transition: u64,
    pub attenuation: u64,
    pub rate: u64,
    pub cap: u64,
}

#[derive(Clone, Copy)]
pub struct HalfbandTicket {
    pub beta: u64,
    pub count: u64,
}

#[derive(Clone, Copy)]
pub struct GaussianTicket {
    pub bt: u64,
    pub samples: u64,
    pub span: u64,
}

#[derive(Clone, Copy)]
pub struct RrcTicket {
    pub rolloff: u64,
    pub samples: u64,
    pub span: u64,
}

#[derive(Clone, Copy)]
pub struct ChannelizerTicket {
    pub channels: u64,
    pub branch: u64,
    pub passband: u64,
    pub stopband: u64,
    pub attenuation: u64,
}

#[derive(Clone, Copy)]
pub enum Ticket {
    Lowpass(LowpassTicket),
    Spec(SpecTicket),
    Halfband(HalfbandTicket),
    Gaussian(GaussianTicket),
    Rrc(RrcTicket),
    Channelizer(ChannelizerTicket),
}
