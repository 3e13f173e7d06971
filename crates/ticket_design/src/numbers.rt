// The bits of a ticket as the numbers of its design.
ghost use Rattle.std.specs.Prelude.{◌≡◌};
ghost use Rattle.ticket_design.specs.Design.{window_for, spec_for};

use fir_sinc::window::Window;
use fir_spec::DesignSpec;
use ticket_kinds::{SpecTicket, TicketWindow};
use wire::float_of;

// The window, Kaiser with the beta that its bits are.
pub(crate) fn window_for(w: TicketWindow) -> Window
    ensures { result ≡ window_for w }
{
    match w {
        TicketWindow::Hann => Window::Hann,
        TicketWindow::Hamming => Window::Hamming,
        TicketWindow::Blackman => Window::Blackman,
        TicketWindow::Kaiser(beta) => {
            let x = float_of(beta);
            Window::Kaiser(x)
        }
        TicketWindow::Loaded(c) => Window::Cosines(c),
    }
}

// What a specification asks for.
pub(crate) fn spec_for(s: SpecTicket) -> DesignSpec
    ensures { result ≡ spec_for s }
{
    let cutoff = float_of(s.cutoff);
    let transition = float_of(s.transition);
    let attenuation = float_of(s.attenuation);
    DesignSpec {
        cutoff,
        transition,
        attenuation,
    }
}
