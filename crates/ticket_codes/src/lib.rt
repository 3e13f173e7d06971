// What the numbers of a ticket stand for: the windows by their codes, since an enum is no argument of a C function.
#![tactic(auto)]

ghost use Rattle.std.specs.Prelude.{◌≡◌};
ghost use Rattle.ticket_codes.specs.Codes.{window_of, code_of, shape_of};

use fir_sinc::window::Window;

// 0 Hann, 1 Hamming, 2 Blackman, 3 Kaiser with this beta, which the others leave out.
pub fn window_of(code: u64, beta: f64) -> Option<Window>
    ensures { result ≡ window_of code beta }
{
    match code {
        0 => Some(Window::Hann),
        1 => Some(Window::Hamming),
        2 => Some(Window::Blackman),
        3 => Some(Window::Kaiser(beta)),
        _ => None,
    }
}

// The code of a window; 4, which is no window's, of a loaded one.
pub fn code_of(w: Window) -> u64
    ensures { result ≡ code_of w }
{
    match w {
        Window::Hann => 0,
        Window::Hamming => 1,
        Window::Blackman => 2,
        Window::Kaiser(_) => 3,
        Window::Cosines(_) => 4,
    }
}

// The beta of a window, 0 where it has none.
pub fn shape_of(w: Window) -> f64
    ensures { result ≡ shape_of w }
{
    match w {
        Window::Hann => 0.0,
        Window::Hamming => 0.0,
        Window::Blackman => 0.0,
        Window::Kaiser(beta) => beta,
        Window::Cosines(_) => 0.0,
    }
}
