// The responses by their codes, since an enum is no argument of a C function.
ghost use Rattle.std.specs.Prelude.{◌≡◌};
ghost use Rattle.c_sections.specs.Codes.{response_of};

use iir_biquad::biquad::Response;

// 0 low-pass, 1 high-pass, 2 band-pass, 3 notch.
#[tactic(auto, unfolding(crate::specs::Codes::response_of))]
pub(crate) fn response_of(code: u64) -> Option<Response>
    ensures { result ≡ response_of code }
{
    match code {
        0 => Some(Response::Lowpass),
        1 => Some(Response::Highpass),
        2 => Some(Response::Bandpass),
        3 => Some(Response::Notch),
        _ => None,
    }
}
