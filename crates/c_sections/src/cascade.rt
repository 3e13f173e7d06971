// Butterworth filters, as an export into a buffer.
ghost use Rattle.std.specs.Prelude.{◌≡◌, ◌/◌, ◌%◌, length};
ghost use Rattle.iir_butterworth.specs.Butterworth.{butterworth_of};
ghost use Rattle.wire.specs.Bytes.{float_bytes};
ghost use Rattle.wire.specs.Writes.{Writes};
ghost use Rattle.c_sections.specs.Codes.{response_of};
ghost use Rattle.c_sections.specs.Numbers.{butterworth_bytes};

use super::codes::response_of;
use super::write::write_numbers;
use iir_biquad::biquad::Response;
use verdict::{Reason, Refusal, Report};

// Judged first, since only a filter that is taken has few enough numbers for the array: the highest order has 20.
fn write_cascade(response: Response, order: u64, cutoff: f64, rate: f64, out: &mut [u8]) -> Report
    requires { length out.old % 8 ≡ 0 }
    ensures { Writes float_bytes (butterworth_of response order cutoff rate (length out.old / 8)) out.old result out.new }
{
    let n = out.len() / 8;
    if let Err(why) = iir_butterworth::judge(response, order, cutoff, rate, n as u64) {
        return Report::from(why);
    }
    let mut room = [0.0f64; 20];
    let numbers = &mut room[..n];
    let _ = iir_butterworth::butterworth_sos(response, order, cutoff, rate, &mut *numbers);
    write_numbers(numbers, &mut *out)
}

// Fills the buffer with the sections of a Butterworth filter, five numbers each as pel_biquad_coefs has them, eight
// bytes each, the lowest first: one for each two poles, and last, where the order is odd, one of first order. How many
// numbers as the count. Responses: 0 low-pass, 1 high-pass.
// Refused, in this order: 7 a response above 3; 8 a length that isn't a multiple of 8, with the length to the last
// whole number and the length, in bytes; 7 a band-pass or a notch; 6 an order below 2 or above 8; 8 a buffer for
// another number of numbers than five a section, with both; 2 with 0, rate/2, cutoff where the cutoff isn't between 0
// and half of a finite rate. A refusal leaves the buffer as it came. Example: orders 3 and 4 need 80 bytes.
pub fn pel_butterworth_sos(
    response: u64,
    order: u64,
    cutoff: f64,
    rate: f64,
    out: &mut [u8],
) -> Report
    ensures { Writes float_bytes (butterworth_bytes (response_of response) order cutoff rate (length out.old)) out.old result out.new }
{
    let Some(known) = response_of(response) else {
        return Report::from(Refusal::Plain(Reason::Code));
    };
    let len = out.len() as u64;
    if len % 8 != 0 {
        return Report::from(Refusal::Length(len - len % 8, len));
    }
    write_cascade(known, order, cutoff, rate, &mut *out)
}
