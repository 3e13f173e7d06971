// One section and pre-emphasis, as exports into a buffer.
ghost use Rattle.std.specs.Prelude.{length};
ghost use Rattle.wire.specs.Bytes.{float_bytes};
ghost use Rattle.wire.specs.Writes.{Writes};
ghost use Rattle.c_sections.specs.Codes.{response_of};
ghost use Rattle.c_sections.specs.Numbers.{biquad_bytes, preemphasis_bytes};

use super::codes::response_of;
use super::write::write_coefs;
use iir_biquad::biquad::biquad_coefs;
use iir_biquad::preemphasis::preemphasis_coefs;
use verdict::{Reason, Refusal, Report};

// Fills 40 bytes with the section of a centre frequency and a quality q at a rate: b0, b1, b2, a1, a2 with a0 = 1,
// eight bytes each, the lowest first; their number, 5, as the count. Responses: 0 low-pass, 1 high-pass, 2 band-pass, 3
// notch.
// Refused, in this order: 7 another response; 8 with 40 and the length in bytes; 2 with 0, rate/2, centre where the
// centre isn't between 0 and half of a finite rate; 5 with 0, infinity, q where q isn't finite and positive. A refusal
// leaves the buffer as it came. Example: (1, 0.25, 0.5, 1) has b1 = −0.5.
pub fn pel_biquad_coefs(response: u64, centre: f64, q: f64, rate: f64, out: &mut [u8]) -> Report
    ensures { Writes float_bytes (biquad_bytes (response_of response) centre q rate (length out.old)) out.old result out.new }
{
    let Some(known) = response_of(response) else {
        return Report::from(Refusal::Plain(Reason::Code));
    };
    let len = out.len() as u64;
    if len != 40 {
        return Report::from(Refusal::Length(40, len));
    }
    let b = biquad_coefs(known, centre, q, rate);
    write_coefs(b.verdict, b.coefs, &mut *out)
}

// Fills 24 bytes with the coefficients of pre-emphasis for a time constant tau in seconds at a rate: b0, b1, a1 with a0
// = 1, eight bytes each, the lowest first; their number, 3, as the count.
// Refused, in this order: 8 with 24 and the length in bytes; 5 with 0, 0.001, tau where tau isn't above 0 and at most
// 0.001; 1 with 40000, infinity, rate where the rate isn't finite and at least 40000. A refusal leaves the buffer as it
// came.
pub fn pel_preemphasis_coefs(tau: f64, rate: f64, out: &mut [u8]) -> Report
    ensures { Writes float_bytes (preemphasis_bytes tau rate (length out.old)) out.old result out.new }
{
    let len = out.len() as u64;
    if len != 24 {
        return Report::from(Refusal::Length(24, len));
    }
    let p = preemphasis_coefs(tau, rate);
    write_coefs(p.verdict, p.coefs, &mut *out)
}
