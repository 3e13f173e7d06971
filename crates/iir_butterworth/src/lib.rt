// Butterworth filters as sections, five numbers each, one after the other.
#![tactic(auto)]

mod section;

ghost use Rattle.std.specs.Prelude.{◌≡◌, ◌+◌, ◌≤◌, length};
ghost use Rattle.std.proofs.lemmas.List.Edits.{sets};
ghost use Rattle.verdict.specs.Outcome.{answered, Fills};
ghost use Rattle.iir_butterworth.specs.Butterworth.{response_taken, order_taken, sections_of, butterworth_of};

use iir_biquad::biquad::{Response, takes_centre};
use section::Section;
use verdict::{Reason, Refusal};

// Whether a cascade has this response: low-pass or high-pass.
fn takes_response(response: Response) -> bool
    ensures { result ≡ response_taken response }
{
    match response {
        Response::Lowpass => true,
        Response::Highpass => true,
        Response::Bandpass => false,
        Response::Notch => false,
    }
}

// Whether an order is from 2 to 8.
fn takes_order(order: u64) -> bool
    ensures { result ≡ order_taken order }
{
    2 <= order && order <= 8
}

// How many sections an order has: one for each two poles, and one for the pole that an odd order has left.
fn sections(order: u64) -> u64
    ensures { result ≡ sections_of order }
{
    order.div_ceil(2)
}

// Stores the five numbers of a section from `at` on.
fn put_section(sos: &mut [f64], at: usize, coefs: [f64; 5])
    requires { at + 5 ≤ length sos.old }
    ensures { sos.new ≡ sets sos.old at coefs }
{
    for j in 0..5 {
        sos[at + j] = coefs[j];
    }
}

// Whether a filter is taken, for a buffer of `len` elements. Refused, in this order: 7 a response that is neither
// low-pass nor high-pass; 6 an order below 2 or above 8; 8 where the buffer hasn't five elements a section; 2 with 0,
// rate/2, cutoff as `biquad_coefs`. 5 can't come: every quality is finite and positive.
pub fn judge(
    response: Response,
    order: u64,
    cutoff: f64,
    rate: f64,
    len: u64,
) -> Result<(), Refusal>
    ensures { result ≡ answered (butterworth_of response order cutoff rate len) }
{
    if !takes_response(response) {
        return Err(Refusal::Plain(Reason::Code));
    }
    if !takes_order(order) {
        return Err(Refusal::Plain(Reason::Count));
    }
    let expected = sections(order) * 5;
    if len != expected {
        return Err(Refusal::Length(expected, len));
    }
    if !takes_centre(cutoff, rate) {
        return Err(Refusal::Range(Reason::Frequency, 0.0, rate / 2.0, cutoff));
    }
    Ok(())
}

// Fills the buffer with the sections, five numbers each, the lowest quality first and that of first order last. Refused
// as `judge`, with the buffer as it came.
pub fn butterworth_sos(
    response: Response,
    order: u64,
    cutoff: f64,
    rate: f64,
    sos: &mut [f64],
) -> Result<(), Refusal>
    ensures { Fills (butterworth_of response order cutoff rate (length sos.old)) sos.old result sos.new }
{
    judge(response, order, cutoff, rate, sos.len() as u64)?;
    let count = sections(order) as usize;
    for i in 0..count {
        let section = Section {
            response,
            order,
            cutoff,
            rate,
            i: i as u64,
        };
        put_section(&mut *sos, 5 * i, section.numbers());
    }
    Ok(())
}
