// Biquads, Butterworth filters and pre-emphasis in a buffer.
ghost use Rattle.std.specs.Prelude.{length};
ghost use Rattle.wire.specs.Bytes.{float_bytes};
ghost use Rattle.wire.specs.Writes.{Writes};
ghost use Rattle.c_sections.specs.Codes.{response_of};
ghost use Rattle.c_sections.specs.Numbers.{butterworth_bytes, biquad_bytes, preemphasis_bytes};

use verdict::Report;

// Fills the buffer with the sections of a Butterworth filter, five numbers each as pel_biquad_coefs has them, eight
// bytes each, the lowest first: one for each two poles, and last, where the order is odd, one of first order.
#[unsafe(no_mangle)]
pub extern "C" fn pel_butterworth_sos(
    response: u64,
    order: u64,
    cutoff: f64,
    rate: f64,
    out: &mut [u8],
) -> Report
    ensures { Writes float_bytes (butterworth_bytes (response_of response) order cutoff rate (length out.old)) out.old result out.new }
{
    c_sections::cascade::pel_butterworth_sos(response, order, cutoff, rate, &mut *out)
}

// Fills 40 bytes with the section of a centre frequency and a quality q at a rate: b0, b1, b2, a1, a2 with a0 = 1,
// eight bytes each, the lowest first; their number, 5, as the count.
#[unsafe(no_mangle)]
pub extern "C" fn pel_biquad_coefs(
    response: u64,
    centre: f64,
    q: f64,
    rate: f64,
    out: &mut [u8],
) -> Report
    ensures { Writes float_bytes (biquad_bytes (response_of response) centre q rate (length out.old)) out.old result out.new }
{
    c_sections::section::pel_biquad_coefs(response, centre, q, rate, &mut *out)
}

// Fills 24 bytes with the coefficients of pre-emphasis for a time constant tau in seconds at a rate: b0, b1, a1 with a0
// = 1, eight bytes each, the lowest first; their number, 3, as the count.
#[unsafe(no_mangle)]
pub extern "C" fn pel_preemphasis_coefs(tau: f64, rate: f64, out: &mut [u8]) -> Report
    ensures { Writes float_bytes (preemphasis_bytes tau rate (length out.old)) out.old result out.new }
{
    c_sections::section::pel_preemphasis_coefs(tau, rate, &mut *out)
}
