// Sections and pre-emphasis: demand 1 of each. Butterworth filters of even order are kept besides.
ghost use Rattle.std.specs.Prelude.{length};
ghost use Rattle.wire.specs.Bytes.{float_bytes};
ghost use Rattle.c_sections.specs.Codes.{response_of};
ghost use Rattle.c_sections.specs.Numbers.{biquad_bytes, preemphasis_bytes, butterworth_bytes};
ghost use Rattle.c_sections.specs.EvenOrders.{KeepsEven};
ghost use Rattle.promise_refusals.specs.Demand.{FilledOrKept};

use verdict::Report;

pub fn biquad_coefs(response: u64, centre: f64, q: f64, rate: f64, out: &mut [u8]) -> Report
    ensures { FilledOrKept float_bytes (biquad_bytes (response_of response) centre q rate (length out.old)) out.old result out.new }
{
    c_sections::section::pel_biquad_coefs(response, centre, q, rate, &mut *out)
}

pub fn butterworth_sos(response: u64, order: u64, cutoff: f64, rate: f64, out: &mut [u8]) -> Report
    ensures filled_or_kept { FilledOrKept float_bytes (butterworth_bytes (response_of response) order cutoff rate (length out.old)) out.old result out.new }
    ensures keeps_even { KeepsEven (response_of response) order cutoff rate out.old result out.new }
{
    c_sections::cascade::pel_butterworth_sos(response, order, cutoff, rate, &mut *out)
}

pub fn preemphasis_coefs(tau: f64, rate: f64, out: &mut [u8]) -> Report
    ensures { FilledOrKept float_bytes (preemphasis_bytes tau rate (length out.old)) out.old result out.new }
{
    c_sections::section::pel_preemphasis_coefs(tau, rate, &mut *out)
}
