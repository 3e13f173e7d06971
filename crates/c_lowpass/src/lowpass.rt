// The windowed-sinc low-pass, as exports: the design judged, and its taps in a buffer.
ghost use Rattle.std.specs.Prelude.{◌≡◌, length};
ghost use Rattle.ticket_codes.specs.Codes.{window_of};
ghost use Rattle.fir_lowpass.specs.Lowpass.{outcome_of};
ghost use Rattle.verdict.specs.Reports.{outcome_report};
ghost use Rattle.wire.specs.Bytes.{float_bytes};
ghost use Rattle.wire.specs.Writes.{Writes};
ghost use Rattle.c_lowpass.specs.Lowpass.{lowpass_coded, lowpass_bytes};

use fir_cache::CACHED;
use fir_design::told;
use fir_lowpass::lowpass::Lowpass;
use ticket_bytes::lowpasses::put_lowpass;
use ticket_codes::window_of;
use verdict::{Reason, Refusal, Report};

// Judges a design and gives its number of taps as the count and the sum that they are divided by as the value. Windows:
// 0 Hann, 1 Hamming, 2 Blackman, 3 Kaiser with beta, which the others leave out.
// Refused, in this order: 7 another window; 1 a rate that isn't finite and positive; 2 with 0, rate/2, cutoff where
// cutoff/rate isn't between 0 and 1/2; 6 no taps or more than 2^24; 4 a beta that isn't finite and not negative; 16 a
// series that hasn't settled, as at a beta above about 714, where there are more taps than one; 10 a sum that is 0 or
// not finite. Example: (0.25, 1, 0, 0, 1) has the sum 0.5.
pub fn pel_lowpass_new(cutoff: f64, rate: f64, window: u64, beta: f64, taps: u64) -> Report
    ensures { result ≡ outcome_report (outcome_of (lowpass_coded cutoff rate (window_of window beta) taps)) }
{
    let coded = window_of(window, beta);
    match coded {
        Some(w) => told(Lowpass::new(cutoff, rate, w, taps)),
        None => Report::from(Refusal::Plain(Reason::Code)),
    }
}

// Fills the buffer with the taps of a design, eight bytes each, the lowest first, as many as it has room for; answers
// as pel_lowpass_new. Refused as that, and after 7 a length that isn't a multiple of 8: 8, with the length to the last
// whole tap and the length, in bytes. A refusal leaves the buffer as it came. Example: (0.25, 1, 0, 0) and 8 bytes
// write 1.0.
pub fn pel_lowpass(cutoff: f64, rate: f64, window: u64, beta: f64, out: &mut [u8]) -> Report
    ensures { Writes float_bytes (lowpass_bytes cutoff rate (window_of window beta) (length out.old)) out.old result out.new }
{
    let coded = window_of(window, beta);
    match coded {
        Some(w) => {
            let mut raws = [0.0f64; CACHED];
            put_lowpass(cutoff, rate, w, &mut raws, &mut *out)
        }
        None => Report::from(Refusal::Plain(Reason::Code)),
    }
}
