// The record of a low-pass that the caller keeps from one turn to the next.
ghost use Rattle.std.specs.Prelude.{◌≡◌};
ghost use Rattle.c_retune.specs.Designs.{design_as, read_of};

use fir_lowpass::lowpass::Lowpass;
use ticket_codes::{code_of, shape_of, window_of};
use verdict::{Reason, Refusal};

// How many taps, the cutoff as a fraction of the rate, the window by its code, its beta (0 where it has none), the
// value that the window is divided by (the series at beta, or 1), and the sum that the taps are divided by.
#[repr(C)]
#[derive(Clone, Copy)]
pub struct Design {
    pub taps: u64,
    pub fraction: f64,
    pub window: u64,
    pub beta: f64,
    pub series: f64,
    pub sum: f64,
}

// The record of a low-pass.
pub(crate) fn design_of(lp: Lowpass) -> Design
    ensures { result ≡ design_as lp }
{
    let w = lp.window;
    Design {
        taps: lp.n,
        fraction: lp.fc,
        window: code_of(w),
        beta: shape_of(w),
        series: lp.i0,
        sum: lp.sum,
    }
}

// The low-pass of a record, for a buffer of `len` bytes. Refused, in this order: 7 a code that no window has; 8 a
// length that isn't a multiple of 8, in bytes; 8 a buffer for another number of taps, in taps.
pub(crate) fn read(kept: Design, len: u64) -> Result<Lowpass, Refusal>
    ensures { result ≡ read_of kept len }
{
    let coded = window_of(kept.window, kept.beta);
    match coded {
        Some(w) => {
            if len % 8 != 0 {
                return Err(Refusal::Length(len - len % 8, len));
            }
            if kept.taps != len / 8 {
                return Err(Refusal::Length(kept.taps, len / 8));
            }
            Ok(Lowpass {
                n: kept.taps,
                fc: kept.fraction,
                window: w,
                i0: kept.series,
                sum: kept.sum,
            })
        }
        None => Err(Refusal::Plain(Reason::Code)),
    }
}
