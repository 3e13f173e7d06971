// A low-pass's taps in a buffer that it fits, with its record and the report of it; a refusal told, with the record as
// it came.
ghost use Rattle.std.specs.Prelude.{◌≡◌, length};
ghost use Rattle.fir_lowpass.specs.Cached.{Caches};
ghost use Rattle.fir_lowpass.specs.Lowpass.{outcome_of};
ghost use Rattle.ticket_taps.specs.Fits.{Fits};
ghost use Rattle.c_retune.specs.Designs.{left_of, Tunes};

use super::record::{Design, design_of};
use fir_lowpass::lowpass::Lowpass;
use ticket_taps::write;
use verdict::{Refusal, Report};

// What an export answers: the record to keep from now on, and the report.
#[repr(C)]
#[derive(Clone, Copy)]
pub struct Tuned {
    pub design: Design,
    pub report: Report,
}

// A refusal, with the record as it came.
pub(crate) fn left(kept: Design, why: Refusal) -> Tuned
    ensures { result ≡ left_of kept why }
{
    Tuned {
        design: kept,
        report: Report::from(why),
    }
}

// Writes the taps of a low-pass that the buffer fits, and tells its record, their number and their divisor; tells a
// refusal, and leaves the record and the buffer.
pub(crate) fn written(
    kept: Design,
    designed: Result<Lowpass, Refusal>,
    raws: &[f64],
    out: &mut [u8],
) -> Tuned
    requires { Fits Caches outcome_of designed raws.now (length out.old) }
    ensures { Tunes kept designed out.old result out.new }
{
    let design = match designed {
        Ok(lp) => design_of(lp),
        Err(_) => kept,
    };
    Tuned {
        design,
        report: write(designed, raws, &mut *out),
    }
}
