// A low-pass with the record to keep, and the two turns of its knob, as exports; each fills the buffer with the taps.
ghost use Rattle.std.specs.Prelude.{length};
ghost use Rattle.c_retune.specs.Designs.{none, lowpass_for, cutoff_for, beta_for, Tunes};

use super::record::{Design, read};
use super::write::{Tuned, left, written};
use fir_cache::CACHED;
use fir_retune::{prepare_beta, prepare_cutoff};
use ticket_codes::window_of;
use verdict::{Reason, Refusal};

// Fills the buffer with the taps of a low-pass, eight bytes each, the lowest first, as many as it has room for, and
// gives the record to keep with it; windows, report and refusals are those of pel_lowpass. A refusal leaves the buffer
// as it came, and its record is all zeros, which no design has. Example: (0.25, 1, 0, 0) and 8 bytes write 1.0.
pub fn pel_design_lowpass(cutoff: f64, rate: f64, window: u64, beta: f64, out: &mut [u8]) -> Tuned
    ensures { Tunes none (lowpass_for cutoff rate window beta (length out.old)) out.old result out.new }
{
    let kept = Design {
        taps: 0,
        fraction: 0.0,
        window: 0,
        beta: 0.0,
        series: 0.0,
        sum: 0.0,
    };
    let coded = window_of(window, beta);
    match coded {
        Some(w) => {
            let len = out.len() as u64;
            if len % 8 != 0 {
                return left(kept, Refusal::Length(len - len % 8, len));
            }
            let mut raws = [0.0f64; CACHED];
            let designed = fir_lowpass::lowpass::prepare(cutoff, rate, w, len / 8, &mut raws);
            written(kept, designed, &raws, &mut *out)
        }
        None => left(kept, Refusal::Plain(Reason::Code)),
    }
}

// Turns the knob to a new cutoff, given with its rate: the taps in the buffer, and the record to keep from now on. The
// series at beta is the one that the record keeps. Refused, in this order: 7 a record whose window has no code; 8 a
// length that isn't a multiple of 8, with the length to the last whole tap and the length, in bytes; 8 a buffer for
// another number of taps than the record has, with both numbers of taps; then as pel_lowpass: 1, 2, 6, 4, 16, 10. A
// refusal leaves the record and the buffer as they came.
pub fn pel_design_new_cutoff(design: Design, cutoff: f64, rate: f64, out: &mut [u8]) -> Tuned
    ensures { Tunes design (cutoff_for design cutoff rate (length out.old)) out.old result out.new }
{
    let known = read(design, out.len() as u64);
    match known {
        Ok(lp) => {
            let mut raws = [0.0f64; CACHED];
            let designed = prepare_cutoff(lp, cutoff, rate, &mut raws);
            written(design, designed, &raws, &mut *out)
        }
        Err(why) => left(design, why),
    }
}

// Turns the knob to a new beta: the taps in the buffer, and the record to keep from now on.
// Refused, in this order: 7 a window other than Kaiser's, before anything else; 8 and 8 as pel_design_new_cutoff; then
// as pel_lowpass with the cutoff that the record keeps: 2, 6, 4, 16, 10, of which 2 and 6 come only of a record that no
// design gave. A refusal leaves the record and the buffer as they came.
pub fn pel_design_new_beta(design: Design, beta: f64, out: &mut [u8]) -> Tuned
    ensures { Tunes design (beta_for design beta (length out.old)) out.old result out.new }
{
    if design.window != 3 {
        return left(design, Refusal::Plain(Reason::Code));
    }
    let known = read(design, out.len() as u64);
    match known {
        Ok(lp) => {
            let mut raws = [0.0f64; CACHED];
            let designed = prepare_beta(lp, beta, &mut raws);
            written(design, designed, &raws, &mut *out)
        }
        Err(why) => left(design, why),
    }
}
