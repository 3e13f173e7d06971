// A design of any kind as the bytes of a buffer, and what is told of it. One function serves every kind, and a quicker
// loop the raw taps that were kept.
#![tactic(auto)]

ghost use Rattle.std.specs.Prelude.{◌≡◌, ◌*◌, ◌/◌, ◌≤◌, length};
ghost use Rattle.laws.specs.Chunks.{chunked};
ghost use Rattle.wire.specs.Bytes.{float_bytes};
ghost use Rattle.wire.specs.Writes.{Writes};
ghost use Rattle.fir_design.specs.Designs.{outcome_of};
ghost use Rattle.ticket_taps.specs.Fits.{Fits};

use fir_design::Design;
use verdict::{Refusal, Report};

// Puts the taps that are raw taps over the divisor in their places, the first ones, as many as fit, and tells how many.
// A loop of its own, since a division is all that each needs.
fn put_quotients<D: Design>(design: D, raws: &[f64], out: &mut [u8]) -> usize
    ensures within { 8 * result ≤ length out.old }
    ensures taps { D.keeps design raws.now → out.new ≡ chunked 8 result (λ k. float_bytes (D.tap design k)) out.old }
{
    let m = design.quotients(raws).min(out.len() / 8);
    let divisor = design.divisor();
    for i in 0..m {
        wire::put_f64(&mut *out, 8 * i, raws[i] / divisor);
    }
    m
}

// Fills the buffer: the eight bytes of tap i at 8 i, as far as they fit wholly. There is no heap, so each tap goes
// straight to its place.
pub fn put_taps<D: Design>(design: D, raws: &[f64], out: &mut [u8])
    ensures { D.keeps design raws.now → out.new ≡ chunked 8 (length out.old / 8) (λ i. float_bytes (D.tap design i)) out.old }
{
    let first = put_quotients(design, raws, &mut *out);
    for i in first..out.len() / 8 {
        let x = design.cached_tap(raws, i as u64);
        wire::put_f64(&mut *out, 8 * i, x);
    }
}

// Writes the taps of a design, in a buffer that they fit, and tells their number and their divisor; tells a refusal, and
// leaves the buffer.
pub fn write<D: Design>(designed: Result<D, Refusal>, raws: &[f64], out: &mut [u8]) -> Report
    ensures { Fits D.keeps (outcome_of D.count D.divisor D.tap) designed raws.now (length out.old) → Writes float_bytes (outcome_of D.count D.divisor D.tap designed) out.old result out.new }
{
    match designed {
        Ok(design) => {
            put_taps(design, raws, &mut *out);
            Report::accepted(design.count(), design.divisor())
        }
        Err(why) => Report::from(why),
    }
}
