// What a design is of whichever kind: how many taps, what they are divided by last, and each of them; and what is done
// alike with every kind.
#![tactic(auto)]

ghost use Rattle.std.specs.Prelude.{◌≡◌, ℕ, ◌<◌, ◌≤◌, List, length, get_or, Float};
ghost use Rattle.std.specs.Float.{nan};
ghost use Rattle.laws.specs.Binary64.{◌⊘◌};
ghost use Rattle.verdict.specs.Outcome.{judged_of};
ghost use Rattle.verdict.specs.Reports.{outcome_report};
ghost use Rattle.fir_design.specs.Designs.{fitted_of, outcome_of};

use math_numbers::TAP_LIMIT;
use verdict::{Judged, Refusal, Report};

// A kind of design.
pub trait Design: Copy {
    // How many taps.
    ghost count: { Self → ℕ };

    // What they are divided by last; in its place a root-raised cosine has its factor.
    ghost divisor: { Self → Float };

    // Tap i.
    ghost tap: { Self → ℕ → Float };

    // A list keeps the raw taps that the taps are worked out from, the first ones, as many as it has places.
    ghost keeps: { Self → List Float → Type 0 };

    fn count(self) -> u64
        ensures { result ≡ count self };

    fn divisor(self) -> f64
        ensures { result ≡ divisor self };

    fn tap(self, i: u64) -> f64
        ensures { result ≡ tap self i };

    // How many of the first taps are what the list keeps over the divisor, so that a division is all that each needs.
    fn quotients(self, raws: &[f64]) -> usize
        ensures within { result ≤ length raws.now }
        ensures taps { keeps self raws.now → (i : ℕ) → i < result → get_or raws.now i nan ⊘ divisor self ≡ tap self i }
    {
        0
    }

    // Tap i from a list that keeps the first raw taps.
    fn cached_tap(self, raws: &[f64], i: u64) -> f64
        ensures { keeps self raws.now → result ≡ tap self i }
    {
        let k = i as usize;
        if k < self.quotients(raws) {
            raws[k] / self.divisor()
        } else {
            self.tap(i)
        }
    }
}

// How many of the first n raw taps a list keeps; none of more than a design has.
pub fn kept(n: u64, raws: &[f64]) -> usize
    ensures within { result ≤ length raws.now }
    ensures taps { result ≤ n }
    ensures few { 0 < result → n ≤ 16777216 }
{
    let most = if n > TAP_LIMIT { 0 } else { n };
    (most as usize).min(raws.len())
}

// The design for a buffer of `len` elements: refused as it is, then 8 where the taps are not `len`.
pub fn fitted<D: Design>(designed: Result<D, Refusal>, len: u64) -> Result<D, Refusal>
    ensures { result ≡ fitted_of D.count designed len }
{
    let d = designed?;
    let n = d.count();
    if n != len {
        return Err(Refusal::Length(n, len));
    }
    Ok(d)
}

// What is judged of a design without its buffer.
pub fn judged<D: Design>(designed: Result<D, Refusal>) -> Result<Judged, Refusal>
    ensures { result ≡ judged_of (outcome_of D.count D.divisor D.tap designed) }
{
    let d = designed?;
    Ok(Judged {
        taps: d.count(),
        divisor: d.divisor(),
    })
}

// What is told of a design without its buffer.
pub fn told<D: Design>(designed: Result<D, Refusal>) -> Report
    ensures { result ≡ outcome_report (outcome_of D.count D.divisor D.tap designed) }
{
    Report::from(judged(designed))
}
