// A lock maker's own window: one to five numbers of a sum of cosines, checked once, when they are loaded. No public
// function has a `requires`.
#![tactic(auto)]

ghost use Rattle.std.specs.Prelude.{◌≡◌, List, length, slice_index_or, Float, Err};
ghost use Rattle.std.specs.Float.Ieee.{neg};
ghost use Rattle.laws.specs.Binary64.{whole};
ghost use Rattle.verdict.specs.declared.Refusal.TheVariants.{Range};
ghost use Rattle.win_cosines.specs.Load.{cosines_of, numbers_taken, load_of};
ghost use Rattle.win_cosines.specs.Load.{five_in};
ghost use Rattle.verdict.specs.declared.Reason.TheVariants as Reason;

use math_unity::{is_within, sums_to_one};
use verdict::{Reason, Refusal};
use win_shapes::cosines::Cosines;

// A count that isn't taken.
fn miscounted(count: u64) -> Result<Cosines, Refusal>
    ensures { result ≡ Err (Range Reason.CoefficientCount (whole 1) (whole 5) (whole count)) }
{
    let given = std::num::nearest_u64_to_f64(count);
    Err(Refusal::Range(Reason::CoefficientCount, 1.0, 5.0, given))
}

// A number that isn't taken.
fn outside(x: f64) -> Result<(), Refusal>
    ensures { result ≡ Err (Range Reason.Coefficient (neg (whole 1)) (whole 1) x) }
{
    Err(Refusal::Range(Reason::Coefficient, -1.0, 1.0, x))
}

// Whether every number of a window is finite and of size 1 at most; those not given, which are 0, are.
fn judge(c: Cosines) -> Result<(), Refusal>
    ensures { result ≡ numbers_taken (five_in c) }
{
    if !is_within(c.c0) {
        return outside(c.c0);
    }
    if !is_within(c.c1) {
        return outside(c.c1);
    }
    if !is_within(c.c2) {
        return outside(c.c2);
    }
    if !is_within(c.c3) {
        return outside(c.c3);
    }
    if !is_within(c.c4) {
        return outside(c.c4);
    }
    Ok(())
}

// What comes of loading `count` numbers, c being the window of them. Refused, in this order: 17 with 1, 5, count where
// there aren't 1 to 5; 18 with −1, 1 and the first number that isn't finite or whose size is above 1; 19 an exact sum
// that is further than 2^-40 from 1.
pub fn loaded(count: u64, c: Cosines) -> Result<Cosines, Refusal>
    ensures { (cs : List Float) → length cs ≡ count → cosines_of cs ≡ c → result ≡ load_of cs }
{
    if count < 1 {
        return miscounted(count);
    }
    if count > 5 {
        return miscounted(count);
    }
    judge(c)?;
    if sums_to_one(c.c0, c.c1, c.c2, c.c3, c.c4) {
        Ok(c)
    } else {
        Err(Refusal::Plain(Reason::CoefficientSum))
    }
}

// Number i of a list, 0 where it isn't given.
fn number_at(numbers: &[f64], i: usize) -> f64
    ensures { result ≡ slice_index_or numbers.now i (whole 0) }
{
    if i < numbers.len() { numbers[i] } else { 0.0 }
}

// Loads a window of one to five numbers; refused as `loaded`.
pub fn load(numbers: &[f64]) -> Result<Cosines, Refusal>
    ensures { result ≡ load_of numbers.now }
{
    loaded(
        numbers.len() as u64,
        Cosines {
            c0: number_at(numbers, 0),
            c1: number_at(numbers, 1),
            c2: number_at(numbers, 2),
            c3: number_at(numbers, 3),
            c4: number_at(numbers, 4),
        },
    )
}
