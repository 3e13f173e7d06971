// The number of taps of a Kaiser design.
ghost use Rattle.std.specs.Prelude.{◌≡◌, ◌+◌, ◌%◌};
ghost use Rattle.std.specs.Float.Ieee.{to_unsigned};
ghost use Rattle.math_round.specs.Whole.{ceil_of};
ghost use Rattle.fir_length.specs.Kaiser.{estimate, odd_up, order_of, halfband_len_of};

use super::beta::kaiser_beta;
use math_numbers::PI;
use verdict::{Reason, Refusal};

// How many taps a Kaiser design has, and the beta of its window.
#[derive(Clone, Copy)]
pub struct Order {
    pub taps: u64,
    pub beta: f64,
}

// The estimate (a − 7.95) / 2.285 / (π width) + 1.
pub fn taps_estimate(a: f64, width: f64) -> f64
    ensures { result ≡ estimate a width }
{
    (a - 7.95) / 2.285 / (PI * width) + 1.0
}

// A number as a count of taps: rounded up, and one more where that is even.
fn odd_taps(num: f64) -> u64
    ensures { result ≡ odd_up (to_unsigned 64 (ceil_of num)) }
{
    let n = math_numbers::to_count(math_round::ceil::ceil(num));
    if n % 2 == 0 { n + 1 } else { n }
}

// Taps and beta for a ripple in dB and a transition at a rate, width = 2 transition / rate: n = ceil((A − 7.95) / 2.285
// / (π width) + 1), made odd, and beta for A, the size of the ripple.
// Refused: 4 where A is not finite or below 8; 3 where the width is not finite and positive; 3 with 0, rate, transition
// where the estimate is above 2^24. So 16777217 taps can be answered, and two negative signs are taken. Example: (60,
// −100, −8000) has 293 taps.
pub fn kaiserord(ripple: f64, transition: f64, rate: f64) -> Result<Order, Refusal>
    ensures { result ≡ order_of ripple transition rate }
{
    let a = math_round::fabs::fabs(ripple);
    if !math_numbers::is_finite(a) {
        return Err(Refusal::Plain(Reason::Attenuation));
    }
    if a < 8.0 {
        return Err(Refusal::Plain(Reason::Attenuation));
    }
    let width = 2.0 * transition / rate;
    if !math_numbers::is_positive(width) {
        return Err(Refusal::Plain(Reason::Transition));
    }
    let num = taps_estimate(a, width);
    if num > 16777216.0 {
        return Err(Refusal::Range(Reason::Transition, 0.0, rate, transition));
    }
    Ok(Order {
        taps: odd_taps(num),
        beta: kaiser_beta(a),
    })
}

// The taps of a half-band filter: kaiserord's, and two more where that leaves 1 mod 4. The arguments stand in the order
// of the Rust. Refused as kaiserord. Example: (−100, 60, −8000) has 295 taps.
pub fn halfband_len(transition: f64, attenuation: f64, rate: f64) -> Result<u64, Refusal>
    ensures { result ≡ halfband_len_of transition attenuation rate }
{
    let order = kaiserord(attenuation, transition, rate)?;
    let n = order.taps;
    Ok(if n % 4 == 1 { n + 2 } else { n })
}
