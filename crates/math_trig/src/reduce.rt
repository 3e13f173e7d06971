// An argument split into quarter turns and what is left, and its sine and cosine by them.
ghost use Rattle.std.specs.Prelude.{◌≡◌, ◌<◌, false, MatchOption};
ghost use Rattle.std.specs.Float.Ieee.{le};
ghost use Rattle.math_round.specs.Whole.{abs_of};
ghost use Rattle.math_trig.specs.Trig.{limit, modulo4, sine_in, cosine_in};
ghost use Rattle.math_trig.specs.Laws.{At, Small, Split};
ghost use Rattle.laws.specs.Floor.{floor_z};

use super::series::{cosine_series, sine_series};
use math_numbers::PI;

// π/2 in four parts, each short enough that its product with the number of quarter turns loses little.
const P1: f64 = 26353589.0 / 16777216.0;

const P2: f64 = 4473553.0 / 281474976710656.0;

const P3: f64 = 8677769.0 / 4722366482869645213696.0;

const P4: f64 = 9225495.0 / 79228162514264337593543950336.0;

// 3 · 2^51, a multiple of 4 in the middle of the f64s whose last digit is worth 1.
const MIDDLE: f64 = 6755399441055744.0;

// k modulo 4, for a whole number k of a size up to 2^50. The sum is exact and lies between 2^52 and 2^53, so the last
// bit of its pattern is worth 1 and the last two are what it leaves when divided by 4, on either side of zero.
fn modulo_4(k: f64) -> u64
    requires { Small k }
    ensures { result ≡ modulo4 (floor_z k) }
{
    (k + MIDDLE).to_bits() % 4
}

// An argument's quarter turns, modulo 4, and the rest.
#[derive(Clone, Copy)]
pub(crate) struct Reduced {
    pub quadrant: u64,
    pub rest: f64,
    ghost of_four: { quadrant < 4 },
}

impl Reduced {
    // Of a size up to 2^25, limits included; none beyond, and at a NaN.
    pub(crate) fn of(x: f64) -> Option<Self>
        ensures { MatchOption result (le (abs_of x) limit ≡ false) (λ part. Split x part.quadrant part.rest) }
    {
        if math_round::fabs::fabs(x) <= 33554432.0 {
            let k = math_round::floor::floor_small(x * (2.0 / PI) + 0.5);
            Some(Reduced {
                quadrant: modulo_4(k),
                rest: x - k * P1 - k * P2 - k * P3 - k * P4,
            })
        } else {
            None
        }
    }

    // By the quadrant S, C, −S, −C.
    pub(crate) fn sine(self) -> f64
        ensures { result ≡ At sine_in self.quadrant self.rest }
    {
        let r = self.rest;
        match self.quadrant {
            0 => sine_series(r),
            1 => cosine_series(r),
            2 => -sine_series(r),
            _ => -cosine_series(r),
        }
    }

    // The sine a quarter turn on: C, −S, −C, S.
    pub(crate) fn cosine(self) -> f64
        ensures { result ≡ At cosine_in self.quadrant self.rest }
    {
        let on = Reduced {
            quadrant: (self.quadrant + 1) % 4,
            rest: self.rest,
        };
        on.sine()
    }
}
