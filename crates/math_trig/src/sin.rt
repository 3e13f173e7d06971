// The sine.
ghost use Rattle.std.specs.Prelude.{◌≡◌, true};
ghost use Rattle.std.specs.Float.Ieee.{neg};
ghost use Rattle.math_trig.specs.Trig.{sin_of};
ghost use Rattle.math_trig.specs.Opposite.{opposite_of};

use super::reduce::Reduced;

// sin(x) for sizes up to 2^25, limits included; NaN beyond, and at a NaN.
pub fn sin(x: f64) -> f64
    ensures { result ≡ sin_of x }
{
    match Reduced::of(x) {
        Some(part) => part.sine(),
        None => f64::NAN,
    }
}

// Whether the sine of y is seen to be that of x with the other sign: both leave the same of a quarter turn, but for its
// sign, and lie as many quarter turns to either side. It needs neither series, and where it says no, nothing is known.
pub fn is_opposite(x: f64, y: f64) -> bool
    ensures answer { result ≡ opposite_of x y }
    ensures if_true { result ≡ true → sin_of y ≡ neg (sin_of x) }
{
    let Some(a) = Reduced::of(x) else {
        return false;
    };
    let Some(b) = Reduced::of(y) else {
        return false;
    };
    (a.quadrant + b.quadrant) % 4 == 0 && math_numbers::is_same(b.rest, -a.rest)
}
