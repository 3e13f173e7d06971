// The cosine.
ghost use Rattle.std.specs.Prelude.{◌≡◌};
ghost use Rattle.math_trig.specs.Trig.{cos_of};

use super::reduce::Reduced;

// cos(x) for sizes up to 2^25, limits included; NaN beyond, and at a NaN.
pub fn cos(x: f64) -> f64
    ensures { result ≡ cos_of x }
{
    match Reduced::of(x) {
        Some(part) => part.cosine(),
        None => f64::NAN,
    }
}
