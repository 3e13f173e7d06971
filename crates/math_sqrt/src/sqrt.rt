// The square root.
ghost use Rattle.std.specs.Prelude.{◌≡◌};
ghost use Rattle.math_sqrt.specs.Sqrt.{sqrt_of};

// The square root of x, rounded once: the f64 nearest to it. That of a zero or of +infinity is itself, and that of
// anything else below 0, or of a NaN, is a NaN: told apart first, since C sees its pattern, and the instruction's has a
// sign.
pub fn sqrt(x: f64) -> f64
    ensures { result ≡ sqrt_of x }
{
    if x >= 0.0 { x.sqrt() } else { 0.0 / 0.0 }
}
