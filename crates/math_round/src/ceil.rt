// The least whole number that is not below x.
ghost use Rattle.std.specs.Prelude.{◌≡◌};
ghost use Rattle.math_round.specs.Whole.{ceil_of};

// The floor from the other side of zero: std's `ceil` takes 1.5 of its time.
pub fn ceil(x: f64) -> f64
    ensures { result ≡ ceil_of x }
{
    -crate::floor::floor(-x)
}
