// Two square roots together.
ghost use Rattle.std.specs.Prelude.{◌≡◌};
ghost use Rattle.math_sqrt.specs.Sqrt.{sqrt_of};

use crate::sqrt::sqrt;

// The roots of two numbers.
#[derive(Clone, Copy)]
pub struct Roots {
    pub first: f64,
    pub second: f64,
}

// The square roots of x and y, each as `sqrt` gives it. Neither waits for the other.
pub fn sqrt_pair(x: f64, y: f64) -> Roots
    ensures first { result.first ≡ sqrt_of x }
    ensures second { result.second ≡ sqrt_of y }
{
    Roots {
        first: sqrt(x),
        second: sqrt(y),
    }
}
