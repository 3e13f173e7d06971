// Kaiser's window in three steps: its radicand, what its series is taken at, and its value; two at a time where that is
// quicker.
ghost use Rattle.std.specs.Prelude.{◌≡◌};
ghost use Rattle.win_shapes.specs.Windows.{kaiser_radicand, kaiser_argument, kaiser_value};

use math_bessel::Pair;

// 1 − t² with t = 2 i/d − 1, where i is p; 0 where that is below 0.
pub fn radicand(p: f64, d: f64) -> f64
    ensures { result ≡ kaiser_radicand p d }
{
    let t = 2.0 * p / d - 1.0;
    let left = 1.0 - t * t;
    if left > 0.0 { left } else { 0.0 }
}

// beta √radicand: what the series is taken at.
pub fn argument(beta: f64, radicand: f64) -> f64
    ensures { result ≡ kaiser_argument beta radicand }
{
    beta * math_sqrt::sqrt::sqrt(radicand)
}

// The same for two of them, whose roots are worked out together.
pub fn arguments(beta: f64, radicand: f64, other: f64) -> Pair
    ensures first { result.first ≡ kaiser_argument beta radicand }
    ensures second { result.second ≡ kaiser_argument beta other }
{
    let roots = math_sqrt::pair::sqrt_pair(radicand, other);
    Pair {
        first: beta * roots.first,
        second: beta * roots.second,
    }
}

// I0(x) / i0: Kaiser's window, by what its series is taken at.
pub fn value(i0: f64, x: f64) -> f64
    ensures { result ≡ kaiser_value i0 x }
{
    let s = math_bessel::bessel_i0(x);
    s.sum / i0
}

// The same for two of them, whose series are summed together.
pub fn values(i0: f64, x: f64, y: f64) -> Pair
    ensures first { result.first ≡ kaiser_value i0 x }
    ensures second { result.second ≡ kaiser_value i0 y }
{
    let s = math_bessel::bessel_i0_pair(x, y);
    Pair {
        first: s.first / i0,
        second: s.second / i0,
    }
}
