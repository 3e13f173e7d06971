// The curve of a window, and the steps to a window that are the same for all of a curve. They stand apart for a loop
// that works out the arguments of the next elements before the values of these.
ghost use Rattle.std.specs.Prelude.{◌≡◌};
ghost use Rattle.win_shapes.specs.Steps.{norm_of, place_at, argument_of};

use super::kaiser;
use math_bessel::Pair;
use math_numbers::PI;

// A sum of cosines, or Kaiser's curve with its beta.
#[derive(Clone, Copy)]
pub enum Curve {
    Cosines,
    Kaiser(f64),
}

// The Bessel series at beta, by which Kaiser's window is divided; 1 for the others.
pub fn norm(curve: Curve) -> f64
    ensures { result ≡ norm_of curve }
{
    match curve {
        Curve::Cosines => 1.0,
        Curve::Kaiser(beta) => {
            let s = math_bessel::bessel_i0(beta);
            s.sum
        }
    }
}

// The first step: the angle 2π p/d, or Kaiser's radicand.
pub fn place_at(curve: Curve, p: f64, d: f64) -> f64
    ensures { result ≡ place_at curve p d }
{
    match curve {
        Curve::Cosines => 2.0 * PI * p / d,
        Curve::Kaiser(_) => kaiser::radicand(p, d),
    }
}

// The second: what the cosines or the series are taken at.
pub fn argument_of(curve: Curve, place: f64) -> f64
    ensures { result ≡ argument_of curve place }
{
    match curve {
        Curve::Cosines => place,
        Curve::Kaiser(beta) => kaiser::argument(beta, place),
    }
}

// The same of two elements, where Kaiser's roots are worked out together.
pub fn arguments_of(curve: Curve, place: f64, other: f64) -> Pair
    ensures first { result.first ≡ argument_of curve place }
    ensures second { result.second ≡ argument_of curve other }
{
    match curve {
        Curve::Cosines => Pair {
            first: place,
            second: other,
        },
        Curve::Kaiser(beta) => kaiser::arguments(beta, place, other),
    }
}
