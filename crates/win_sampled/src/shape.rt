// The shape of a window, one sample or two at a time.
ghost use Rattle.std.specs.Prelude.{◌≡◌};
ghost use Rattle.win_shapes.specs.Steps.{argument_of};
ghost use Rattle.win_sampled.specs.Shapes.{shape_taken, norm_of, divisor_of, sample_at, series_settle, judgement_of};
ghost use Rattle.win_sampled.specs.SampleLaws.{curve_of, place_at, value_of, value_at};

use math_bessel::Pair;
use verdict::{Reason, Refusal};
use win_shapes::curve::Curve;
use win_shapes::{cosines, curve, kaiser};

// Kaiser's window carries its shape, beta.
#[derive(Clone, Copy)]
pub enum Shape {
    Hann,
    BlackmanHarris,
    Kaiser(f64),
}

// Periodic for spectral analysis, symmetric for filters.
#[derive(Clone, Copy)]
pub enum Symmetry {
    Periodic,
    Symmetric,
}

// Whether a window has this shape: beta must be finite and not negative.
fn takes_shape(shape: Shape) -> bool
    ensures { result ≡ shape_taken shape }
{
    match shape {
        Shape::Hann => true,
        Shape::BlackmanHarris => true,
        Shape::Kaiser(beta) => math_numbers::is_finite(beta) && beta >= 0.0,
    }
}

// The curve of a window: cosines, but for Kaiser's.
fn curve_of(shape: Shape) -> Curve
    ensures { result ≡ curve_of shape }
{
    match shape {
        Shape::Hann => Curve::Cosines,
        Shape::BlackmanHarris => Curve::Cosines,
        Shape::Kaiser(beta) => Curve::Kaiser(beta),
    }
}

// The Bessel series at beta, by which Kaiser's window is divided; 1 for the others.
pub fn norm(shape: Shape) -> f64
    ensures { result ≡ norm_of shape }
{
    curve::norm(curve_of(shape))
}

// What the place of a sample is divided by: n, or one less where the window is symmetric; 0 for none.
pub fn divisor(symmetry: Symmetry, n: u64) -> u64
    ensures { result ≡ divisor_of symmetry n }
{
    match symmetry {
        Symmetry::Periodic => n,
        Symmetry::Symmetric => { if n == 0 { 0 } else { n - 1 } }
    }
}

// Whether every series that n samples take has settled, for a divisor: Kaiser's at beta and at each sample.
fn series_settle(shape: Shape, divisor: u64, n: u64) -> bool
    ensures { result ≡ series_settle shape divisor n }
{
    match shape {
        Shape::Hann => true,
        Shape::BlackmanHarris => true,
        Shape::Kaiser(beta) => win_settling::settles(beta, divisor, n),
    }
}

// A window of n samples. Refused, in this order: 4 a beta that isn't finite and not negative, also for no samples; 16 a
// series at beta or at a sample that hasn't settled, where the divisor isn't 0.
pub fn judge(shape: Shape, symmetry: Symmetry, n: u64) -> Result<(), Refusal>
    ensures { result ≡ judgement_of shape symmetry n }
{
    if !takes_shape(shape) {
        return Err(Refusal::Plain(Reason::Attenuation));
    }
    if !series_settle(shape, divisor(symmetry, n), n) {
        return Err(Refusal::Plain(Reason::Unsettled));
    }
    Ok(())
}

// A sample takes three steps, for a loop that works out the arguments of the next samples before the values of these.
// The first has its place in it: the angle, or Kaiser's radicand, at sample i for a divisor.
pub fn place_at(shape: Shape, divisor: u64, i: u64) -> f64
    ensures { result ≡ place_at shape divisor i }
{
    let d = std::num::nearest_u64_to_f64(divisor);
    let p = std::num::nearest_u64_to_f64(i);
    curve::place_at(curve_of(shape), p, d)
}

// The second, of two samples: what the cosines or the series are taken at.
pub fn arguments_of(shape: Shape, place: f64, other: f64) -> Pair
    ensures first { result.first ≡ argument_of (curve_of shape) place }
    ensures second { result.second ≡ argument_of (curve_of shape) other }
{
    curve::arguments_of(curve_of(shape), place, other)
}

// A sample by that, where the divisor isn't 0; i0 is the series at beta.
fn value_of(shape: Shape, i0: f64, x: f64) -> f64
    ensures { result ≡ value_of shape i0 x }
{
    match shape {
        Shape::Hann => cosines::hann(x),
        Shape::BlackmanHarris => cosines::blackman_harris(x),
        Shape::Kaiser(_) => kaiser::value(i0, x),
    }
}

// Two such samples, where Kaiser's series are summed together.
fn values_of(shape: Shape, i0: f64, x: f64, y: f64) -> Pair
    ensures first { result.first ≡ value_of shape i0 x }
    ensures second { result.second ≡ value_of shape i0 y }
{
    match shape {
        Shape::Kaiser(_) => kaiser::values(i0, x, y),
        _ => Pair {
            first: value_of(shape, i0, x),
            second: value_of(shape, i0, y),
        },
    }
}

// The sample for a divisor, 1 where that is 0.
pub fn value_at(shape: Shape, i0: f64, divisor: u64, x: f64) -> f64
    ensures { result ≡ value_at shape i0 divisor x }
{
    if divisor == 0 {
        1.0
    } else {
        value_of(shape, i0, x)
    }
}

// Two samples for a divisor, 1 both where that is 0.
pub fn values_at(shape: Shape, i0: f64, divisor: u64, x: f64, y: f64) -> Pair
    ensures first { result.first ≡ value_at shape i0 divisor x }
    ensures second { result.second ≡ value_at shape i0 divisor y }
{
    if divisor == 0 {
        Pair {
            first: 1.0,
            second: 1.0,
        }
    } else {
        values_of(shape, i0, x, y)
    }
}

// Sample i for a divisor.
pub fn sample_at(shape: Shape, i0: f64, divisor: u64, i: u64) -> f64
    ensures { result ≡ sample_at shape i0 divisor i }
{
    value_at(
        shape,
        i0,
        divisor,
        curve::argument_of(curve_of(shape), place_at(shape, divisor, i)),
    )
}
