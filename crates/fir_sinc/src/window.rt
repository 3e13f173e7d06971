// The windows of a windowed-sinc design, symmetric: one of five, its curve, and its value at a tap.
ghost use Rattle.std.specs.Prelude.{◌≡◌, ◌+◌, ◌^◌, ◌<◌, ◌≤◌};
ghost use Rattle.win_shapes.specs.Steps.{argument_of};
ghost use Rattle.fir_sinc.specs.Windows.{window_at, norm_of};
ghost use Rattle.fir_sinc.specs.StepLaws.{curve_of, place_at, value_of, value_at};

use math_bessel::Pair;
use win_shapes::cosines::Cosines;
use win_shapes::curve::Curve;
use win_shapes::{cosines, curve, kaiser};

// Kaiser's window carries its shape, beta; a loaded one its numbers.
#[derive(Clone, Copy)]
pub enum Window {
    Hann,
    Hamming,
    Blackman,
    Kaiser(f64),
    Cosines(Cosines),
}

// The curve of a window: cosines, but for Kaiser's.
pub(crate) fn curve_of(w: Window) -> Curve
    ensures { result ≡ curve_of w }
{
    match w {
        Window::Hann => Curve::Cosines,
        Window::Hamming => Curve::Cosines,
        Window::Blackman => Curve::Cosines,
        Window::Kaiser(beta) => Curve::Kaiser(beta),
        Window::Cosines(_) => Curve::Cosines,
    }
}

// The Bessel series at beta, by which Kaiser's window is divided; 1 for the others.
pub fn norm(w: Window) -> f64
    ensures { result ≡ norm_of w }
{
    curve::norm(curve_of(w))
}

// The window at tap i takes three steps, for a loop that works out the arguments of the next taps before the values of
// these. The first has its place in it: the angle, or Kaiser's radicand, at tap i of n.
pub(crate) fn place_at(w: Window, n: u64, i: u64) -> f64
    requires n_low { 0 < n }
    requires n_high { n ≤ 2 ^ 24 }
    requires i_high { i ≤ n + 3 }
    ensures { result ≡ place_at w n i }
{
    curve::place_at(curve_of(w), i as f64, (n - 1) as f64)
}

// The second, of two taps: what the cosines or the series are taken at.
pub(crate) fn arguments_of(w: Window, place: f64, other: f64) -> Pair
    ensures first { result.first ≡ argument_of (curve_of w) place }
    ensures second { result.second ≡ argument_of (curve_of w) other }
{
    curve::arguments_of(curve_of(w), place, other)
}

// The window by that, where there are more taps than one; i0 is the series at beta.
fn value_of(w: Window, i0: f64, x: f64) -> f64
    ensures { result ≡ value_of w i0 x }
{
    match w {
        Window::Hann => cosines::hann(x),
        Window::Hamming => cosines::hamming(x),
        Window::Blackman => cosines::blackman(x),
        Window::Kaiser(_) => kaiser::value(i0, x),
        Window::Cosines(c) => cosines::sum_of(c, x),
    }
}

// The windows of two such taps, each arm written out: the loop over the taps is quickest so.
pub(crate) fn values_of(w: Window, i0: f64, x: f64, y: f64) -> Pair
    ensures first { result.first ≡ value_of w i0 x }
    ensures second { result.second ≡ value_of w i0 y }
{
    match w {
        Window::Hann => Pair {
            first: cosines::hann(x),
            second: cosines::hann(y),
        },
        Window::Hamming => Pair {
            first: cosines::hamming(x),
            second: cosines::hamming(y),
        },
        Window::Blackman => Pair {
            first: cosines::blackman(x),
            second: cosines::blackman(y),
        },
        Window::Kaiser(_) => kaiser::values(i0, x, y),
        Window::Cosines(c) => Pair {
            first: cosines::sum_of(c, x),
            second: cosines::sum_of(c, y),
        },
    }
}

// The window of n taps, 1 where there is only one.
pub(crate) fn value_at(w: Window, i0: f64, n: u64, x: f64) -> f64
    ensures { result ≡ value_at w i0 n x }
{
    if n == 1 { 1.0 } else { value_of(w, i0, x) }
}

// The window at tap i of n: the three steps.
pub(crate) fn window_at(w: Window, i0: f64, n: u64, i: u64) -> f64
    requires n_high { n ≤ 2 ^ 24 }
    requires i_high { i < n }
    ensures { result ≡ window_at w i0 n i }
{
    value_at(w, i0, n, curve::argument_of(curve_of(w), place_at(w, n, i)))
}
