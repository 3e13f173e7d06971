// Whether the Bessel series that a Kaiser window takes have settled: asked before the first element is written, since a
// window can't be divided by a sum that overflowed. No public function has a `requires`.
#![tactic(auto)]

ghost use Rattle.std.specs.Prelude.{◌≡◌};
ghost use Rattle.laws.specs.Every.{every};
ghost use Rattle.win_settling.specs.Settling.{element_settles, kaiser_settles};

use win_shapes::kaiser;

// Up to this beta every series settles, whichever the length: proved, so that an ordinary design takes none to know it.
const SETTLED_TO: f64 = 713.0;

// Whether the series at element i for the divisor d has settled.
fn element_settles(beta: f64, d: u64, i: u64) -> bool
    ensures { result ≡ element_settles beta d i }
{
    let p = std::num::nearest_u64_to_f64(i);
    let q = std::num::nearest_u64_to_f64(d);
    let series = math_bessel::bessel_i0(kaiser::argument(beta, kaiser::radicand(p, q)));
    series.settled
}

// Whether that at each of n elements has.
fn elements_settle(beta: f64, d: u64, n: u64) -> bool
    ensures { result ≡ every n (element_settles beta d) }
{
    (0..n).all(|i| element_settles(beta, d, i))
}

// Whether every series that a Kaiser window of n elements takes has settled: at beta and at each element, where the
// length divisor is d. Where d is 0, as for one tap or an empty window, none is taken. Example: beta 713 settles at
// every length, 714 at none but those.
pub fn settles(beta: f64, d: u64, n: u64) -> bool
    ensures { result ≡ kaiser_settles beta d n }
{
    if d == 0 {
        return true;
    }
    if 0.0 <= beta && beta <= SETTLED_TO {
        return true;
    }
    let series = math_bessel::bessel_i0(beta);
    if !series.settled {
        return false;
    }
    elements_settle(beta, d, n)
}
