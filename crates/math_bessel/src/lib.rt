// The modified Bessel function of order 0 by its power series, with the number of terms taken and whether it has
// settled.
#![tactic(auto)]

ghost use Rattle.std.specs.Prelude.{◌≡◌};
ghost use Rattle.std.specs.Float.Ieee.{lt};
ghost use Rattle.laws.specs.Binary64.{◌⊕◌, ◌⊗◌, whole};
ghost use Rattle.math_bessel.specs.Series.{least, series_at, series_of};
ghost use Rattle.math_bessel.specs.Laws.{Going, half_of, next_term, stopped_of};

// A sum, how many terms after the leading 1 it took, 1 to 500, and whether it has settled: its last term is below 1e-17
// of it, and it is finite. A flag beside the sum and no `Result`: both figures are told where it hasn't settled too.
#[derive(Clone, Copy)]
pub struct Series {
    pub sum: f64,
    pub terms: u64,
    pub settled: bool,
}

// The sums at two arguments.
#[derive(Clone, Copy)]
pub struct Pair {
    pub first: f64,
    pub second: f64,
}

// A series on its way: half its argument, the last term taken, and the sum up to it.
#[derive(Clone, Copy)]
struct Partial {
    half: f64,
    term: f64,
    sum: f64,
}

impl Partial {
    // The leading 1 alone. The half is a product, whose bits are those of the quotient: so no machine divides for it,
    // whatever its compiler does.
    fn new(x: f64) -> Self
        ensures { result ≡ record { half = half_of x; term = whole 1; sum = whole 1 } }
    {
        Partial {
            half: x * 0.5,
            term: 1.0,
            sum: 1.0,
        }
    }

    // Whether the last term ends the series.
    fn ends(self) -> bool
        ensures { result ≡ lt self.term (least ⊗ self.sum) }
    {
        self.term < 1e-17 * self.sum
    }

    // With one term more, whose number is d: kept as a float by the loops, since adding 1 to it is quicker than turning
    // a whole number into one.
    fn next(self, d: f64) -> Self
        ensures { let t = next_term self.half self.term d in result ≡ record { half = self.half; term = t; sum = self.sum ⊕ t } }
    {
        let f = self.half / d;
        let t = self.term * (f * f);
        Partial {
            half: self.half,
            term: t,
            sum: self.sum + t,
        }
    }

    // What it is when it stops after n terms.
    fn stopped(self, n: u64) -> Series
        ensures { result ≡ stopped_of self.term self.sum n }
    {
        Series {
            sum: self.sum,
            terms: n,
            settled: self.ends() && math_numbers::is_finite(self.sum),
        }
    }

    // The series from where it has k terms after the leading 1, of which none but the last may end it.
    fn rest(self, k: u64) -> Series
        requires { Going self.half self.term self.sum k }
        ensures { result ≡ series_at self.half }
    {
        let mut p = self;
        let mut d = (k + 1) as f64;
        for n in k..500 {
            if p.ends() {
                return p.stopped(n);
            }
            p = p.next(d);
            d = d + 1.0;
        }
        p.stopped(500)
    }
}

// I0(x) = 1 + Σ ((x/2)^k / k!)², each term from the one before. It stops after the first term below 1e-17 of the sum,
// or after 500, as it does for NaN and infinities, and tells whether it has settled. Example: I0(0) is 1, with one term,
// and settled.
pub fn bessel_i0(x: f64) -> Series
    ensures { result ≡ series_of x }
{
    Partial::new(x).rest(0)
}

// The sums at x and at y, term by term together as long as both go on: a processor divides two numbers in the time of
// one, and neither sum waits for the other.
pub fn bessel_i0_pair(x: f64, y: f64) -> Pair
    ensures first { result.first ≡ (series_of x).sum }
    ensures second { result.second ≡ (series_of y).sum }
{
    let mut p = Partial::new(x);
    let mut q = Partial::new(y);
    let mut d = 1.0;
    for k in 0..500 {
        if p.ends() | q.ends() {
            return Pair {
                first: p.rest(k).sum,
                second: q.rest(k).sum,
            };
        }
        p = p.next(d);
        q = q.next(d);
        d = d + 1.0;
    }
    Pair {
        first: p.sum,
        second: q.sum,
    }
}
