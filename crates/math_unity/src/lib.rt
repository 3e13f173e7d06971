// Whether five numbers sum to 1, within 2^-40 and exactly: no sum of f64s tells it. No public function has a
// `requires`.
#![tactic(auto)]

ghost use Rattle.std.specs.Prelude.{◌≡◌, ◌+◌, ◌-◌, ◌*◌, ◌≤◌, min, true, ◌&&◌, Float};
ghost use Rattle.std.specs.Float.{binary64};
ghost use Rattle.laws.specs.SumError.{sum_of};
ghost use Rattle.math_unity.specs.Unity.{within, all_within, near_one, five};
ghost use Rattle.math_unity.specs.Cut.{Size, Rest, digit_of, rest_of};
ghost use Rattle.math_unity.specs.Run.{All, each_of};
ghost use Rattle.math_unity.specs.Digits.{pos_of, neg_of, run};
ghost use Rattle.math_unity.specs.Parts.{Held};
ghost use Rattle.math_unity.specs.Props.{rests_prop};

// 1 after the first digit, of which 2^-40 is 1024.
const ONE: u64 = 1125899906842624;

// A digit of a number, 50 bits of it, and the rest.
#[derive(Clone, Copy)]
struct Piece {
    digit: u64,
    rest: f64,
}

// What is left of the sizes of the numbers above 0 and of those below it, and what was counted of each.
#[derive(Clone, Copy)]
struct Sides {
    p: [f64; 5],
    n: [f64; 5],
    a: u64,
    b: u64,
    ghost of_p: { All (Rest binary64) p } by { rests_prop p },
    ghost of_n: { All (Rest binary64) n } by { rests_prop n },
}

// One digit of a size of 1 at most: x times 2^50, its whole part, and what is left, each exact.
fn cut(x: f64) -> Piece
    requires { Size binary64 x }
    ensures digit { result.digit ≡ digit_of x }
    ensures rest { result.rest ≡ rest_of x }
    ensures digit_high { result.digit ≤ 1125899906842624 }
{
    let y = x * 1125899906842624.0;
    let d = std::num::truncating_f64_to_u64(y);
    Piece {
        digit: d,
        rest: y - (d as f64),
    }
}

// One digit of each of five sizes: their sum, and the rests. Inlined, since the arrays are copied at a call: 0.55 of the
// time where the last digits decide.
#[inline(always)]
fn cut_all(v: [f64; 5]) -> (u64, [f64; 5])
    requires { All (Size binary64) v }
    ensures sum { result.0 ≡ sum_of digit_of v }
    ensures rests { result.1 ≡ each_of rest_of v }
    ensures sum_high { result.0 ≤ 5629499534213120 }
{
    let [a, b, c, d, e] = v;
    let a = cut(a);
    let b = cut(b);
    let c = cut(c);
    let d = cut(d);
    let e = cut(e);
    (
        a.digit + (b.digit + (c.digit + (d.digit + e.digit))),
        [a.rest, b.rest, c.rest, d.rest, e.rest],
    )
}

// What f gives of each of five numbers.
fn each<F: Fn(f64) -> f64>(v: [f64; 5], f: F) -> [f64; 5]
    requires { F.IsAlwaysCallable f }
    ensures { (g : Float → Float) → ((x y : Float) → F.post f x y → y ≡ g x) → result ≡ each_of g v }
{
    let [a, b, c, d, e] = v;
    [f(a), f(b), f(c), f(d), f(e)]
}

// a less b: 0 at least, and 6 at most.
fn ahead(a: u64, b: u64) -> u64
    ensures { result ≡ min (a - b) 6 }
{
    a.saturating_sub(b).min(6)
}

impl Sides {
    // A digit more of each number. Of what was counted only the difference matters, and 6 is as good as more.
    fn turn(self) -> Self
        ensures of_p { result.p ≡ each_of rest_of self.p }
        ensures of_n { result.n ≡ each_of rest_of self.n }
        ensures a { result.a ≡ min (self.a - self.b) 6 * 1125899906842624 + sum_of digit_of self.p }
        ensures b { result.b ≡ min (self.b - self.a) 6 * 1125899906842624 + sum_of digit_of self.n }
    {
        let (a, p) = cut_all(self.p);
        let (b, n) = cut_all(self.n);
        Sides {
            p,
            n,
            a: ahead(self.a, self.b) * ONE + a,
            b: ahead(self.b, self.a) * ONE + b,
        }
    }

    // Whether the one side is no more than the other, exactly. It is decided where what was counted differs by 6, since
    // five rests are below 5; and after 21 turns nothing is left of any number.
    fn no_more(self) -> bool
        ensures { result ≡ run 21 self.p self.n self.a self.b }
    {
        let mut t = self;
        for _ in 0..21u64 {
            if ahead(t.a, t.b) == 6 {
                return false;
            }
            if ahead(t.b, t.a) == 6 {
                return true;
            }
            t = t.turn();
        }
        t.a <= t.b
    }
}

// The size of x where it is above 0, else 0.
fn above(x: f64) -> f64
    ensures { result ≡ pos_of x }
{
    if 0.0 < x { x } else { 0.0 }
}

// The size of x where it is below 0, else 0.
fn below(x: f64) -> f64
    ensures { result ≡ neg_of x }
{
    if x < 0.0 { -x } else { 0.0 }
}

// Whether the sum of five numbers, each within 1, is within 2^-40 of 1: two comparisons after the first digits.
fn near_one(v: [f64; 5]) -> bool
    requires { All Held v }
    ensures { result ≡ near_one v }
{
    let (a, p) = cut_all(each(v, above));
    let (b, n) = cut_all(each(v, below));
    let upper = Sides {
        p,
        n,
        a,
        b: b + ONE + 1024,
    };
    let lower = Sides {
        p: n,
        n: p,
        a: b + ONE,
        b: a + 1024,
    };
    upper.no_more() & lower.no_more()
}

// Whether x is finite and of size 1 at most.
pub fn is_within(x: f64) -> bool
    ensures { result ≡ within x }
{
    (x <= 1.0) & (-1.0 <= x)
}

// Whether five numbers are.
fn all_within(v: [f64; 5]) -> bool
    ensures answer { result ≡ all_within v }
    ensures if_true { result ≡ true → All Held v }
{
    let [a, b, c, d, e] = v;
    is_within(a) & is_within(b) & is_within(c) & is_within(d) & is_within(e)
}

// Whether five numbers are within 1 and their exact sum is within 2^-40 of it.
pub fn sums_to_one(a: f64, b: f64, c: f64, d: f64, e: f64) -> bool
    ensures { result ≡ (all_within (five a b c d e) && near_one (five a b c d e)) }
{
    let v = [a, b, c, d, e];
    all_within(v) && near_one(v)
}
