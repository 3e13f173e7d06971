// The greatest whole number that is not above x.
ghost use Rattle.std.specs.Prelude.{◌≡◌, ◌^◌, if◌then◌else◌};
ghost use Rattle.std.specs.Float.Ieee.{lt};
ghost use Rattle.laws.specs.AtMost.{AtMost};
ghost use Rattle.math_round.specs.Whole.{floor_of};

// 3 · 2^51, in the middle of the f64s whose last digit is worth 1.
const MIDDLE: f64 = 6755399441055744.0;

// Below 2^50 in size there is a way with no branch that turns on the fraction or the sign; std's, which serves beyond,
// takes 1.7 of its time.
pub fn floor(x: f64) -> f64
    ensures { result ≡ floor_of x }
{
    if x > -1125899906842624.0 && x < 1125899906842624.0 {
        floor_small(x)
    } else {
        x.floor()
    }
}

// The sum of a small x and 3 · 2^51 lies between 2^52 and 2^53, where an f64 has no fraction: it is a whole number, and
// less than 1 off. Taking 3 · 2^51 away again is exact, so `near` is a whole number less than 1 away from x.
// For a larger x nothing is promised of the answer: a caller that knows its x to be small spares the test.
pub fn floor_small(x: f64) -> f64
    ensures { AtMost x (2 ^ 50) 1 → result ≡ floor_of x }
{
    let near = x + MIDDLE - MIDDLE;
    chosen(x, near, near - 1.0)
}

// `near` where it is below x, and the whole number under it where it is above. Where it is neither it equals x, and the
// answer is x, so that a zero keeps its sign. All three are there before the choice, so it needs no branch, which would
// be guessed wrong half of the time.
fn chosen(x: f64, near: f64, under: f64) -> f64
    ensures { result ≡ (if lt x near then under else (if lt near x then near else x)) }
{
    if near > x {
        under
    } else if near < x {
        near
    } else {
        x
    }
}
