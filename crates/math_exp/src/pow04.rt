// The power 0.4 of a number from 0 to 29.
ghost use Rattle.std.specs.Prelude.{◌≡◌};
ghost use Rattle.laws.specs.Binary64.{whole};
ghost use Rattle.math_exp.specs.Pow04.{steps, pow04_of};

// The fifth root of w, by Newton's steps from 4: the first that isn't smaller ends it with the one before, at most 100.
fn fifth_root(w: f64) -> f64
    ensures { result ≡ steps 100 w (whole 4) }
{
    let mut y = 4.0;
    for _ in 0..100u32 {
        let next = (4.0 * y + w / ((y * y) * (y * y))) / 5.0;
        if !(next < y) {
            break; // y is the one before
        }
        y = next;
    }
    y
}

// v^0.4 for v from 0 to 29, limits included; NaN elsewhere, and at a NaN. A zero of either sign gives +0.
pub fn pow04(v: f64) -> f64
    ensures { result ≡ pow04_of v }
{
    if 0.0 <= v && v <= 29.0 {
        if v == 0.0 { 0.0 } else { fifth_root(v * v) }
    } else {
        0.0 / 0.0
    }
}
