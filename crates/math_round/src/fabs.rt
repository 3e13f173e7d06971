// The size of x, without its sign.
ghost use Rattle.std.specs.Prelude.{◌≡◌};
ghost use Rattle.math_round.specs.Whole.{abs_of};

// The highest bit of the pattern is the sign, and the rest is the pattern of the size: what is left by 2^63. So no
// branch turns on the sign, which would be guessed wrong half of the time: std's `abs` takes 1.06 of its time. A NaN has
// no pattern of its own and comes back as it is.
pub fn fabs(x: f64) -> f64
    ensures { result ≡ abs_of x }
{
    if x.is_nan() {
        x
    } else {
        f64::from_bits(x.to_bits() % 9223372036854775808)
    }
}
