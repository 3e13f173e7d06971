// Tests of numbers, a number as a count, and the two constants that designs share.
#![tactic(auto)]

ghost use Rattle.std.specs.Prelude.{◌≡◌, true};
ghost use Rattle.std.specs.Float.Ieee.{to_unsigned};
ghost use Rattle.std.specs.Float.Ieee.Scale.{finite};
ghost use Rattle.math_numbers.specs.Numbers.{positive, same};

// The f64 nearest π.
pub const PI: f64 = 3.141592653589793;

// The largest number of taps that a design takes: 2^24.
pub const TAP_LIMIT: u64 = 16777216;

// Whether x is neither a NaN nor an infinity.
pub fn is_finite(x: f64) -> bool
    ensures { result ≡ finite x }
{
    x.is_finite()
}

// Whether x is finite and above 0.
pub fn is_positive(x: f64) -> bool
    ensures { result ≡ positive x }
{
    is_finite(x) && 0.0 < x
}

// Whether x and y are one and the same value: zeros of unlike signs are not, and a NaN isn't even itself.
pub fn is_same(x: f64, y: f64) -> bool
    ensures answer { result ≡ same x y }
    ensures if_true { result ≡ true → x ≡ y }
{
    x == y && x.to_bits() == y.to_bits()
}

// x without its fraction as a count: 0 for NaN and what is below 0, the largest count for what is above it. Rust's `as
// u64`.
pub fn to_count(x: f64) -> u64
    ensures { result ≡ to_unsigned 64 x }
{
    std::num::saturating_f64_to_u64(x)
}
