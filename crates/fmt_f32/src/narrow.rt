// An f64 as the nearest f32, ties to even, worked out on the bit pattern: so a NaN has one pattern, and a buffer of
// bytes is converted by whole numbers alone.
ghost use Rattle.std.specs.Prelude.{◌≡◌, ◌/◌, ◌<◌, ◌≤◌};
ghost use Rattle.std.specs.Float.{binary32, binary64};
ghost use Rattle.std.specs.Float.Ieee.{to_bits, of_bits};
ghost use Rattle.std.specs.Float.Ieee.Nearest.{closest};
ghost use Rattle.fmt_f32.specs.Single.{single_of};
ghost use Rattle.fmt_f32.specs.Sized.{Narrowed};

// The pattern of the f32 nearest x: an infinity from 2^128 − 2^103 on, a subnormal or a zero of its sign below 2^−126;
// 7FC00000 for a NaN. Example: 1.5 gives 3FC00000.
pub fn pattern_of(x: f64) -> u32
    ensures { result ≡ to_bits binary32 (single_of x) }
{
    if x != x {
        return 0x7FC0_0000;
    }
    pattern_of_bits(f64::to_bits(x))
}

// The same of the f64 with the pattern b: whole numbers alone, so a buffer's elements need not become f64s. The field
// of the exponent is 1023 more than the exponent; the f32's is 127 more. A NaN is told among the large sizes, so that
// the usual ones are spared the test.
pub fn pattern_of_bits(b: u64) -> u32
    ensures { result ≡ to_bits binary32 (single_of (of_bits binary64 b)) }
{
    let sign = b / 9223372036854775808 * 2147483648;
    let size = b % 9223372036854775808;
    let field = size / 4503599627370496;
    if field < 897 {
        return (sign + small_pattern(size)) as u32;
    }
    if field < 1151 {
        let even = size / 536870912 % 2;
        return (sign + ((size + 268435455 + even) / 536870912 - 7516192768)) as u32;
    }
    if size > 9218868437227405312 {
        return 0x7FC0_0000;
    }
    (sign + 2139095040) as u32
}

// The f32 nearest x.
pub fn narrow(x: f64) -> f32
    ensures { result ≡ single_of x }
{
    if x != x {
        return 0.0f32 / 0.0f32;
    }
    f32::from_bits(pattern_of(x))
}

// The pattern for that of a size below the smallest normal f32, 2^−126.
fn small_pattern(size: u64) -> u64
    requires { size / 4503599627370496 < 897 }
    ensures { Narrowed size result }
{
    let field = size / 4503599627370496;
    if field < 873 {
        return 0;
    }
    nearest(
        4503599627370496 + size % 4503599627370496,
        1u64 << (926 - field),
    )
}

// The whole number nearest m / u, ties to even. Neither is above 2^53, so nothing wraps.
fn nearest(m: u64, u: u64) -> u64
    requires { (0 < u) × (u ≤ 9007199254740992) × (m < 9007199254740992) }
    ensures { result ≡ closest m u }
{
    let q = m / u;
    let twice = 2 * (m % u);
    if twice < u {
        q
    } else if twice == u {
        q + q % 2
    } else {
        q + 1
    }
}
