// Numbers as little-endian bytes of a buffer.
#![tactic(auto)]

ghost use Rattle.std.specs.Prelude.{◌≡◌, ◌+◌, ◌≤◌, ◌%◌, length};
ghost use Rattle.std.proofs.lemmas.List.Edits.{sets};
ghost use Rattle.std.specs.Float.{binary32, binary64};
ghost use Rattle.std.specs.Float.Ieee.{to_bits, of_bits};
ghost use Rattle.wire.specs.Bytes.{bytes_of, put_of, twos_of, number_of, joined, joined_four};

// The pattern that every NaN is written as.
const NAN: u64 = 0x7FF8_0000_0000_0000;

// The lowest byte.
fn lowest(n: u64) -> u8
    ensures { result ≡ n % 256 }
{
    (n % 256) as u8
}

// The bit pattern of x. f64::to_bits is not defined at a NaN, so that is told by a test first.
fn pattern_of(x: f64) -> u64
    ensures { result ≡ to_bits binary64 x }
{
    if x != x { NAN } else { f64::to_bits(x) }
}

// Stores the width lowest bytes of n, the lowest first: one loop for every width.
fn put_bytes(out: &mut [u8], at: usize, width: usize, n: u64)
    requires { at + width ≤ length out.old }
    ensures { out.new ≡ sets out.old at (bytes_of width n) }
{
    let end = at + width;
    let mut rest = n;
    for i in at..end {
        out[i] = lowest(rest);
        rest = rest / 256;
    }
}

// Stores the width lowest bytes of n at `at`; where they don't fit wholly, the buffer stays as it is.
pub fn put(out: &mut [u8], at: usize, width: usize, n: u64)
    ensures { out.new ≡ put_of width out.old at n }
{
    let len = out.len();
    if len < at {
        return;
    }
    if len - at < width {
        return;
    }
    put_bytes(&mut *out, at, width, n);
}

// Stores the eight bytes of x at `at`; where they don't fit wholly, the buffer stays as it is. Example: 1.0 at 0 is 0,
// 0, 0, 0, 0, 0, 240, 63.
pub fn put_f64(out: &mut [u8], at: usize, x: f64)
    ensures { out.new ≡ put_of 8 out.old at (to_bits binary64 x) }
{
    let n = pattern_of(x);
    put(&mut *out, at, 8, n);
}

// The 16 bits of q as a number: q itself, or 65536 + q below 0.
pub fn bits_of(q: i16) -> u64
    ensures { result ≡ twos_of q }
{
    let up = ((q as i64) + 32768) as u64;
    (up + 32768) % 65536
}

// Stores the two bytes of q at `at`; where they don't fit wholly, the buffer stays as it is. Example: −2 at 0 is 254,
// 255.
pub fn put_i16(out: &mut [u8], at: usize, q: i16)
    ensures { out.new ≡ put_of 2 out.old at (twos_of q) }
{
    let n = bits_of(q);
    put(&mut *out, at, 2, n);
}

// Stores the four bytes of n at `at`; where they don't fit wholly, the buffer stays as it is.
pub fn put_u32(out: &mut [u8], at: usize, n: u32)
    ensures { out.new ≡ put_of 4 out.old at n }
{
    put(&mut *out, at, 4, n as u64);
}

// The f64 with the pattern n. f64::from_bits is not defined at a NaN's, so that is told by a test first.
pub fn float_of(n: u64) -> f64
    ensures { result ≡ of_bits binary64 n }
{
    if n % 9223372036854775808 > 9218868437227405312 {
        0.0 / 0.0
    } else {
        f64::from_bits(n)
    }
}

// Eight bytes as a number, the lowest first, each a parameter. It stays, being public: the crates here read by
// `number_in`.
pub fn join(a: u8, b: u8, c: u8, d: u8, e: u8, f: u8, g: u8, h: u8) -> u64
    ensures { result ≡ joined a b c d e f g h }
{
    let x = (a as u64) + 256 * (b as u64) + 65536 * (c as u64) + 16777216 * (d as u64);
    let y = (e as u64) + 256 * (f as u64) + 65536 * (g as u64) + 16777216 * (h as u64);
    x + 4294967296 * y
}

// Eight bytes as a number, the lowest first: the type says how many there are, so that none is read with a test.
pub fn number_in(bytes: &[u8; 8]) -> u64
    ensures { result ≡ number_of bytes.now }
{
    u64::from_le_bytes(*bytes)
}

// Four bytes as a number, likewise.
pub fn number_in_four(bytes: &[u8; 4]) -> u32
    ensures { result ≡ number_of bytes.now }
{
    u32::from_le_bytes(*bytes)
}

// Four bytes as a number, the lowest first, each a parameter: `ticket_card` reads a kind so, two bytes and zeros.
pub fn join_four(a: u8, b: u8, c: u8, d: u8) -> u32
    ensures { result ≡ joined_four a b c d }
{
    (a as u32) + 256 * (b as u32) + 65536 * (c as u32) + 16777216 * (d as u32)
}

// The f64 that the f32 with the pattern n is. One test tells a NaN's pattern for the reading and for the widening.
pub fn wide_of(n: u32) -> f64
    ensures { result ≡ of_bits binary32 n }
{
    if n % 2147483648 > 2139095040 {
        0.0 / 0.0
    } else {
        f32::from_bits(n) as f64
    }
}
