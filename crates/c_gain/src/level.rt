// What a window does to a level and to noise, as an export.
ghost use Rattle.std.specs.Prelude.{◌≡◌, ◌%◌, length};
ghost use Rattle.win_gain.specs.Gain.{gain_of};
ghost use Rattle.c_gain.specs.Level.{singles, gain_report};

use win_gain::{Gain, gain_of};

// What pel_window_gain answers; a field that does not apply is 0.
#[repr(C)]
#[derive(Clone, Copy)]
pub struct GainReport {
    // 0, or 8 where the length isn't whole samples.
    pub number: u32,
    // 0 nothing, 2 a length.
    pub carries: u32,
    // The length to the last whole sample, and the length that was given, in bytes.
    pub expected: u64,
    pub given: u64,
    // Where accepted: how many samples, the coherent gain and the noise-equivalent bandwidth in bins.
    pub count: u64,
    pub gain: f64,
    pub bandwidth: f64,
}

// Whether a pattern is a NaN's. Nothing rests on it but time: `wide_of` tests once more, and where this said no the
// compiler leaves that test out.
fn is_nan(n: u32) -> bool {
    n % 2147483648 > 2139095040
}

// Both figures of a buffer of whole f32s, summed by rising index. A NaN's pattern can't be read as it stands, so that
// every sample has to be tested; four at a time are, by one branch, and from the first four with a NaN on each by
// itself. The first loop is a `while`, since it goes four a turn and ends there. The words are read by index, which the
// proof shows to be among them, so that no test stands in the loops.
fn gain_in(src: &[u8]) -> Gain
    requires { length src.now % 4 ≡ 0 }
    ensures { result ≡ gain_of (singles src.now) }
{
    let words = src.as_chunks::<4>().0;
    let n = words.len();
    let mut sum = 0.0;
    let mut squares = 0.0;
    let mut i = 0usize;
    while i + 3 < n {
        let a = wire::number_in_four(&words[i]);
        let b = wire::number_in_four(&words[i + 1]);
        let c = wire::number_in_four(&words[i + 2]);
        let d = wire::number_in_four(&words[i + 3]);
        if is_nan(a) | is_nan(b) | is_nan(c) | is_nan(d) {
            break;
        }
        let v = wire::wide_of(a);
        let w = wire::wide_of(b);
        let x = wire::wide_of(c);
        let y = wire::wide_of(d);
        sum = sum + v + w + x + y;
        squares = squares + v * v + w * w + x * x + y * y;
        i += 4;
    }
    for k in i..n {
        let v = wire::wide_of(wire::number_in_four(&words[k]));
        sum = sum + v;
        squares = squares + v * v;
    }
    gain_of(n as u64, sum, squares)
}

// The coherent gain of a window of f32 samples, four bytes each, the lowest first: Σ w / n; and its noise-equivalent
// bandwidth in bins: n Σ w² / (Σ w)². Both are 0 for no samples; samples that sum to 0 give an infinite bandwidth or
// NaN. Refused: 8 a length that isn't a multiple of 4, with the length to the last whole sample and the length, in
// bytes. Example: the samples 0, 0.5, 1, 0.5 give 0.5 and 1.5.
pub fn pel_window_gain(src: &[u8]) -> GainReport
    ensures { result ≡ gain_report src.now }
{
    let len = src.len() as u64;
    if len % 4 != 0 {
        return GainReport {
            number: verdict::BAD_LENGTH,
            carries: 2,
            expected: len - len % 4,
            given: len,
            count: 0,
            gain: 0.0,
            bandwidth: 0.0,
        };
    }
    let g = gain_in(src);
    GainReport {
        number: 0,
        carries: 0,
        expected: 0,
        given: 0,
        count: len / 4,
        gain: g.gain,
        bandwidth: g.bandwidth,
    }
}
