// A lock maker's numbers loaded as a window, as an export. The record goes to pel_lowpass_cosines, since a window of
// its own has no code.
ghost use Rattle.std.specs.Prelude.{◌≡◌, ◌/◌, length, get_or};
ghost use Rattle.laws.specs.Binary64.{whole};
ghost use Rattle.c_cosines.specs.Loads.{numbers_in, load_bytes, answer_of};

use verdict::{Refusal, Report};
use win_cosines::loaded;
use win_shapes::cosines::Cosines;

// What pel_load_cosines answers: the window to design with, and the report.
#[repr(C)]
#[derive(Clone, Copy)]
pub struct Loaded {
    pub window: Cosines,
    pub report: Report,
}

// Number i of a list of bytes, and 0 where it isn't given.
fn number_at(src: &[u8], i: usize) -> f64
    ensures { result ≡ get_or (numbers_in src.now) i (whole 0) }
{
    match src.as_chunks::<8>().0.get(i) {
        Some(bytes) => wire::float_of(wire::number_in(bytes)),
        None => 0.0,
    }
}

// What comes of a list of bytes.
fn load_bytes(src: &[u8]) -> Result<Cosines, Refusal>
    ensures { result ≡ load_bytes src.now }
{
    let len = src.len() as u64;
    if len % 8 != 0 {
        return Err(Refusal::Length(len - len % 8, len));
    }
    loaded(
        len / 8,
        Cosines {
            c0: number_at(src, 0),
            c1: number_at(src, 1),
            c2: number_at(src, 2),
            c3: number_at(src, 3),
            c4: number_at(src, 4),
        },
    )
}

// What is given in place of a window that is refused.
const NOTHING: Cosines = Cosines {
    c0: 0.0,
    c1: 0.0,
    c2: 0.0,
    c3: 0.0,
    c4: 0.0,
};

// Loads one to five numbers, eight bytes each, the lowest first, for the window c0 − c1 cos x + c2 cos 2x − c3 cos 3x +
// c4 cos 4x; those not given are 0. Gives the window to design with, and how many numbers as the count.
// Refused, in this order, with a window of zeros: 8 a length that isn't a multiple of 8, with the length to the last
// whole number and the length, in bytes; 17 with 1, 5, count where there aren't 1 to 5; 18 with −1, 1 and the first
// number that isn't finite or whose size is above 1; 19 an exact sum that is further than 2^-40 from 1. Example: 0.5,
// 0.5 is Hann's window, and 0.5, 0.6 is 19.
pub fn pel_load_cosines(src: &[u8]) -> Loaded
    ensures { result ≡ answer_of (length src.now / 8) (load_bytes src.now) }
{
    match load_bytes(src) {
        Ok(window) => Loaded {
            window,
            report: Report::accepted(src.len() as u64 / 8, 0.0),
        },
        Err(why) => Loaded {
            window: NOTHING,
            report: Report::from(why),
        },
    }
}
