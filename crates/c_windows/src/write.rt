// A window as the bytes of a buffer: one loop for every shape and sample.
ghost use Rattle.std.specs.Prelude.{◌≡◌, ◌/◌, ◌%◌, length};
ghost use Rattle.laws.specs.Chunks.{chunks};
ghost use Rattle.win_sampled.specs.Shapes.{sample_at};
ghost use Rattle.c_windows.specs.Codes.{symmetry_of};
ghost use Rattle.c_windows.specs.Samples.{width_of, sample_bytes, window_bytes};
ghost use Rattle.wire.specs.Writes.{Writes};

use super::codes::symmetry_of;
use super::sample::Sample;
use verdict::{Reason, Refusal, Report};
use win_sampled::shape::{
    Shape, arguments_of, divisor, judge, norm, place_at, value_at, values_at,
};

// Fills a buffer of whole samples, sample i at its place. The samples are taken two at a time, since two of Kaiser's
// series cost little more than one, and two of his roots less than two, and the arguments of the next two are worked
// out before: a processor mispredicts where a series ends, and only what stands before that branch is worked out
// alongside. A `while`: it goes two samples a turn, and one may be left.
fn put_samples(shape: Shape, i0: f64, d: u64, sample: Sample, out: &mut [u8])
    requires { length out.old % width_of sample ≡ 0 }
    ensures { out.new ≡ chunks (length out.old / width_of sample) (λ i. sample_bytes sample (sample_at shape i0 d i)) }
{
    let wide = sample.width() as usize;
    let n = out.len() / wide;
    let begun = arguments_of(shape, place_at(shape, d, 0), place_at(shape, d, 1));
    let mut x = begun.first;
    let mut y = begun.second;
    let mut i = 0;
    while i + 1 < n {
        let next = arguments_of(
            shape,
            place_at(shape, d, (i + 2) as u64),
            place_at(shape, d, (i + 3) as u64),
        );
        let two = values_at(shape, i0, d, x, y);
        sample.store(&mut *out, wide * i, two.first);
        sample.store(&mut *out, wide * (i + 1), two.second);
        x = next.first;
        y = next.second;
        i += 2;
    }
    if i < n {
        sample.store(&mut *out, wide * i, value_at(shape, i0, d, x));
    }
}

// Writes as many samples as the buffer has room for and tells how many as the count; tells a refusal, and leaves the
// buffer.
#[tactic(auto, using(crate::proofs::RoomLaws::some_width))]
pub(crate) fn write_window(shape: Shape, code: u64, sample: Sample, out: &mut [u8]) -> Report
    ensures { Writes (sample_bytes sample) (window_bytes sample shape (symmetry_of code) (length out.old)) out.old result out.new }
{
    let Some(symmetry) = symmetry_of(code) else {
        return Report::from(Refusal::Plain(Reason::Code));
    };
    let len = out.len() as u64;
    let wide = sample.width();
    if len % wide != 0 {
        return Report::from(Refusal::Length(len - len % wide, len));
    }
    let n = len / wide;
    if let Err(why) = judge(shape, symmetry, n) {
        return Report::from(why);
    }
    put_samples(shape, norm(shape), divisor(symmetry, n), sample, &mut *out);
    Report::accepted(n, 0.0)
}
