// Buffers of f64 as f32.
ghost use Rattle.std.specs.Prelude.{◌≡◌, true, length, Ok};
ghost use Rattle.verdict.specs.Converts.{Converts};
ghost use Rattle.fmt_f32.specs.Single.{single_of, any_outside};

use super::narrow::narrow;
use verdict::Refusal;

// Each element as the nearest f32, from the first on.
fn narrow_all(src: &[f64], dst: &mut [f32])
    requires { length src.now ≡ length dst.old }
    ensures { Converts 1 (λ x. true) any_outside single_of src.now dst.old (Ok tt) dst.new }
{
    for i in 0..src.len() {
        dst[i] = narrow(src[i]);
    }
}

// Converts the source element by element, all of it. Refused: 8 where the lengths differ, and then nothing is written.
pub fn to_f32(src: &[f64], dst: &mut [f32]) -> Result<(), Refusal>
    ensures { Converts 1 (λ x. true) any_outside single_of src.now dst.old result dst.new }
{
    if src.len() != dst.len() {
        return Err(Refusal::Length(src.len() as u64, dst.len() as u64));
    }
    narrow_all(src, &mut *dst);
    Ok(())
}

// Converts sections, five numbers each. Refused first: 8 a source that isn't whole sections, with the length to the
// last whole one and the length; then as `to_f32`.
pub fn to_f32_sos(src: &[f64], dst: &mut [f32]) -> Result<(), Refusal>
    ensures { Converts 5 (λ x. true) any_outside single_of src.now dst.old result dst.new }
{
    let m = src.len() as u64;
    if m % 5 != 0 {
        return Err(Refusal::Length(m - m % 5, m));
    }
    to_f32(src, &mut *dst)
}
