// Coefficients as the bytes of a buffer.
ghost use Rattle.std.specs.Prelude.{◌≡◌, ◌*◌, length, Ok};
ghost use Rattle.wire.specs.Bytes.{float_bytes};
ghost use Rattle.wire.specs.Writes.{Writes};
ghost use Rattle.c_sections.specs.Numbers.{numbers_of};

use verdict::{Refusal, Report};

// Writes the numbers, eight bytes each, and tells how many.
pub(crate) fn write_numbers(numbers: &[f64], out: &mut [u8]) -> Report
    requires { length out.old ≡ 8 * length numbers.now }
    ensures { Writes float_bytes (numbers_of (Ok tt) numbers.now) out.old result out.new }
{
    let n = numbers.len();
    for i in 0..n {
        wire::put_f64(&mut *out, 8 * i, numbers[i]);
    }
    Report::accepted(n as u64, 0.0)
}

// Writes the N numbers of a filter that is taken, and tells how many, or why it isn't.
pub(crate) fn write_coefs<const N: usize>(
    verdict: Result<(), Refusal>,
    coefs: [f64; N],
    out: &mut [u8],
) -> Report
    requires { length out.old ≡ 8 * N }
    ensures { Writes float_bytes (numbers_of verdict coefs.entry) out.old result out.new }
{
    match verdict {
        Ok(()) => write_numbers(&coefs, &mut *out),
        Err(why) => Report::from(why),
    }
}
