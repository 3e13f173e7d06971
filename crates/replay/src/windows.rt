// Windows that are written to a buffer, whose length in bytes is the last argument. A sample has width bytes: two of a
// Q15 number, four of an f32.
use crate::written;
use verdict::Report;
use wire::float_of;

// A window that has its symmetry alone for an argument.
pub(crate) fn judge<F: FnOnce(u64, &mut [u8]) -> Report>(
    words: &[u64],
    width: usize,
    export: F,
) -> Option<bool>
    requires { F.IsAlwaysCallable export }
{
    let (&[symmetry], samples) = words.split_first_chunk::<1>()?;
    written::judge(samples, width, |out| export(symmetry, out))
}

// A window that has a shape before it.
pub(crate) fn judge_kaiser<F: FnOnce(f64, u64, &mut [u8]) -> Report>(
    words: &[u64],
    width: usize,
    export: F,
) -> Option<bool>
    requires { F.IsAlwaysCallable export }
{
    let (&[beta, symmetry], samples) = words.split_first_chunk::<2>()?;
    written::judge(samples, width, |out| export(float_of(beta), symmetry, out))
}
