// f64s converted to 16 bits, one by one, in any code that tells which it takes: one loop, made for each.
ghost use Rattle.std.specs.Prelude.{◌≡◌, ℕ, Bool, cond, ℤ, Float, Err, Ok};
ghost use Rattle.verdict.specs.declared.Refusal.{Refusal};
ghost use Rattle.verdict.specs.Converts.{Converts};

use verdict::Refusal;

// A code of 16 bits for f64s.
pub trait Coded {
    // Which are taken.
    ghost takes: { Float → Bool };

    // What is told of one that isn't, with its index.
    ghost outside: { ℕ → Float → Refusal };

    // The number of one that is.
    ghost item: { Float → ℤ };

    // The number of x, which is element i.
    fn coded(i: u64, x: f64) -> Result<i16, Refusal>
        ensures { result ≡ cond (takes x) (Ok (item x)) (Err (outside i x)) };
}

// Converts the source element by element. Refused: 8 where the lengths differ, and then nothing is written; as the code
// tells at the first element that it doesn't take, and then those before it are converted and the rest is as it came.
pub fn convert<T: Coded>(src: &[f64], dst: &mut [i16]) -> Result<(), Refusal>
    ensures { Converts 1 T.takes T.outside T.item src.now dst.old result dst.new }
{
    let n = src.len();
    if n != dst.len() {
        return Err(Refusal::Length(n as u64, dst.len() as u64));
    }
    for i in 0..n {
        dst[i] = T::coded(i as u64, src[i])?;
    }
    Ok(())
}
