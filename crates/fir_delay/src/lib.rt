// The delay of a linear-phase filter, in half samples, so that the half of an even length is kept.
#![tactic(auto)]

ghost use Rattle.std.specs.Prelude.{◌≡◌};
ghost use Rattle.fir_delay.specs.Delay.{delay_of};

use verdict::{Reason, Refusal};

// A number of half samples. The unit is in the type, so that no program takes it for samples or for taps.
#[derive(Clone, Copy)]
pub struct HalfSamples {
    pub count: u64,
}

// The half samples that n taps delay by: n − 1 of them; 6 for 0 taps. Example: 128 taps delay by 127.
pub fn delay(n: u64) -> Result<HalfSamples, Refusal>
    ensures { result ≡ delay_of n }
{
    if n == 0 {
        return Err(Refusal::Plain(Reason::Count));
    }
    Ok(HalfSamples { count: n - 1 })
}
