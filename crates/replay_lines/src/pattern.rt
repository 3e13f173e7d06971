// Floats and their bit patterns.
ghost use Rattle.std.specs.Prelude.{◌≡◌};
ghost use Rattle.replay_lines.specs.Agrees.{agrees_of};

// Is b the pattern of x? Any NaN matches any NaN.
#[tactic(auto, unfolding(crate::specs::Agrees::agrees_of))]
pub fn agrees(x: f64, b: u64) -> bool
    ensures { result ≡ agrees_of x b }
{
    if x.is_nan() {
        wire::float_of(b).is_nan()
    } else {
        x.to_bits() == b
    }
}
