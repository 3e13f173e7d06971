// The symmetries by their codes, since an enum is no argument of a C function.
ghost use Rattle.std.specs.Prelude.{◌≡◌};
ghost use Rattle.c_windows.specs.Codes.{symmetry_of};

use win_sampled::shape::Symmetry;

// 0 periodic, 1 symmetric.
#[tactic(auto, unfolding(crate::specs::Codes::symmetry_of))]
pub(crate) fn symmetry_of(code: u64) -> Option<Symmetry>
    ensures { result ≡ symmetry_of code }
{
    match code {
        0 => Some(Symmetry::Periodic),
        1 => Some(Symmetry::Symmetric),
        _ => None,
    }
}
