// The raw taps of a design that are kept in a list from their sum to their division, so that each is worked out once.
#![tactic(auto)]

ghost use Rattle.std.specs.Prelude.{◌≡◌, set};

// How many raw taps an export keeps while it designs: 8 kilobytes.
pub const CACHED: usize = 1024;

// Stores v at i where the list has that place.
pub fn keep(raws: &mut [f64], i: u64, v: f64)
    ensures { raws.new ≡ set raws.old i v }
{
    let k = i as usize;
    if k < raws.len() {
        raws[k] = v;
    }
}
