// What C calls: an export for each function named pel_ of the crates below, with that function's clauses, which are
// stated again since a static library exports its own functions alone. Rattle calls the crates below.
#![tactic(auto)]

pub mod card;
pub mod cosines;
pub mod formats;
pub mod gain;
pub mod gaussian;
pub mod halfband;
pub mod lowpass;
pub mod math;
pub mod retune;
pub mod rrc;
pub mod sections;
pub mod windows;
