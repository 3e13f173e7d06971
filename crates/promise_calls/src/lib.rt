// The exports called as they stand, one function each, whose contract is what the user demands of that very call: a
// promise that no longer follows from an export's own contract is refused here.
#![tactic(auto)]

pub mod card;
pub mod coefficients;
pub mod conversions;
pub mod cosines;
pub mod designs;
pub mod filters;
pub mod judgements;
pub mod lengths;
pub mod samples;
pub mod slices;
pub mod turns;
pub mod written;
