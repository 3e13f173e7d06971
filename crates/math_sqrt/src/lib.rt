// The square root of an f64, rounded once.
#![tactic(auto)]

pub mod pair;
pub mod sqrt;
