// Sine and cosine of an f64 of a size up to 2^25, NaN beyond.
#![tactic(auto)]

pub mod cos;
mod reduce;
mod series;
pub mod sin;
