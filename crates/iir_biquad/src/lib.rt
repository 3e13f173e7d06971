// Recursive filters: the Audio EQ Cookbook's second-order sections, and pre-emphasis.
#![tactic(auto)]

pub mod biquad;
pub mod preemphasis;
