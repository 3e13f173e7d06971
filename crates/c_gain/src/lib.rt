// What C and Rust programs call for the gain of a window: what it does to a level and to noise.
#![tactic(auto)]

pub mod level;
