// What C and Rust programs call for half-bands and pulses: their designs judged, and their taps in a buffer.
#![tactic(auto)]

pub mod cosine;
pub mod halfbands;
pub mod pulse;
