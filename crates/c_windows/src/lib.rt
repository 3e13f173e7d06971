// What C and Rust programs call for windows: their samples as f32 or Q15.
#![tactic(auto)]

mod codes;
mod sample;
pub mod samples;
mod write;
