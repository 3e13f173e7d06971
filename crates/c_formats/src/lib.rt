// What C and Rust programs call to convert buffers of f64s to Q15, Q14 and f32.
#![tactic(auto)]

pub mod buffers;
mod convert;
mod element;
mod store;
