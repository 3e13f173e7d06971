// What C and Rust programs call for sections: biquads, Butterworth filters and pre-emphasis.
#![tactic(auto)]

pub mod cascade;
mod codes;
pub mod section;
mod write;
