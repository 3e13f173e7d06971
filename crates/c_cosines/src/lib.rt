// What C and Rust programs call for a window of their own: its numbers loaded, and a record of them to keep.
#![tactic(auto)]

pub mod load;
