// What C and Rust programs call on numbers alone: the elementary functions, the shape of Kaiser's window, lengths and
// half samples of delay, one value as a Q15 or Q14 number.
#![tactic(auto)]

pub mod elementary;
pub mod lengths;
pub mod shape;
pub mod single;
