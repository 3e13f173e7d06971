// What C and Rust programs call to turn the knob of a low-pass: its record, which they keep, and its taps in a buffer.
// Exports, all named pel_.
#![tactic(auto)]

pub mod record;
pub mod retune;
pub mod write;
