// A stored list of the Rust's answers: its lines taken apart, and what the port says held against them.
#![tactic(auto)]

pub mod converted;
pub mod kind;
pub mod lent;
pub mod line;
pub mod offered;
pub mod pattern;
pub mod source;
pub mod tally;
pub mod told;
pub mod written;
