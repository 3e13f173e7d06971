// Pulse shapes: filters that make a symbol's samples.
#![tactic(auto)]

pub mod gaussian_design;
