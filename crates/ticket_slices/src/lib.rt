// Designs straight into a buffer of f64s, as the Rust has them: a low-pass by its numbers or its specification, a
// half-band, a Gaussian, a root-raised cosine and the prototype of a channelizer. A refusal leaves the buffer as it came.
#![tactic(auto)]

mod fill;
pub mod gaussian;
pub mod half_band;
pub mod low_pass;
pub mod prototype;
pub mod rrc;
pub mod spec;
