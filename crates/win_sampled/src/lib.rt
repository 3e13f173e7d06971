// Windows for spectral analysis and filters, as f32 and as Q15 samples.
#![tactic(auto)]

pub mod fill;
pub mod shape;
