// Values as f32: the nearest one.
#![tactic(auto)]

pub mod narrow;
pub mod slices;
