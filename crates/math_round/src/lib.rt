// The whole numbers next to an f64, and its size without its sign.
#![tactic(auto)]

pub mod ceil;
pub mod fabs;
pub mod floor;
