// Taps as the numbers that a filter in fixed point runs on.
#![tactic(auto)]

pub mod convert;
pub mod q15;
