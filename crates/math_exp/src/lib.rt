// The exponential from −700 to 0, and the power 0.4 from 0 to 29.
#![tactic(auto)]

pub mod exp;
pub mod pow04;
