// What comes of a ticket of any kind: judged without a buffer, and designed into one.
#![tactic(auto)]

pub mod design;
pub mod judge;
mod numbers;
