// The root-raised-cosine pulse.
#![tactic(auto)]

pub mod design;
