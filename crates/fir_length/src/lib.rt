// Kaiser's formulas: the shape of his window for an attenuation, and the number of taps for a transition.
#![tactic(auto)]

pub mod beta;
pub mod order;
