// The raw taps of a windowed-sinc design, before the division by their sum: the windows, a tap, and the sum.
#![tactic(auto)]

pub mod sum;
pub mod tap;
pub mod window;
