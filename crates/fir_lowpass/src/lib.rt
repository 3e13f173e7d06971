// Low-pass filters by windows, from a cutoff and a number of taps.
#![tactic(auto)]

pub mod lowpass;
