// The windows as formulas, each once: Hann, Hamming, Blackman, Blackman-Harris, a sum of cosines with numbers of its own,
// and Kaiser. Low-passes and sampled windows both take them from here. No public function has a `requires`.
#![tactic(auto)]

pub mod cosines;
pub mod curve;
pub mod kaiser;
