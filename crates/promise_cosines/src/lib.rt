// No code: a Hann, Hamming or Blackman window that is loaded by its numbers is accepted, and a low-pass with it is the
// one with the built-in window, to the bit.
#![tactic(auto)]
