// What the rounding of taps can cost, for every accepted ticket; no code.
#![tactic(auto)]
