// The worked examples that are proved; no code.
#![tactic(auto)]
