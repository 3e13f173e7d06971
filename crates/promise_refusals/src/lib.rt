// Demand 1 of every export: filled completely, or refused by one of the numbers with the buffer as it came; no code.
#![tactic(auto)]
