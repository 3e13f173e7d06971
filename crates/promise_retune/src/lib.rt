// The knob of a low-pass as C turns it: after any list of calls its record is the one designed from the last accepted
// numbers; no code.
#![tactic(auto)]
