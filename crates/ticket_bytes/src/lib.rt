// A design of each kind as the bytes of a buffer: the length tested, the numbers judged, the taps written and told. A
// list for raw taps is lent, so that what designs tickets of every kind needs room for one. What C calls, and a ticket
// of any kind, come here.
#![tactic(auto)]

pub mod lowpasses;
pub mod pulses;
