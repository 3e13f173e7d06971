// What C and Rust programs call for tickets on a card: a record read and written, a card checked, a ticket judged and
// designed.
#![tactic(auto)]

pub mod reading;
pub mod tickets;
pub mod writing;
