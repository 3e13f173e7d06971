// What C and Rust programs call for a low-pass: its design judged, and its taps in a buffer. Exports, all named pel_;
// those of other kinds of design, on numbers alone, and for other formats, sections and windows are in crates of their
// own.
#![tactic(auto)]

pub mod cosines;
pub mod lowpass;
pub mod prototype;
pub mod spec;
