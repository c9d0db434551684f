//! Text in byte slices: numbers in decimal, lines of fields, and writing into a caller's output.
#![tactic(auto)]

pub mod cut;
pub mod line;
pub mod number;
pub mod output;
pub mod word;
