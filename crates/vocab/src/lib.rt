//! The vocabulary of session files: what they speak of, their words, and their faults.
#![tactic(auto)]

pub mod faults;
pub mod kinds;
pub mod words;
