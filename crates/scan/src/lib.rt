//! What is seen of a line by itself: the next line and its sort, names and their places, and where a fault arose.
#![tactic(auto)]

pub mod columns;
pub mod lines;
