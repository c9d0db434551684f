//! The format of session files: what a file holds and how it is judged, as definitions, and the rows of its tables.
#![tactic(auto)]

pub mod rows;
