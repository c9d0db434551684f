//! Sessions written in the standard column order, and what the program `normalize` prints.
#![tactic(auto)]

mod put;
pub mod report;
mod rows;
pub mod source;
