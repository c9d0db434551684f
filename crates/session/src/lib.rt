//! Session files: read, checked, and as a type that keeps the rules.
#![tactic(auto)]

mod columns;
mod lines;
mod order;
pub mod reader;
pub mod session;
