//! The protocol as a relation between states, and the theorem on best routes: each function's contract is a theorem.
#![tactic(auto)]

pub mod mistakes;
pub mod routes;
