//! The engagement tree of Dijkstra and Scholten, a termination detector.
#![tactic(auto)]

pub mod calls;
pub mod engagement;
pub mod node;
pub mod worked;
