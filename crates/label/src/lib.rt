//! Label kinds: what the nodes of a mesh pass on and improve.
#![tactic(auto)]

pub mod cost;
pub mod label;
pub mod laws;
pub mod printed;
#[cfg(test)]
mod tests;
pub mod width;
