//! Meshes: nodes, a root among them, and directed links.
#![tactic(auto)]

pub mod build;
pub mod link;
pub mod mesh;
