//! Termination detectors: the trait, what a detector means, the laws that make an announcement right, and its faults.
#![tactic(auto)]

pub mod detector;
pub mod faults;
pub mod over;
pub mod size;
pub mod told;
