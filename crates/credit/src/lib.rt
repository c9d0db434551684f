//! The credit detector: termination detection by credit recovery.
#![tactic(auto)]

pub mod credit;
mod holders;
mod places;
pub mod recovery;
pub mod worked;
