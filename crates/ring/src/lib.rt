//! The queue: a channel over a ring of lent slots.
#![tactic(auto)]

pub mod queue;
pub mod uses;
