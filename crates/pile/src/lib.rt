//! Piles: channels whose items lie in the first of the lent slots. The stack and the picked channel are piles.
#![tactic(auto)]

pub mod picked;
pub mod pile;
pub mod stack;
pub mod uses;
