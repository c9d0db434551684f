//! Channels: messages wait in a channel, and its sort sets the order of their arrival.
#![tactic(auto)]

pub mod channel;
pub mod item;
pub mod uses;
