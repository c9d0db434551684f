//! Tests of the public calls on session files and meshes that no program makes.
#![tactic(auto)]

#[cfg(test)]
mod tests;
