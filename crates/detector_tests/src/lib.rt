//! Tests of the two detectors, apart from their crates, which so are proved once and not once more with tests.
#![tactic(auto)]

#[cfg(test)]
mod credit_played;
#[cfg(test)]
mod played;
#[cfg(test)]
mod tree_played;
