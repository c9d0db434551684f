//! Tests of the three sorts of channel, apart from their crates, which so are proved once and not once more with tests.
#![tactic(auto)]

#[cfg(test)]
mod tests;
