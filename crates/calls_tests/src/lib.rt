//! The tests of what a screen showed as calls, through the public calls of `screen_calls`. They stand in a crate above it,
//! since a crate with tests is proved twice.
#![tactic(auto)]

#[cfg(test)]
mod tests;
