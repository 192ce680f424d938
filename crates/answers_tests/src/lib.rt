//! The tests of what a terminal writes back, through the public calls of `ansi_answers`. They stand in a crate above it,
//! since a crate with tests is proved twice.
#![tactic(auto)]

#[cfg(test)]
mod tests;
