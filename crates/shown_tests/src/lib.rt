//! The tests of `shown_pieces` through its public calls, in a crate above it, since a crate with tests is proved twice.
#![tactic(auto)]

#[cfg(test)]
mod tests;
