//! The tests of what a stream asks for, through the public calls of `ansi_modes`. They stand in a crate above it, since a
//! crate with tests is proved twice.
#![tactic(auto)]

#[cfg(test)]
mod tests;
