//! The tests of the libraries above `anstyle_parse` but for those of the screen, and of what programs share, through
//! their public calls. They stand in a crate above them, since a crate with tests is proved twice.
#![tactic(auto)]

#[cfg(test)]
mod tests;
