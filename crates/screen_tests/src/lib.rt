//! The tests of the screen, and of the libraries that show, draw and hand it out, through their public calls. They
//! stand in a crate above them, since a crate with tests is proved twice.
#![tactic(auto)]

#[cfg(test)]
mod tests;
