//! A screen that answers the program that it shows.
//!
//! An [`Answering`] is a performer: after each call it has what a terminal would have written back by then.
#![tactic(auto)]

mod answering;
pub mod laws;

pub use answering::{Answering, facts_of};
