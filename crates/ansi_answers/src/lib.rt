//! What a terminal writes back to the program that it shows.
//!
//! An [`Answer`] is made of numbers. [`answer_to_sequence`], [`answer_to_command`] and [`Request`] say which call has
//! which answer.
#![tactic(auto)]

mod answer;
mod bytes;
mod color;
mod facts;
pub mod laws;
mod rendition;
mod request;
mod sequence;
mod waiting;

pub use answer::{Answer, MAX_ANSWER, ModeState, Paint};
pub use color::{Theme, answer_to_command};
pub use facts::Facts;
pub use request::Request;
pub use sequence::{answer_to_sequence, may_be_answered};
pub use waiting::{MAX_WAITING, Waiting};
