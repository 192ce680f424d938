//! Bytes of one kind, which are looked for by sixteen at once.
//!
//! A [`Kind`] tells of a byte whether it is one of them, and of sixteen which are not. [`after_front`] gives what comes
//! after those at the front of some bytes, and [`from_first`] what begins at the first of them. Of an [`AsciiKind`]
//! [`split_front`] and [`split_others`] cut texts at these places.
#![tactic(auto)]

mod front;
mod kind;
mod text;

pub use front::{after_front, from_first};
pub use kind::{AsciiKind, CHUNK, Kind};
pub use text::{split_front, split_others};
