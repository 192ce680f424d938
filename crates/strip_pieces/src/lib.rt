//! Strips a stream of its escapes that comes in pieces, with a state that its caller owns. Its text drives no terminal.
//!
//! A [`StreamState`](stream_state::StreamState) says where the stream stands; [`feed`] takes bytes of a piece
//! and writes their text into a slice, and [`end`] what the end leads to. No memory is taken, and no input
//! is refused. After that a [`LineState`] can drop each carriage return right before a line feed.
//!
//! ```
//! let mut state = StreamState::new();
//! let first = feed(&mut state, b"\x1B[3", room);
//! let second = feed(&mut state, b"1mhi", room);
//! // 3 bytes taken and none written; 4 taken and 2 written, h i
//! ```
#![tactic(auto)]

mod feeding;
pub mod laws;
mod lines;
mod slice_writer;

pub use feeding::{END_ROOM, LEAST_ROOM, end, feed};
pub use lines::{LEAST_LINE_ROOM, LINE_END_ROOM, LineState};
