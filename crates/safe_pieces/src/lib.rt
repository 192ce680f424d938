//! Writes a stream as safe text that comes in pieces, with a state that its caller owns: what `ansi2text --safe` writes
//! of the whole.
//!
//! A [`SafeState`] says where the stream and its safe text stand; [`SafeState::feed`] takes bytes of a piece and writes
//! their safe text into a slice, and [`SafeState::end`] what still waits. No memory is taken, and no input is refused.
//!
//! ```
//! let mut state = SafeState::new();
//! let first = state.feed("a\u{202E}<".as_bytes(), room);
//! let second = state.feed(b"\x1B[1mb", room);
//! // 5 bytes taken and 9 written, a<U+202E>; 5 taken and 2 written, <b
//! ```
#![tactic(auto)]

mod feeding;
pub mod laws;
mod state;

pub use feeding::{END_ROOM, LEAST_ROOM};
pub use state::SafeState;
