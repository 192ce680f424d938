//! The calls of a stream that comes in pieces, as plain records, with a state that its caller owns.
//!
//! A [`StreamState`](stream_state::StreamState) says where the stream stands; [`feed`] takes bytes of a piece and
//! writes an [`Event`] for each call, and for each run of printed characters, into a slice, and what they hold,
//! as text and parameters, into another. No memory is taken, and no input is refused.
//!
//! ```
//! let mut state = StreamState::new();
//! let first = feed(&mut state, b"\x1B[3", events, room);
//! let second = feed(&mut state, b"1mhi", events, room);
//! // 3 bytes taken and none written; 4 taken, 2 events and 5 bytes written: a control sequence
//! // with the field 31, and the text hi
//! ```
#![tactic(auto)]

mod cut;
mod end_writer;
mod ends;
mod event;
mod feeding;
mod front;
pub mod laws;
mod writer;

pub use cut::may_be_cut;
pub use ends::find_ends;
pub use event::{CSI, ESC, EXECUTE, Event, HOOK, OSC, PUT, TEXT, UNHOOK};
pub use feeding::{Fed, LEAST_EVENTS, LEAST_ROOM, feed};
