//! Writes a stream as HTML that comes in pieces, with a state that its caller owns.
//!
//! An [`HtmlState`] says where the stream and its HTML stand; [`HtmlState::feed`] takes bytes of a
//! piece and writes their HTML into a slice, and [`HtmlState::end`] what ends it. No memory is taken,
//! and no input is refused.
//!
//! ```
//! let mut state = HtmlState::new(Styling::Inline(Scheme::Light));
//! let first = state.feed(b"\x1B[3", room);
//! let second = state.feed(b"mhi", room);
//! let end = state.end(room);
//! // 3 bytes taken and none written; 3 taken and 34 written, <span style="font-style:italic;">hi;
//! // and 7 written, </span>
//! ```
#![tactic(auto)]

mod feeding;
pub mod laws;
mod state;

pub use ansi_style::bytes::{ColorBytes, StyleBytes};
pub use feeding::{END_ROOM, LEAST_ROOM};
pub use state::{ElementBytes, HtmlState};
