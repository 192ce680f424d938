//! Where a stream that comes in pieces stands between two of them, in plain bytes that its caller owns.
//!
//! A [`StreamState`] makes a parser that stands there ([`StreamState::resume`]), and stands where a parser stands
//! ([`StreamState::save`]). [`Fed`] says what a call with a piece took and wrote; [`LentBytes`], [`put_at_start`]
//! and [`put_over`] write into memory that is lent to such a call.
#![tactic(auto)]

mod bounded_sink;
mod fed;
mod front;
pub mod laws;
mod saved;
mod state;

pub use bounded_sink::{LentBytes, put_at_start};
pub use fed::Fed;
pub use front::put_over;
pub use state::{StreamState, print_end};
