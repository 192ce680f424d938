//! A parser of ANSI escape sequences: it cuts the bytes of a terminal stream into
//! characters, controls, escape, CSI, OSC and device control sequences, and hands each to a
//! [`Perform`] that its user writes.
//!
//! ```
//! let mut parser = Parser::<Utf8Parser>::new();
//! parser.advance_all(performer, b"\x1B[1;31mhi\x1B[0m");
//! // csi_dispatch [1;31] m, print h, print i, csi_dispatch [0] m
//! ```
//!
//! The bytes may come in any pieces, by [`Parser::advance_all`] or one by one by
//! [`Parser::advance`]: the performer receives exactly the calls of the one division of all bytes
//! into items ([`laws::headline`]). No byte is refused, and no memory is taken.
//!
//! It is the Rust crate anstyle-parse 1.0.0, in the same names, with these differences above all:
//!
//! - each function has a contract, which is proved, and each implementation of [`Perform`] and
//!   [`CharAccumulator`] states what its calls mean and writes all of them;
//! - a byte that breaks a character is not lost with it: the ground state handles it too;
//! - the text of an operating system command has at most 1024 bytes;
//! - `size_hint` of [`ParamsIter`] counts groups, not fields;
//! - [`canon`], [`io`] and [`laws`] are added, and so are `advance_all`, `is_in_char`,
//!   `is_in_string` and `is_in_sequence`.
#![tactic(auto)]

mod accumulator;
pub mod canon;
mod chunks;
mod controls;
pub mod io;
pub mod laws;
mod layout;
mod padded;
mod params;
mod parser;
mod perform;
pub mod state;
mod utf8;

pub use accumulator::{AsciiParser, CharAccumulator, DefaultCharAccumulator, Utf8Parser};
pub use layout::is_layout;
pub use padded::Padded;
pub use params::{Params, ParamsIter};
pub use parser::Parser;
pub use perform::{Perform, PerformText};
pub use utf8::Taken;
