//! The style of a terminal's text, and what Select Graphic Rendition (SGR) does to it.
//!
//! A [`Style`] is a [`Perform`](anstyle_parse::Perform): given to a parser, it is after each
//! byte the style that the stream has selected for what comes next.
//!
//! ```
//! let mut parser = Parser::<Utf8Parser>::new();
//! let mut style = Style::default();
//! parser.advance_all(&mut style, log);
//! style.write_codes(output);
//! // of ESC [ 1 m ESC [ 3 1 m: ESC [ 0 ; 1 ; 3 1 m
//! ```
#![tactic(auto)]

pub mod bytes;
mod codes;
pub mod laws;
mod select;
mod style;

pub use style::{Color, Hue, Style, Underline};
