//! Addresses in the text of a stream as links: a performer that hands on what another one writes as HTML.
//!
//! ```
//! let mut linking = Linking::new(HtmlWriter::new(styling, output));
//! parser.advance_texts(&mut linking, b"see https://example.org/a.");
//! // see <a … href="https://example.org/a" …>https://example.org/a</a>.
//! ```
#![tactic(auto)]

mod address;
mod colon;
mod held;
pub mod laws;
mod linking;
mod target;
mod writing;

pub use linking::{Linking, begin_link};
pub use writing::Resumable;
