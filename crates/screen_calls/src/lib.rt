//! What a screen showed, given on as the calls of a stream: so whatever converts a stream converts what was shown.
//!
//! ```
//! let rows = CallRows::new(LinkTable::new(alloc)?, LinesWriter::new(styling, output));
//! let mut shown = ShownWriter::new(Scrollable::new(alloc, 80, 24)?, rows);
//! parser.advance_all(&mut shown, b"10%\r100%\r\n");
//! // at the end the lines writer has received the prints of 1 0 0 % and a line feed: one line with its number
//! ```
#![tactic(auto)]

mod begin;
pub mod laws;
mod rows;
mod select;

pub use begin::ShowingFirst;
pub use rows::CallRows;
