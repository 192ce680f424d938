//! Code as users write it. docs/USING.md shows `plain_text`, `counter`, `call_counter`
//! and `last_style`, word for word.
#![tactic(auto)]

mod call_counter;
mod canonical_text;
mod coloured_text;
mod counter;
mod first_calls;
mod last_style;
mod plain_text;
mod quiet;
mod two_pieces;

pub use call_counter::calls_made;
pub use canonical_text::canonical;
pub use coloured_text::html;
pub use counter::printed;
pub use first_calls::make_first_calls;
pub use last_style::write_last_style;
pub use plain_text::plain;
pub use quiet::{Quiet, stay_quiet};
pub use two_pieces::strip_two_pieces;
