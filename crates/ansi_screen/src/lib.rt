//! A terminal's screen: what xterm shows after any bytes, as far as cells, styles, the cursor
//! and modes go.
//!
//! A [`Screen`] is a [`Perform`](anstyle_parse::Perform): given to a parser, it is after each
//! byte what the definition in `specs/After.antt` says of the whole stream.
#![tactic(auto)]

mod cell;
mod covered;
mod damage;
mod display;
mod function;
mod grid;
mod history;
pub mod laws;
mod leaving;
mod memory;
mod parts;
mod place;
mod printed;
mod row;
mod runs;
mod screen;
mod size;
mod tabs;
mod text;
mod texts;
mod width;

pub use cell::{Cell, Marks, Part};
pub use history::History;
pub use leaving::{Scrollable, Scrolling, TakeCommand, TakeRow};
pub use place::{Charsets, Place};
pub use runs::goes_on;
pub use screen::Screen;
pub use size::{MAX_COLUMNS, MAX_ROWS, MIN_COLUMNS, MIN_ROWS, Size};
pub use text::{LeftOut, is_ascii_alone, put_cells, used, used_of_written};
pub use width::is_shown;
