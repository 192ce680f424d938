//! A terminal's screen that takes its stream in pieces, and its cells as plain records.
//!
//! A [`Terminal`] is a parser and the screen that it leads to. [`Terminal::feed`] takes the next bytes, cut anywhere.
//! What it shows is read as records of plain bytes, of which any are valid, and as text.
#![tactic(auto)]

mod answers;
mod cell;
mod drawing;
mod keeping;
mod keys;
pub mod laws;
mod lines;
mod modes;
mod page;
mod palette;
mod parts;
mod picture;
mod reading;
mod same;
mod style;
mod telling;
mod terminal;
mod text;

pub use ansi_style::bytes::{ColorBytes, StyleBytes};
pub use answers::{RgbBytes, ThemeBytes};
pub use cell::{CellBytes, RESERVED_CELL};
pub use keys::{KeyBytes, MouseBytes};
pub use modes::{ModeBytes, RESERVED_MODES};
pub use palette::color_rgb;
pub use parts::{PlaceBytes, RESERVED_PLACE};
pub use picture::{PictureBytes, RESERVED_PICTURE};
pub use style::{RESERVED_STYLE, StyleRecord};
pub use terminal::Terminal;
