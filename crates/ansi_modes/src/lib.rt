//! What a program asks of the keys, the mouse, the cursor and the titles of its terminal.
//!
//! [`Asked`] is a performer: given to a parser it is, after any bytes, what the stream has asked for.
#![tactic(auto)]

mod asked;
mod both;
mod changes;
mod colors;
mod cursor;
pub mod fields;
mod function;
mod keys;
pub mod laws;
mod modes;
mod progress;
mod text;
mod titles;

pub use asked::Asked;
pub use both::Both;
pub use changes::Changes;
pub use colors::{Colors, Palette, Rgb};
pub use cursor::Shape;
pub use keys::KeyFlags;
pub use modes::{Encoding, Field, Modes, Switch, Tracking};
pub use progress::{Progress, ProgressState};
pub use text::{MAX_TEXT, Text};
pub use titles::{SavedTitles, Titles};
