//! Keys, the mouse, a paste and the focus as the bytes that a terminal's program reads, by what it asked for.
#![tactic(auto)]

mod enhanced;
mod key;
pub mod laws;
mod legacy;
mod modes;
mod mouse;
mod paste;
mod tables;
mod taking;
mod text;

pub use ansi_modes::{Encoding, Tracking};
pub use key::{Event, Key, Modifiers, Navigation, Pad, Stroke};
pub use modes::{Flags, KeyModes};
pub use mouse::{Action, Button, Mouse, MouseText, Wheel};
pub use paste::{focus_text, put_paste};
pub use taking::TakeBytes;
pub use text::{KeyText, Sequence};
