//! A log that comes in pieces, or what a screen showed of it: as text, as safe text or as HTML, in memory.
//!
//! ```
//! let mut log = ShownLog::new(alloc, Some(ShownSize::Recorded), How::of(Form::Text));
//! log.feed(b" 10%\r 50");
//! log.feed(b"%\r100%\n");
//! log.end();
//! // log.text() is 1 0 0 % and a line feed
//! ```
#![tactic(auto)]

mod converted;
mod following;
mod how;
mod html;
mod log;
mod numbers;
mod running;
mod stage;
mod whole;

pub use following::Memory;
pub use how::{Form, How};
pub use log::ShownLog;
pub use numbers::{form_at, screen_at, size_at};
