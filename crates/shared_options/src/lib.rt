//! What the programs that show a screen, or colours, have in common as options: the size of the screen and the stream
//! that it is fed, the one file that is read, and the pages that the colours are for.
#![tactic(auto)]

mod recording;
mod scheme;
mod size;
#[cfg(test)]
mod tests;

pub use recording::{begun, screen_size};
pub use scheme::scheme_of;
pub use size::{SIZE, named_file, named_size};
