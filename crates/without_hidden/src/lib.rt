//! Leaves out the text that Select Graphic Rendition hides (8), such as the notes that Jenkins writes into its logs,
//! whatever writes the rest.
//!
//! ```
//! let mut performer = WithoutHidden::new(performer);
//! parser.advance_all(&mut performer, b"a\x1B[8mb\x1B[28mc");
//! // the performer's print is called for a and for c, and its csi_dispatch for both sequences
//! ```
#![tactic(auto)]

mod begin;
pub mod laws;
mod performer;

pub use begin::LeavingOut;
pub use performer::WithoutHidden;
