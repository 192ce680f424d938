//! Canonical texts, from which a parser makes the calls again, and parsers written down.
//!
//! ```
//! let mut reader = FromRead::new(log);
//! let writer = FromWrite::new(Vec::new(alloc));
//! let (writer, answer) = write_calls::<CanonWriter<_>, _, _>(&mut reader, writer);
//! // of ESC [ 0 1 m h i: ESC [ 1 m h i
//! ```
//!
//! It hands on what [`io`](crate::io) has: readers, writers and runs from one to the other.
mod checkpoints;
mod parts;
mod writer;

pub use crate::io::{
    Buffer, CallWriter, Fault, FromRead, FromWrite, Output, Sink, Source, Stop, WritingPerformer,
    drive, perform_to_end, write_calls, write_calls_between, write_calls_by,
};
pub use checkpoints::{MAX_CHECKPOINT, checkpoint};
pub use writer::CanonWriter;
