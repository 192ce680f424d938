//! Readers and writers that say what passed and whether they failed, the writing that
//! performers share, and whole runs from a reader through a new parser to a writer.
mod buffer;
mod devices;
mod engine;
mod held;
mod output;
mod texts;

pub use buffer::Buffer;
pub use devices::{FromRead, FromWrite, Sink, Source};
pub use engine::{
    CallWriter, Stop, WritingPerformer, drive, perform_to_end, write_calls, write_calls_between,
    write_calls_by,
};
pub use output::Output;
pub use texts::perform_texts_to_end;

/// What went wrong with a reader or a writer.
#[derive(Debug, Clone, Copy, PartialEq, Eq)]
pub enum Fault {
    /// A read failed.
    Read,
    /// A write failed, or took none of some bytes.
    Write,
    /// A flush failed.
    Flush,
}
