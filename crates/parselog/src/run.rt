//! From a reader to a writer: the bytes, their calls, the text of the calls.
ghost use Rattle.std.specs.Prelude.{◌≡◌, OnOk};
ghost use Rattle.anstyle_parse.specs.Io.Run.{Runs};
ghost use Rattle.parselog.specs.Run.{Normalises, text_of};

use crate::log::LogWriter;
use anstyle_parse::canon::CanonWriter;
use anstyle_parse::io::{Fault, Sink, Source, write_calls};

/// Which text is written of the calls.
#[derive(Debug, Clone, Copy, PartialEq, Eq)]
pub enum Mode {
    /// A line for each call.
    Log,
    /// The canonical text of the calls, which makes the same calls again.
    Canon,
}

impl Mode {
    ghost use Rattle.std.specs.Prelude.{IsTrue, ◌↔◌};

    /// Law: `==` holds exactly between equal modes.
    pub fn equality_law()
        ensures { (a b : Mode) → (IsTrue (⟦<Mode as PartialEq>⟧.eq a b) ↔ (a ≡ b)) }
    {}
}

/// Writes the text of the calls of all bytes that the reader gives.
///
/// The bytes are read in pieces of at most 4096 and go to a new parser; no memory is taken.
/// The writer is always handed back. The answer is
///
/// - `Ok(())` where a read gave 0, and the flush that followed went well;
/// - `Err(Fault::Flush)` where that flush failed;
/// - `Err(Fault::Read)` where a read failed, or 2^64 - 1 reads all gave bytes: the text of
///   the bytes read by then is written, and the writer is flushed once, whatever that
///   answers;
/// - `Err(Fault::Write)` where a write failed: what is written is a proper prefix of the
///   text, and nothing was read or written after the fault.
pub fn run<R: Source, W: Sink>(mode: Mode, reader: &mut R, writer: W) -> (W, Result<(), Fault>)
    ensures runs { Runs R.Source W.Sink (text_of mode) reader.old reader.new writer result }

    // With Ok nothing of it is held back.
    ensures handed_on { OnOk result.1 (W.holds_nothing result.0) }

    // What mode canon writes makes the calls of what was read.
    ensures normalises { mode ≡ Mode.Canon
        → Normalises R.Source W.Sink reader.old reader.new writer result }
{
    match mode {
        Mode::Log => write_calls::<LogWriter<W>, R, W>(reader, writer),
        Mode::Canon => write_calls::<CanonWriter<W>, R, W>(reader, writer),
    }
}
