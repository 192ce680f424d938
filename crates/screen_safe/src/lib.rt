//! What a terminal showed as safe text: the lines of all that scrolled off its screen and of what still shows, with
//! what shows nothing written visibly.
//!
//! ```
//! let screen = Scrollable::new(alloc, 80, 24)?;
//! let mut reader = FromRead::new(recording);
//! let (writer, answer) = write_safe_shown(screen, &mut reader, FromWrite::new(Vec::new(alloc)));
//! // of 1 0 % CR a U+202E b LF: a < U + 2 0 2 E > b, a line feed
//! ```
#![tactic(auto)]

ghost use Rattle.std.specs.Prelude.{OnOk};
ghost use Rattle.anstyle_parse.specs.Io.Run.{RunsToEnding};
ghost use Rattle.screen_safe.specs.Shown.{safe_left, safe_ending};

pub mod laws;
mod rows;

use ansi_screen::Scrollable;
use anstyle_parse::io::{Fault, Output, Sink, Source, write_calls_by};
pub use rows::SafeRows;
use screen_text::ShownWriter;

/// Writes what a screen showed of all bytes that the reader gives, as [`screen_text::write_shown`] does, but as safe
/// text: of the characters that this writes, each that shows or is blank is left, a joiner where it stays, and each
/// other one is written visibly, as [`safe_text::write_safe`] has it.
///
/// The bytes are read in pieces of at most 4096 and go to a new parser; no memory is taken. The writer is
/// always handed back. The answer is that of [`write_calls_by`].
pub fn write_safe_shown<R: Source, W: Sink>(
    screen: Scrollable,
    reader: &mut R,
    writer: W,
) -> (W, Result<(), Fault>)
    ensures runs { RunsToEnding R.Source W.Sink (safe_left screen) (safe_ending screen)
        reader.old reader.new writer result }

    // With Ok nothing of it is held back.
    ensures handed_on { OnOk result.1 (W.holds_nothing result.0) }
{
    let rows = SafeRows::new(Output::new(writer));
    write_calls_by(ShownWriter::new(screen, rows), reader, b"")
}
