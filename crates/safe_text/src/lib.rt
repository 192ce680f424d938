//! Writes a stream as text that is safe to show: without its escapes, and without characters that hide text or
//! turn its order round. What shows nothing is written visibly, as `<U+202E>`, and text that is drawn hidden is marked.
//!
//! ```
//! let mut reader = FromRead::new(log);
//! let (writer, answer) = write_safe(&mut reader, FromWrite::new(Vec::new(alloc)));
//! // of a U+202E ESC [ 3 1 m b: a < U + 2 0 2 E > b
//! ```
#![tactic(auto)]

ghost use Rattle.std.specs.Prelude.{OnOk};
ghost use Rattle.anstyle_parse.specs.Io.Run.{RunsToEnding};
ghost use Rattle.safe_text.specs.Marks.{decided_marked, undecided_marked};

mod classes;
mod held;
pub mod laws;
mod marking;
mod performer;
mod plain;
mod unseen;

use anstyle_parse::io::{Fault, Sink, Source, write_calls};
pub use classes::is_shown;
pub use held::Held;
pub use marking::{MarkedStanding, MarkingWriter};
pub use performer::{SafeWriter, Standing};
pub use unseen::is_unseen;

/// Writes the safe text of all bytes that the reader gives: of their calls, each character that is printed and each
/// control that is executed, in UTF-8. Escape and control sequences, titles, links and device control strings leave
/// nothing, as with `ansi_strip`.
///
/// - LF (0A), VT (0B) and FF (0C) are a line feed; a carriage return (0D) before LF goes.
/// - A character that shows or is blank is left ([`is_shown`]). So is a zero-width space, joiner or non-joiner, or an
///   emoji's variation selector, but only where an emoji or a script needs it, by its neighbours
///   (`specs/Classes.antt`).
/// - Each other one is written visibly, as `less` does: `<U+`, its number in base 16, `>`. So is the `<` of a
///   `<U+` that stands in the stream.
/// - Between `<U+hidden>` and `<U+shown>` stands text that is drawn and not seen ([`is_unseen`]): what Select Graphic
///   Rendition hides, and what has the colour of its ground.
///
/// The bytes are read in pieces of at most 4096; no memory is taken. The writer is always
/// handed back. The answer is
///
/// - `Ok(())` where a read gave 0, and the flush that followed went well;
/// - `Err(Fault::Flush)` where that flush failed;
/// - `Err(Fault::Read)` where a read failed, or 2^64 - 1 reads all gave bytes: the text of the bytes read by then
///   is written, as far as the writer takes what waited, and then the writer is flushed once, whatever that answers;
/// - `Err(Fault::Write)` where a write failed: what is written is a proper prefix of the safe text, and nothing was
///   read or written after the fault.
///
/// What is decided as characters come and what waits for the next one are the safe text ([`laws::whole`]). Each
/// character of it is of the class ([`laws::of_the_class`]), it names the characters of the stream and the marks
/// ([`laws::read_back`], [`laws::marks`]), and safe text is left as it is ([`laws::safe_stays`]).
pub fn write_safe<R: Source, W: Sink>(reader: &mut R, writer: W) -> (W, Result<(), Fault>)
    ensures runs { RunsToEnding R.Source W.Sink decided_marked undecided_marked
        reader.old reader.new writer result }

    // With Ok nothing of it is held back.
    ensures handed_on { OnOk result.1 (W.holds_nothing result.0) }
{
    write_calls::<MarkingWriter<W>, R, W>(reader, writer)
}
