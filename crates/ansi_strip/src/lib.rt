//! Strips a stream of its escapes: what is left is the text that it prints, with its tabs,
//! line feeds and carriage returns. [`strip_inert`] also leaves the characters out that terminals take for controls.
//!
//! ```
//! let mut reader = FromRead::new(log);
//! let (writer, answer) = strip(&mut reader, FromWrite::new(Vec::new(alloc)));
//! // of ESC [ 3 1 m h i: h i
//! ```
#![tactic(auto)]

ghost use Rattle.std.specs.Prelude.{OnOk};
ghost use Rattle.anstyle_parse.specs.Io.Run.{Runs};
ghost use Rattle.ansi_strip.specs.Inert.{inert_text};
ghost use Rattle.ansi_strip.specs.Strip.{stripped};

mod clear;
mod driving;
mod inert;
pub mod laws;
mod line_feeds;
mod performer;
mod returns;

use anstyle_parse::io::{Fault, Sink, Source, write_calls};
pub use anstyle_parse::is_layout;
pub use clear::{is_clear, is_clear_padded};
pub use driving::{is_driving, split_at_driving};
pub use inert::Inert;
pub use line_feeds::LineFeeds;
pub use performer::Stripper;

/// Writes the stripped text of all bytes that the reader gives: each printed character in
/// UTF-8, and of the controls tab (09), line feed (0A) and carriage return (0D), inside an escape
/// or control sequence too. Such sequences, commands as titles and links, device control strings
/// with all that is in them, and the other controls below 20 leave nothing. DEL (7F) and the characters U+0080 to
/// U+009F count as printed. A character that is broken is printed as U+FFFD; bytes that begin no
/// character leave nothing, and so does a character or a sequence that is begun where the bytes end.
///
/// The bytes are read in pieces of at most 4096; no memory is taken. The writer is always
/// handed back. The answer is
///
/// - `Ok(())` where a read gave 0, and the flush that followed went well;
/// - `Err(Fault::Flush)` where that flush failed;
/// - `Err(Fault::Read)` where a read failed, or 2^64 - 1 reads all gave bytes: the stripped
///   text of the bytes read by then is written, and the writer is flushed once, whatever that
///   answers;
/// - `Err(Fault::Write)` where a write failed: what is written is a proper prefix of the
///   stripped text, and nothing was read or written after the fault.
///
/// What was stripped, stripped again, is itself ([`laws::stripped_twice`]). It is UTF-8
/// ([`laws::stripped_utf8`]), and clean text is left as it is ([`laws::clean_text`]).
pub fn strip<R: Source, W: Sink>(reader: &mut R, writer: W) -> (W, Result<(), Fault>)
    ensures runs { Runs R.Source W.Sink stripped reader.old reader.new writer result }

    // With Ok nothing of it is held back.
    ensures handed_on { OnOk result.1 (W.holds_nothing result.0) }
{
    write_calls::<Stripper<W>, R, W>(reader, writer)
}

/// The same without DEL and U+0080 to U+009F, which terminals take for controls: text that drives no terminal
/// ([`laws::drives_nothing`]).
///
/// It is read and written as [`strip`] does it, with the same answers. What was so stripped is itself again
/// ([`laws::inert_twice`]). It is UTF-8 of inert characters alone ([`laws::inert_utf8`]), and such text is left as it
/// is ([`laws::inert_clean_text`]).
pub fn strip_inert<R: Source, W: Sink>(reader: &mut R, writer: W) -> (W, Result<(), Fault>)
    ensures runs { Runs R.Source W.Sink inert_text reader.old reader.new writer result }

    // With Ok nothing of it is held back.
    ensures handed_on { OnOk result.1 (W.holds_nothing result.0) }
{
    write_calls::<Inert<Stripper<W>>, R, W>(reader, writer)
}
