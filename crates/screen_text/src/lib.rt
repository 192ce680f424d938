//! What a terminal showed: the lines of all that left its screen and of what still shows, as text.
#![tactic(auto)]

ghost use Rattle.std.specs.Prelude.{OnOk};
ghost use Rattle.anstyle_parse.specs.Io.Run.{RunsToEnding};
ghost use Rattle.screen_text.specs.Shown.{left_text, ending_text};

pub mod laws;
mod option;
mod performer;
mod recording;
mod rows;

use ansi_screen::Scrollable;
use anstyle_parse::io::{Fault, Output, Sink, Source, write_calls_by};
pub use option::{NoSize, SHOWN, screen_size};
pub use performer::ShownWriter;
pub use recording::{ShownSize, recorded};
pub use rows::{TextRows, WriteRows};

/// Writes what a screen showed of all bytes that the reader gives, in UTF-8: each row of the main screen as it scrolls
/// off at the top, or is erased with all of it (ED, RIS), and at the end the rows that still show; where the
/// alternate screen shows then, those of the main screen first.
///
/// A row that autowrap left and the next one are one line. Cells at a row's end where nothing was printed, or
/// what was is erased, are left out, and so are rows of such cells at the end. A line feed begins a new line, as
/// where a terminal's line puts a carriage return before it.
///
/// The stream may begin on any screen: [`Scrollable::of`] makes room for rows that leave it, which takes memory. Here the
/// bytes are read in pieces of at most 4096 and go to a new parser; no memory is taken. The writer is
/// always handed back. The answer is that of [`write_calls_by`].
pub fn write_shown<R: Source, W: Sink>(
    screen: Scrollable,
    reader: &mut R,
    writer: W,
) -> (W, Result<(), Fault>)
    ensures runs { RunsToEnding R.Source W.Sink (left_text screen) (ending_text screen)
        reader.old reader.new writer result }

    // With Ok nothing of it is held back.
    ensures handed_on { OnOk result.1 (W.holds_nothing result.0) }
{
    let rows = TextRows::new(Output::new(writer));
    write_calls_by(ShownWriter::new(screen, rows), reader, b"")
}
