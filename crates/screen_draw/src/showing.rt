//! What a screen shows at the end of a stream.
ghost use Rattle.screen_draw.specs.Showing.{ShowsToEnd, written_of};
ghost use Rattle.anstyle_parse.specs.Io.Output.{Adds};

use crate::draw;
use ansi_screen::Screen;
use anstyle_parse::io::{Fault, Output, Sink, Source, perform_texts_to_end};

/// What is written of a screen.
#[derive(Debug, Clone, Copy, PartialEq, Eq)]
pub enum Form {
    /// Its text, as [`Screen::write_text`] writes it.
    Text,
    /// The bytes that draw it, as [`draw`] writes them.
    Drawing,
}

/// Gives the screen all that the reader gives, and then writes what it shows.
///
/// `Ok` means that the reader is at its end; `Err(Fault::Read)` that a read failed, or that 2^64 - 1 reads all gave
/// bytes: then what the bytes before that lead to is written. A write that fails is kept in `output`.
pub fn show_to_end<R: Source, W: Sink>(
    reader: &mut R,
    screen: &mut Screen,
    form: Form,
    output: &mut Output<W>,
) -> Result<(), Fault>
    ensures { ShowsToEnd R.Source W.Sink form reader.old reader.new screen.old screen.new output.old output.new result }
{
    let answer = perform_texts_to_end(reader, screen);
    write(screen, form, output);
    answer
}

/// Writes what a screen shows.
fn write<W: Sink>(screen: &Screen, form: Form, output: &mut Output<W>)
    ensures { Adds W.Sink (written_of form screen.now.display) output.old output.new }
{
    match form {
        Form::Text => screen.write_text(output),
        Form::Drawing => draw(screen, output),
    }
}
