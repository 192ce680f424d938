//! Laws of answers.
ghost use Rattle.std.specs.Prelude.{◌≡◌, ◌≤◌, length};
ghost use Rattle.anstyle_parse.specs.Stream.Call.{Call};
ghost use Rattle.anstyle_parse.specs.Stream.Calls.{AreCalls};
ghost use Rattle.anstyle_parse.specs.Stream.Items.{EachIs};
ghost use Rattle.ansi_style.specs.declared.style.Style.{Style as AStyle};
ghost use Rattle.ansi_style.specs.Style.{HasBytes};
ghost use Rattle.ansi_style.specs.Rendition.{selected};
ghost use Rattle.ansi_style.specs.Codes.{codes_of};
ghost use Rattle.ansi_answers.specs.Text.{answer_text};
ghost use Rattle.ansi_answers.specs.Calls.{is_answer_byte, answer_calls, IsBounded};
ghost use Rattle.ansi_answers.specs.Laws.{answer_to, HasSameNumbers};

use crate::answer::{Answer, MAX_ANSWER};
use crate::color::Theme;
use crate::facts::Facts;
use crate::request::Request;
use ansi_modes::Asked;
use ansi_style::{Color, Style};

/// An answer has ESC, BEL and printed ASCII alone, and at most so many bytes. Our own parser reads it as one control
/// sequence, one device control string or one command, which has its numbers.
pub fn form(answer: Answer)
    ensures bytes { EachIs is_answer_byte (answer_text answer) }
    ensures bound { length (answer_text answer) ≤ MAX_ANSWER }
    ensures read { AreCalls (answer_text answer) (answer_calls answer) }
{
    bounded(answer);
}

/// The numbers of a colour are bytes.
fn bounded_color(color: Color)
    ensures { HasBytes color }
{
    match color {
        Color::Default => {}
        Color::Named(_) => {}
        Color::Bright(_) => {}
        Color::Indexed(_) => {}
        Color::Direct(_, _, _) => {}
    }
}

/// Those of a style are.
fn bounded_style(style: Style)
    ensures foreground { HasBytes style.foreground }
    ensures background { HasBytes style.background }
{
    bounded_color(style.foreground);
    bounded_color(style.background);
}

/// A style that is told, and sent back as SGR, is selected, whatever was selected before.
pub fn selects(style: Style)
    ensures { (before : AStyle) → selected (codes_of style) before ≡ style }
{
    bounded_style(style);
}

/// The numbers of an answer are within the bounds of their types.
fn bounded(answer: Answer)
    ensures { IsBounded answer }
{
    match answer {
        Answer::CursorPosition { row: _, column: _ } => {}
        Answer::ExtendedPosition { row: _, column: _ } => {}
        Answer::Mode {
            number: _,
            state: _,
        } => {}
        Answer::PrivateMode {
            number: _,
            state: _,
        } => {}
        Answer::Rendition(style) => bounded_style(style),
        Answer::Margins { top: _, bottom: _ } => {}
        Answer::CursorShape(_) => {}
        Answer::Size {
            rows: _,
            columns: _,
        } => {}
        Answer::KeyFlags(_) => {}
        Answer::PaletteColor {
            index: _,
            color: _,
            bell: _,
        } => {}
        Answer::PaintColor {
            paint: _,
            color: _,
            bell: _,
        } => {}
        _ => {}
    }
}

/// An answer goes by modes, shape, flags of keys and colours alone: whatever titles, the folder or the progress are, it is
/// the same. (Of a screen it has numbers alone, `Facts`.)
pub fn blind()
    ensures { (call : Call) (request : Request) (facts : Facts) (first second : Asked) (theme : Theme)
        → HasSameNumbers first second
        → answer_to call request facts first theme ≡ answer_to call request facts second theme }
{}
