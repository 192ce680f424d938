//! Parsers written down.
ghost use Rattle.std.specs.Prelude.{◌≡◌, ◌≤◌, ◌++◌, ◌∷◌, [], ℕ, List, OnOk, length, map, drop, if◌then◌else◌};
ghost use Rattle.std.specs.List.{flat_map};
ghost use Rattle.anstyle_parse.specs.Stream.Bytes.{semicolon};
ghost use Rattle.anstyle_parse.specs.Stream.Groups.{total, cut};
ghost use Rattle.anstyle_parse.specs.Stream.Canon.{escape_text};
ghost use Rattle.anstyle_parse.specs.Laws.Checkpoint.{max_checkpoint, checkpoint_text, last_separator, number_so_far, header_so_far, command_text};
ghost use Rattle.anstyle_parse.specs.Views.Accumulator.{front_of};
ghost use Rattle.anstyle_parse.specs.Views.Front.{bytes_of};
ghost use Rattle.anstyle_parse.specs.Io.Output.{Adds, Writes, Causes};
ghost use Rattle.anstyle_parse.specs.Views.Params.{closed_groups_of, open_group_of};
ghost use Rattle.anstyle_parse.specs.Views.Parser.{machine_of, IsAfter};
ghost use Rattle.anstyle_parse.specs.Machine.Stands.{seen};

use super::parts::{split_marker, text_if};
use crate::io::{Fault, Output, Sink};
use crate::params::Params;
use crate::parser::Parser;
use crate::state::State;
use crate::utf8::Front;

/// The bytes that the text of a [`checkpoint`] has at most.
pub const MAX_CHECKPOINT: usize = 1042;

/// Writes a text after which a new parser stands where this one stands, and flushes the
/// writer once.
///
/// So a parser can be saved and resumed elsewhere: a multiplexer writes it down, and a new
/// parser that takes the text goes on exactly as this one, whatever bytes come. The text has
/// at most [`MAX_CHECKPOINT`] bytes, however many bytes this parser took; a new parser may make calls of
/// it, which belong to none of the bytes that come. Which of these texts it is, is not
/// promised.
///
/// The condition is that the parser stands after some list of bytes, as each does that was
/// made by `new` or `default` and took any bytes. The writer is handed back whatever the
/// answer is. A write that fails is [`Fault::Write`], after which nothing is written or
/// flushed; a flush that fails is [`Fault::Flush`].
pub fn checkpoint<W: Sink>(parser: &Parser, writer: W) -> (W, Result<(), Fault>)
    requires { (before : List ℕ) × IsAfter front_of parser.now before }

    // A text after which the parser stands is written, or a proper prefix of one.
    ensures written { (text : List ℕ) × IsAfter front_of parser.now text
        × (length text ≤ max_checkpoint)
        × Writes text (W.contents writer) (W.contents result.0) result.1 }

    // With Ok nothing of it is held back.
    ensures handed_on { OnOk result.1 (W.holds_nothing result.0) }

    // Only a writer that fails is a reason for a fault.
    ensures causes { Causes (W.has_failed writer) (W.has_failed result.0) result.1 }
{
    let mut output = Output::new(writer);
    put_checkpoint(&mut output, parser);
    output.finish()
}

/// Writes the checkpoint's text: by the state, what counts of the parser.
fn put_checkpoint<W: Sink>(output: &mut Output<W>, parser: &Parser)
    ensures { Adds W.Sink (checkpoint_text (seen front_of (machine_of parser.now))) output.old output.new }
{
    match parser.state() {
        State::Ground | State::Anywhere => {}
        State::Utf8 => put_begun_character(output, parser.accumulator().front()),
        State::Escape => output.put(b"\x1B"),
        State::EscapeIntermediate => {
            output.put(b"\x1B");
            output.put(parser.collected());
            output.put(text_if(parser.is_ignoring(), b" "));
        }
        State::CsiEntry => output.put(b"\x1B["),
        State::CsiParam | State::CsiIntermediate => {
            output.put(b"\x1B[");
            put_header(output, parser);
        }
        State::CsiIgnore => output.put(b"\x1B[0<"),
        State::DcsEntry => output.put(b"\x1BP"),
        State::DcsParam | State::DcsIntermediate => {
            output.put(b"\x1BP");
            put_header(output, parser);
        }
        State::DcsIgnore => output.put(b"\x1BP0<"),
        State::DcsPassthrough => output.put(b"\x1BP@"),
        State::OscString => {
            output.put(b"\x1B]");
            let (text, lengths) = parser.command();
            put_command(output, text, lengths);
        }
        State::SosPmApcString => output.put(b"\x1BX"),
    }
}

/// Writes the bytes of a character that is begun.
fn put_begun_character<W: Sink>(output: &mut Output<W>, front: Front)
    ensures { Adds W.Sink (bytes_of front) output.old output.new }
{
    match front {
        Front::Empty => {}
        Front::One(a) => output.put(&[a]),
        Front::Two(a, b) => output.put(&[a, b]),
        Front::Three(a, b, c) => output.put(&[a, b, c]),
    }
}

/// Writes a header: the marker, the fields, the number and the other intermediates.
fn put_header<W: Sink>(output: &mut Output<W>, parser: &Parser)
    ensures { Adds W.Sink (header_so_far (machine_of parser.now)) output.old output.new }
{
    let (marker, others) = split_marker(parser.collected());
    let params = parser.params();
    output.put(marker);
    output.put_groups(params);
    output.put(separator_after(params));
    if params.is_full() {
        output.put(text_if(parser.is_ignoring(), b";"));
        output.put(others);
    } else {
        output.put_decimal(parser.number());
        output.put(others);
        output.put(text_if(parser.is_ignoring(), b" "));
    }
}

/// What stored the last field: `:` where its group is open, else `;`.
fn separator_after(params: &Params) -> &'static [u8]
    ensures { result.now ≡ last_separator (closed_groups_of params.now) (open_group_of params.now) }
{
    if params.is_open() {
        b":"
    } else if params.is_empty() {
        b""
    } else {
        b";"
    }
}

/// Writes the text of an operating system command, with `;` after each closed part.
fn put_command<W: Sink>(output: &mut Output<W>, text: &[u8], lengths: &[usize])
    requires { total lengths.now ≤ length text.now }
    ensures { Adds W.Sink (command_text (cut lengths.now text.now) (drop (total lengths.now) text.now))
        output.old output.new }
{
    let mut rest = text;
    for length in lengths {
        let (part, behind) = rest.split_at(*length);
        output.put(part);
        output.put(b";");
        rest = behind;
    }
    output.put(rest);
}
