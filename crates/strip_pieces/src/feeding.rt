//! A piece of a stream, and its end.
ghost use Rattle.std.specs.Prelude.{◌≡◌, ◌≤◌, ◌+◌, ℕ, List, length, IfSome, IfNone};
ghost use Rattle.anstyle_parse.specs.Machine.AsRead.{as_read};
ghost use Rattle.anstyle_parse.specs.Views.Accumulator.{front_of};
ghost use Rattle.anstyle_parse.specs.Views.Parser.{IsAfter};
ghost use Rattle.strip_pieces.specs.Feed.{least_room, most_text, Feeds, IsTaken, Refuses, Ends, RefusesEnd};

use crate::slice_writer::SliceWriter;
use anstyle_parse::{Parser, Utf8Parser};
use stream_state::{Fed, StreamState, put_at_start};

/// U+FFFD.
const REPLACEMENT: [u8; 3] = [0xEF, 0xBF, 0xBD];

/// The bytes of text at most that each byte of a piece leads to.
const TEXT_OF_A_BYTE: usize = REPLACEMENT.len();

/// The bytes of text that a character leads to that was begun before, where a piece breaks it.
const TEXT_OF_THE_BEGUN: usize = REPLACEMENT.len();

/// The bytes of room with which a stream always goes on: six, for what one byte may lead to.
pub const LEAST_ROOM: usize = TEXT_OF_A_BYTE + TEXT_OF_THE_BEGUN;

/// The bytes of room that the end of a stream needs.
pub const END_ROOM: usize = TEXT_OF_THE_BEGUN;

/// Takes bytes from the front of the piece, and writes their inert text to the front of the room: the text that
/// [`strip_inert`](ansi_strip::strip_inert) writes of what is read of them, as of a log
/// ([`advance_log`](anstyle_parse::Parser::advance_log)). It drives no terminal.
///
/// With `Some` all of their text is written, and the state stands after all bytes so far.
/// All of the piece is taken, unless less than [`LEAST_ROOM`] is left of the room; with that
/// much at least one byte is taken, and with three bytes of room for each byte of the piece,
/// and three more, all of them are. The text is UTF-8 by itself. Past it the room is as it was.
///
/// With `None` the piece is not empty and the room is below [`LEAST_ROOM`]: then nothing
/// was done.
pub fn feed(state: &mut StreamState, piece: &[u8], room: &mut [u8]) -> Option<Fed>
    ensures fed { IfSome result (λ fed. Feeds state.old state.new piece.now room.old room.new fed.taken fed.written) }
    ensures refused { IfNone result (Refuses state.old state.new piece.now room.old room.new) }
{
    if room.len() < LEAST_ROOM && !piece.is_empty() {
        return None;
    }
    let mut parser = Parser::<Utf8Parser>::new();
    state.resume_in(&mut parser);
    let mut text = SliceWriter::new(room);
    let taken = take(&mut parser, piece, &mut text);
    let written = text.written();
    state.save(&parser);
    Some(Fed { taken, written })
}

/// Ends the stream: where a character is begun, which can't be whole any more, writes U+FFFD to the front of the room.
/// Answers how many bytes are written. The state then begins a stream. Past them the room is as it was.
///
/// With `None` the room is below [`END_ROOM`]: then nothing was done.
pub fn end(state: &mut StreamState, room: &mut [u8]) -> Option<usize>
    ensures ended { IfSome result (λ written. Ends state.old state.new room.old room.new written) }
    ensures refused { IfNone result (RefusesEnd state.old state.new room.old room.new) }
{
    if room.len() < END_ROOM {
        return None;
    }
    let is_begun = state.is_in_char();
    *state = StreamState::new();
    if is_begun {
        Some(put_at_start(room, &REPLACEMENT))
    } else {
        Some(0)
    }
}

/// Gives bytes of the piece to the parser for as long as there is room for what they may lead
/// to, and answers how many.
fn take(parser: &mut Parser, piece: &[u8], room: &mut SliceWriter) -> usize
    requires room { room.old.written ≤ length room.old.into.now }
    requires stands { (before : List ℕ) × IsAfter front_of parser.old (as_read before) }
    ensures same_reference { room.new.into.ghost_name ≡ room.old.into.ghost_name }
    ensures taken { IsTaken parser.old parser.new piece.now room.old room.new result }
    ensures all { room.new.written + least_room ≤ length room.new.into.now
        → result ≡ length piece.now }
    ensures at_once { room.old.written + most_text (length piece.now) ≤ length room.old.into.now
        → result ≡ length piece.now }
{
    let mut taken = 0;
    while taken < piece.len() && room.left() >= LEAST_ROOM {
        let count = (piece.len() - taken).min((room.left() - TEXT_OF_THE_BEGUN) / TEXT_OF_A_BYTE);
        parser.advance_log(room, &piece[taken..taken + count]);
        taken += count;
    }
    taken
}
