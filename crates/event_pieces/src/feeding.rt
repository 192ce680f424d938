//! A piece of a stream.
ghost use Rattle.std.specs.Prelude.{◌≡◌, ◌≤◌, ◌+◌, ℕ, List, length, IfSome, IfNone};
ghost use Rattle.anstyle_parse.specs.Views.Accumulator.{front_of};
ghost use Rattle.anstyle_parse.specs.Views.Parser.{IsAfter};
ghost use Rattle.event_pieces.specs.Feed.{least_events, least_room, most_events, most_room, Feeds, IsTaken, Refuses};

use crate::event::Event;
use crate::writer::EventWriter;
use anstyle_parse::canon::MAX_CHECKPOINT;
use anstyle_parse::{Parser, Utf8Parser};
use stream_state::StreamState;

/// The records at most that each byte of a piece leads to.
const EVENTS_OF_A_BYTE: usize = 2;

/// The bytes of room at most that each byte of a piece leads to, and each that was pending before.
const ROOM_OF_A_BYTE: usize = 6;

/// What the bytes that are pending may lead to.
const ROOM_OF_PENDING: usize = ROOM_OF_A_BYTE * MAX_CHECKPOINT;

/// The records with which a stream always goes on: two, for what one byte may lead to.
pub const LEAST_EVENTS: usize = EVENTS_OF_A_BYTE;

/// The bytes of room with which a stream always goes on: 6,258, for what one byte may lead to.
pub const LEAST_ROOM: usize = ROOM_OF_PENDING + ROOM_OF_A_BYTE;

/// What a call took and wrote.
#[derive(Debug, Clone, Copy, PartialEq, Eq)]
pub struct Fed {
    /// The bytes that were taken from the front of the piece.
    pub taken: usize,
    /// The records that were written to the front of `events`.
    pub written: usize,
    /// The bytes that were written to the front of the room.
    pub used: usize,
}

/// Takes bytes from the front of the piece, and writes their calls to the front of `events`, and what these
/// hold to the front of the room.
///
/// With `Some` all of their calls are written, and the state stands after all bytes so far. All of the piece
/// is taken, unless fewer than [`LEAST_EVENTS`] are left of the records or less than [`LEAST_ROOM`] of the room;
/// with that much at least one byte is taken. Past what is written both are as they were.
///
/// With `None` the piece is not empty, and there are fewer than [`LEAST_EVENTS`] records or less than
/// [`LEAST_ROOM`] bytes of room: then nothing was done.
pub fn feed(
    state: &mut StreamState,
    piece: &[u8],
    events: &mut [Event],
    room: &mut [u8],
) -> Option<Fed>
    ensures fed { IfSome result
        (λ fed. Feeds state.old state.new piece.now events.old events.new room.old room.new fed) }
    ensures refused { IfNone result
        (Refuses state.old state.new piece.now events.old events.new room.old room.new) }
{
    if !piece.is_empty() && (events.len() < LEAST_EVENTS || room.len() < LEAST_ROOM) {
        return None;
    }
    let mut parser = Parser::<Utf8Parser>::new();
    state.resume_in(&mut parser);
    let mut writer = EventWriter::new(events, room);
    let taken = take(&mut parser, piece, &mut writer);
    let written = writer.written();
    let used = writer.used();
    state.save(&parser);
    Some(Fed {
        taken,
        written,
        used,
    })
}

/// Gives bytes of the piece to the parser for as long as there are records and room for what they may lead
/// to, and answers how many.
fn take(parser: &mut Parser, piece: &[u8], writer: &mut EventWriter) -> usize
    requires none_written { writer.old.written ≡ 0 }
    requires none_used { writer.old.used ≡ 0 }
    requires stands { (before : List ℕ) × IsAfter front_of parser.old before }
    ensures same_events { writer.new.events.ghost_name ≡ writer.old.events.ghost_name }
    ensures same_room { writer.new.room.ghost_name ≡ writer.old.room.ghost_name }
    ensures taken { IsTaken parser.old parser.new piece.now writer.old writer.new result }
    ensures all { writer.new.written + least_events ≤ length writer.new.events.now
        → writer.new.used + least_room ≤ length writer.new.room.now
        → result ≡ length piece.now }
    ensures at_once { writer.old.written + most_events (length piece.now) ≤ length writer.old.events.now
        → writer.old.used + most_room (length piece.now) ≤ length writer.old.room.now
        → result ≡ length piece.now }
{
    let mut taken = 0;
    while taken < piece.len()
        && writer.events_left() >= LEAST_EVENTS
        && writer.room_left() >= LEAST_ROOM
    {
        let sure = sure_bytes(writer.events_left(), writer.room_left());
        let count = (piece.len() - taken).min(sure);
        parser.advance_texts(writer, &piece[taken..taken + count]);
        taken += count;
    }
    taken
}

/// How many bytes lead to no more than so many records and so many bytes of room.
fn sure_bytes(events: usize, room: usize) -> usize
    requires events { least_events ≤ events }
    requires room { least_room ≤ room }
    ensures events { most_events result ≤ events }
    ensures room { most_room result ≤ room }
    ensures some { 1 ≤ result }
    ensures all { (count : ℕ) → most_events count ≤ events → most_room count ≤ room → count ≤ result }
{
    let by_events = events / EVENTS_OF_A_BYTE;
    let by_room = (room - ROOM_OF_PENDING) / ROOM_OF_A_BYTE;
    by_events.min(by_room)
}
