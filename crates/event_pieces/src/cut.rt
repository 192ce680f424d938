//! Which commands may have been cut.
ghost use Rattle.std.specs.Prelude.{◌≡◌, ◌==◌, count_by};
ghost use Rattle.anstyle_parse.specs.Stream.Bytes.{semicolon};
ghost use Rattle.event_pieces.specs.Cut.{HasMost, TellsCut};
ghost use Rattle.event_pieces.specs.Event.{bytes_in};

use crate::event::{Event, OSC};

/// The parts of a command that are held at most.
const MOST_PARTS: usize = 16;

/// The bytes of a command that are held at most, without what parts it.
const MOST_BYTES: usize = 1024;

/// Whether an operating system command may have been cut: whether it has 16 parts, or 1,024 bytes in them, which are the
/// most that are held. Where the answer is false, it has all that came. Where it is true, nothing tells whether more
/// came.
///
/// `room` is what [`feed`](crate::feed) wrote with the record. Of a record of another kind the answer is false.
pub fn may_be_cut(event: &Event, room: &[u8]) -> bool
    ensures { TellsCut room.now event.now result }
{
    event.kind == OSC && has_most(shown(event, room))
}

/// Whether a command's text, with what parts it, has the most parts or the most bytes that are held.
fn has_most(text: &[u8]) -> bool
    ensures { HasMost result text.now }
{
    let separators = separators(text);
    separators + 1 >= MOST_PARTS || text.len() - separators >= MOST_BYTES
}

/// How many bytes part a command's text.
fn separators(text: &[u8]) -> usize
    ensures { result ≡ count_by (λ b. b == semicolon) text.now }
{
    text.iter().filter(|byte| **byte == b';').count()
}

/// What the room has of a record.
fn shown<'a>(event: &Event, room: &'a [u8]) -> &'a [u8]
    ensures { result.now ≡ bytes_in room.now event.now }
{
    let (_, behind) = room.split_at(event.start.min(room.len()));
    let (shown, _) = behind.split_at(event.length.min(behind.len()));
    shown
}
