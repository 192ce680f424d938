//! A text that comes in pieces, and whose lines are to end with a line feed alone.
ghost use Rattle.std.specs.Prelude.{◌≡◌, ◌++◌, ◌∷◌, ◌==◌, [], IfSome, IfNone, if◌then◌else◌};
ghost use Rattle.ansi_strip.specs.LineFeeds.{waiting, decided};
ghost use Rattle.strip_pieces.specs.SliceWriter.{Puts};
ghost use Rattle.strip_pieces.specs.Lines.{held_in, StandsForText, Feeds, Refuses, Ends, RefusesEnd};

use crate::slice_writer::SliceWriter;
use stream_state::{Fed, put_at_start};

/// A carriage return.
const RETURN: u8 = b'\r';

/// The bytes of room with which a text always goes on: for a carriage return that waited, and one byte.
pub const LEAST_LINE_ROOM: usize = 2;

/// The bytes of room that the end of a text needs: for a carriage return that waited.
pub const LINE_END_ROOM: usize = 1;

/// Where a text stands between two pieces, each of whose carriage returns right before a line feed goes.
///
/// Any byte in it is a valid state, and 0 is one that begins a text. It owns nothing, and may be copied or written
/// down.
#[repr(C)]
#[derive(Clone, Copy)]
pub struct LineState {
    /// 1 where a carriage return waits for what comes next; any other number where none does.
    pub waits: u8,
}

impl LineState {
    /// A state that begins a text.
    pub fn new() -> LineState
        ensures { StandsForText result [] }
    {
        LineState { waits: 0 }
    }

    /// Takes bytes from the front of the text, and writes them to the front of the room, without each carriage return
    /// right before a line feed. One that comes last waits for what comes next.
    ///
    /// With `Some` all of the bytes are written that were taken, but for that one, and the state stands after them. Of
    /// some bytes at least one is taken; with room for all of them and one byte more, all are. Past what is written the
    /// room is as it was.
    ///
    /// With `None` the text is not empty and the room is below [`LEAST_LINE_ROOM`]: then nothing was done.
    pub fn feed(&mut self, text: &[u8], room: &mut [u8]) -> Option<Fed>
        ensures fed { IfSome result (λ fed. Feeds self.old self.new text.now room.old room.new fed.taken fed.written) }
        ensures refused { IfNone result (Refuses self.old self.new text.now room.old room.new) }
    {
        if room.len() < LEAST_LINE_ROOM && !text.is_empty() {
            return None;
        }
        let taken = text.len().min(room.len().saturating_sub(1));
        let mut lines = SliceWriter::new(room);
        self.take(&text[..taken], &mut lines);
        let written = lines.written();
        Some(Fed { taken, written })
    }

    /// Ends the text: writes the carriage return that waits, if one does, to the front of the room, and answers how
    /// many bytes that are. The state then begins a text. Past them the room is as it was.
    ///
    /// With `None` the room is below [`LINE_END_ROOM`]: then nothing was done.
    pub fn end(&mut self, room: &mut [u8]) -> Option<usize>
        ensures ended { IfSome result (λ written. Ends self.old self.new room.old room.new written) }
        ensures refused { IfNone result (RefusesEnd self.old self.new room.old room.new) }
    {
        if room.len() < LINE_END_ROOM {
            return None;
        }
        let waits = self.waits == 1;
        *self = LineState::new();
        if waits {
            Some(put_at_start(room, &[RETURN]))
        } else {
            Some(0)
        }
    }

    /// Puts what is left of the text.
    fn take(&mut self, text: &[u8], lines: &mut SliceWriter)
        ensures puts { Puts (decided (held_in self.old ++ text.now)) lines.old lines.new }
        ensures held { held_in self.new ≡ waiting (held_in self.old ++ text.now) }
    {
        let mut rest = text;
        'rest: while let Some((first, behind)) = rest.split_first() {
            self.take_byte(*first, lines);
            rest = behind;
        }
    }

    /// Puts what is left of a byte. A carriage return waits.
    #[inline(always)]
    fn take_byte(&mut self, byte: u8, lines: &mut SliceWriter)
        ensures puts { Puts (decided (held_in self.old ++ byte ∷ [])) lines.old lines.new }
        ensures held { held_in self.new ≡ waiting (held_in self.old ++ byte ∷ []) }
    {
        self.release(byte, lines);
        if byte == RETURN {
            self.waits = 1;
        } else {
            lines.put_byte(byte);
        }
    }

    /// Puts the carriage return that waits, unless a line feed comes.
    #[inline(always)]
    fn release(&mut self, next: u8, lines: &mut SliceWriter)
        ensures puts { Puts (if next == 0x0A then [] else held_in self.old) lines.old lines.new }
        ensures held { self.new.waits ≡ 0 }
    {
        if self.waits == 1 && next != b'\n' {
            lines.put_byte(RETURN);
        }
        self.waits = 0;
    }
}
