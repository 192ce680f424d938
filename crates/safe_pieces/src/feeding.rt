//! A piece of a stream, and its end.
ghost use Rattle.std.specs.Prelude.{◌≡◌, ◌<◌, ◌≤◌, ℕ, length, take, min, IfSome, IfNone};
ghost use Rattle.safe_pieces.specs.Sizes.{most_safe, at_once, least_room};
ghost use Rattle.safe_pieces.specs.Feed.{Takes, Feeds, Refuses, Ends, RefusesEnd};

use crate::state::SafeState;
use anstyle_parse::io::{Output, WritingPerformer};
use anstyle_parse::{Parser, Utf8Parser};
use safe_text::MarkingWriter;
use stream_state::{Fed, LentBytes, print_end, put_at_start};

/// The bytes of safe text at most that a character leads to.
const TEXT_OF_A_CHARACTER: usize = 10;

/// The bytes of a mark at most: `<U+hidden>`, or `<U+shown>`.
const TEXT_OF_A_MARK: usize = 10;

/// The bytes of safe text at most that each byte of a piece leads to: it breaks a character off, which is written as
/// U+FFFD, and is written visibly or is another U+FFFD, or ends one that is; and there is a mark before each.
const TEXT_OF_A_BYTE: usize = 2 * (TEXT_OF_A_MARK + TEXT_OF_A_CHARACTER);

/// The bytes of safe text at most that what waits leads to.
const TEXT_OF_THE_HELD: usize = 2 * TEXT_OF_A_CHARACTER;

/// The bytes of room with which a stream always goes on: what one byte may lead to.
pub const LEAST_ROOM: usize = TEXT_OF_A_BYTE + TEXT_OF_THE_HELD;

/// The bytes of room that the end of a stream needs: for what waits, a mark and U+FFFD, and the mark that closes.
pub const END_ROOM: usize = TEXT_OF_THE_HELD
    + TEXT_OF_A_MARK
    + TEXT_OF_A_CHARACTER
    + TEXT_OF_A_MARK;

/// The bytes of safe text that are held at most before they go to the room.
const CAPACITY: usize = 16384;

/// The same for a short piece, where fewer bytes are cleared.
const SHORT_CAPACITY: usize = 2560;

/// Fewer bytes than these are not taken at the end of a room, unless they are the last.
const LEAST_COUNT: usize = 32;

impl SafeState {
    /// Takes bytes from the front of the piece, as a reader of logs reads them
    /// ([`advance_log`](anstyle_parse::Parser::advance_log)), and writes their safe text to the front of the room.
    ///
    /// With `Some` all of their safe text is written but for what waits for the next character, with the marks where
    /// hidden text begins and ends, and the state stands after all bytes so far. Of some bytes at least one is taken;
    /// with 40 bytes of room for each byte of the piece, and 40 more, all of them are. The text is UTF-8 by itself.
    /// Past it the room is as it was.
    ///
    /// With `None` the piece is not empty and the room is below [`LEAST_ROOM`]: then nothing
    /// was done.
    pub fn feed(&mut self, piece: &[u8], room: &mut [u8]) -> Option<Fed>
        ensures fed { IfSome result (λ fed. Feeds self.old self.new piece.now room.old room.new fed.taken fed.written) }
        ensures refused { IfNone result (Refuses self.old self.new piece.now room.old room.new) }
    {
        if room.len() < LEAST_ROOM && !piece.is_empty() {
            return None;
        }
        if piece.len() <= sure_count(SHORT_CAPACITY) {
            Some(self.take_short(piece, room))
        } else {
            Some(self.take_parts(&mut [0; CAPACITY], piece, room))
        }
    }

    /// Ends the stream: writes what still waits, U+FFFD where a character is begun, and `<U+shown>` where hidden text
    /// is not closed, to the front of the room, and answers how many bytes that are. The state then begins a stream.
    /// Past them the room is as it was.
    ///
    /// With `None` the room is below [`END_ROOM`]: then nothing was done.
    pub fn end(&mut self, room: &mut [u8]) -> Option<usize>
        ensures ended { IfSome result (λ written. Ends self.old self.new room.old room.new written) }
        ensures refused { IfNone result (RefusesEnd self.old self.new room.old room.new) }
    {
        if room.len() < END_ROOM {
            return None;
        }
        let mut lent = [0; END_ROOM];
        let output = Output::new(LentBytes::new(END_ROOM, &mut lent));
        let mut writer = MarkingWriter::resume(self.standing(), output);
        let is_begun = self.stream.is_in_char();
        print_end(&mut writer, is_begun);
        let (buffer, _) = writer.into_output().finish();
        *self = SafeState::new();
        Some(put_at_start(room, buffer.bytes()))
    }

    /// Takes a short piece. Apart, since a call clears its own arrays, used or not.
    #[inline(never)]
    fn take_short(&mut self, piece: &[u8], room: &mut [u8]) -> Fed
        requires { 0 < length piece.now → least_room ≤ length room.old }
        ensures { Feeds self.old self.new piece.now room.old room.new result.taken result.written }
    {
        self.take_parts(&mut [0; SHORT_CAPACITY], piece, room)
    }

    /// Takes bytes of the piece part by part, each as long as surely finds room.
    fn take_parts(&mut self, lent: &mut [u8], piece: &[u8], room: &mut [u8]) -> Fed
        requires room { 0 < length piece.now → least_room ≤ length room.old }
        requires lent { most_safe 32 ≤ length lent.old }
        ensures { Feeds self.old self.new piece.now room.old room.new result.taken result.written }
    {
        let mut taken = 0;
        let mut written = 0;
        let mut count = piece.len().min(sure_count(room.len().min(lent.len())));
        while count > 0 {
            let bytes = &piece[taken..taken + count];
            let more = self.take(lent, bytes, &mut room[written..]);
            taken += count;
            written += more;
            count = next_count(piece.len() - taken, (room.len() - written).min(lent.len()));
        }
        Fed { taken, written }
    }

    /// Takes all bytes of the piece. Their safe text stands in lent memory before it goes to the room.
    #[inline(never)]
    fn take(&mut self, lent: &mut [u8], piece: &[u8], room: &mut [u8]) -> usize
        requires room { most_safe (length piece.now) ≤ length room.old }
        requires lent { most_safe (length piece.now) ≤ length lent.old }
        ensures { Takes self.old self.new piece.now room.old room.new result }
    {
        let output = Output::new(LentBytes::new(lent.len(), lent));
        let mut writer = MarkingWriter::resume(self.standing(), output);
        let mut parser = Parser::<Utf8Parser>::new();
        self.stream.resume_in(&mut parser);
        parser.advance_log(&mut writer, piece);
        self.stream.save(&parser);
        self.save(writer.standing());
        let (buffer, _) = writer.suspend().finish();
        put_at_start(room, buffer.bytes())
    }
}

/// How many bytes surely find so much room.
fn sure_count(room: usize) -> usize
    ensures fits { 0 < result → most_safe result ≤ room }
    ensures most { (count : ℕ) → most_safe count ≤ room → count ≤ result }
{
    room.saturating_sub(TEXT_OF_THE_HELD) / TEXT_OF_A_BYTE
}

/// How many of so many bytes are taken next in so much room: none where that would be few and not all.
fn next_count(bytes: usize, room: usize) -> usize
    ensures within { result ≤ bytes }
    ensures fits { 0 < result → most_safe result ≤ room }
    ensures some { 0 < bytes → most_safe (min bytes 32) ≤ room → 0 < result }
{
    let count = bytes.min(sure_count(room));
    if count < bytes.min(LEAST_COUNT) {
        return 0;
    }
    count
}
