//! A piece of a stream, and its end.
ghost use Rattle.std.specs.Prelude.{◌≡◌, ◌<◌, ◌≤◌, ◌++◌, ℕ, List, length, take, drop, min, IfSome, IfNone};
ghost use Rattle.html_pieces.specs.Sizes.{most_html, capacity};
ghost use Rattle.html_pieces.specs.Feed.{Takes, Feeds, Refuses, Ends, RefusesEnd};

use crate::state::HtmlState;
use ansi_html::{HtmlWriter, verbatim_length};
use anstyle_parse::io::{Output, WritingPerformer};
use anstyle_parse::{Parser, Utf8Parser};
use stream_state::{Fed, LentBytes, print_end, put_at_start};

/// The bytes of room with which a stream always goes on: what one byte may lead to, where it opens a link
/// of 1,035 bytes.
pub const LEAST_ROOM: usize = 6534;

/// The bytes of room that the end of a stream needs: for U+FFFD, where a character is begun, and for what closes an
/// element.
pub const END_ROOM: usize = 6539;

/// The bytes of HTML that are held at most before they go to the room.
const CAPACITY: usize = 16384;

/// The bytes of a piece that a call takes at most.
const MOST_TAKEN: usize = 4096;

/// Where the HTML of the bytes that are tried finds no room, their number is divided by this, and they are tried again.
const SHARE: usize = 2;

/// With each try that finds room `html_of_a_byte` falls by this part, a fourth, or is set to what the try led to, if
/// that is more.
const FADES: u8 = 4;

/// [`next_try`] plans to leave this part of the room free: an eighth.
const LEFT: usize = 8;

/// [`next_try`] plans fewer bytes than these only where no more are left of the piece; else it plans none.
const LEAST_TRY: usize = 32;

/// The size of a shorter buffer, for few bytes of HTML. A call clears its buffer first, and a short one costs less.
const SHORT_CAPACITY: usize = 4096;

/// The shorter buffer is tried where it has at least so many bytes for each byte of the piece, and more where the last
/// bytes led to more HTML.
const SHORT_SHARE: usize = 16;

impl HtmlState {
    /// Takes bytes from the front of the piece, as a reader of logs reads them
    /// ([`advance_log`](anstyle_parse::Parser::advance_log)), and writes their HTML to the front of the room.
    ///
    /// With `Some` all of their HTML is written, and the state stands after all bytes so far. Of some bytes
    /// at least one is taken; at most 4,096 are, and at most 16,384 bytes are written. What it costs is in proportion
    /// to both: bytes whose HTML finds no room are few beside those that were taken. The HTML is
    /// UTF-8 by itself. Past it the room is as it was.
    ///
    /// With `None` the piece is not empty and the room is below [`LEAST_ROOM`]: then nothing
    /// was done.
    pub fn feed(&mut self, piece: &[u8], room: &mut [u8]) -> Option<Fed>
        ensures fed { IfSome result (λ fed. Feeds self.old self.new piece.now room.old room.new fed.taken fed.written) }
        ensures refused { IfNone result (Refuses self.old self.new piece.now room.old room.new) }
    {
        if room.len() < LEAST_ROOM && !piece.is_empty() {
            return None;
        }
        let size = room.len().min(CAPACITY);
        let sure = size / LEAST_ROOM;
        let piece = &piece[..piece.len().min(size.min(MOST_TAKEN))];
        if let Some(taken) = self.take_verbatim(piece, sure, room) {
            return Some(Fed {
                taken,
                written: taken,
            });
        }
        let first = self.take_first(piece, sure, room);
        if first.taken == piece.len() {
            return Some(first);
        }
        Some(self.take_others(piece, first, room))
    }

    /// Ends the stream: writes U+FFFD where a character is begun, and what closes the element that is open, if one is,
    /// to the front of the room, and answers how many bytes that are. The state then begins a stream in the same
    /// styling. Past it the room is as it was.
    ///
    /// With `None` the room is below [`END_ROOM`]: then nothing was done.
    pub fn end(&mut self, room: &mut [u8]) -> Option<usize>
        ensures ended { IfSome result (λ written. Ends self.old self.new room.old room.new written) }
        ensures refused { IfNone result (RefusesEnd self.old self.new room.old room.new) }
    {
        if room.len() < END_ROOM {
            return None;
        }
        let mut held = [0; END_ROOM];
        let output = Output::new(LentBytes::new(room.len(), &mut held));
        let mut writer = HtmlWriter::resume(self.styling(), self.standing(), output);
        let is_begun = self.stream.is_in_char();
        print_end(&mut writer, is_begun);
        let (buffer, _) = writer.into_output().finish();
        *self = HtmlState::new(self.styling());
        Some(put_at_start(room, buffer.bytes()))
    }

    /// Takes the verbatim text at the front of the piece, if that is all of it, or more than half of it and more than
    /// what surely fits, and is its own HTML. It goes to the room as it is, with no parser.
    fn take_verbatim(&self, piece: &[u8], sure: usize, room: &mut [u8]) -> Option<usize>
        requires { length piece.now ≤ length room.old }
        ensures within { IfSome result (λ taken. taken ≤ length piece.now) }
        ensures some { IfSome result (λ taken. 0 < length piece.now → 0 < taken) }
        ensures sure { IfSome result (λ taken. length piece.now ≤ sure → taken ≡ length piece.now) }
        ensures taken { IfSome result (λ taken.
            Takes self.now self.now (take taken piece.now) room.old room.new taken) }
        ensures same_room { IfNone result (room.new ≡ room.old) }
    {
        if !self.is_in_text() {
            return None;
        }
        let taken = verbatim_length(piece);
        if taken < piece.len() && taken <= sure.max(piece.len() / 2) {
            return None;
        }
        Some(put_at_start(room, &piece[..taken]))
    }

    /// Takes bytes from the front of the piece: those that are tried first, or as many of them as find room.
    fn take_first(&mut self, piece: &[u8], sure: usize, room: &mut [u8]) -> Fed
        requires surely { most_html sure ≤ min (length room.old) capacity }
        requires some { 0 < length piece.now → 0 < sure }
        ensures within { result.taken ≤ length piece.now }
        ensures some { 0 < length piece.now → 0 < result.taken }
        ensures sure { length piece.now ≤ sure → result.taken ≡ length piece.now }
        ensures few { result.written ≤ capacity }
        ensures taken { Takes self.old self.new (take result.taken piece.now) room.old room.new result.written }
    {
        let wanted = next_try(
            piece.len(),
            room.len().min(CAPACITY),
            self.html_of_a_byte as usize,
        );
        let mut taken = piece.len().min(sure.max(wanted));
        loop {
            if let Some(written) = self.take(&piece[..taken], room) {
                return Fed { taken, written };
            }
            taken = sure.max(taken / SHARE);
        }
    }

    /// Takes more of the piece, of which some bytes were taken, as far as it finds room. Apart, since a call clears its
    /// own arrays, used or not.
    #[inline(never)]
    fn take_others(&mut self, piece: &[u8], first: Fed, room: &mut [u8]) -> Fed
        requires taken { first.taken ≤ length piece.now }
        requires written { first.written ≤ length room.old }
        requires few { first.written ≤ capacity }
        ensures within { result.taken ≤ length piece.now }
        ensures some { first.taken ≤ result.taken }
        ensures few { result.written ≤ capacity }
        ensures taken { (begun : HtmlState) (clean : List ℕ)
            → Takes begun self.old (take first.taken piece.now) clean room.old first.written
            → Takes begun self.new (take result.taken piece.now) clean room.new result.written }
    {
        let mut lent = [0; CAPACITY];
        let others = self.take_through_tries(
            &mut lent[first.written..],
            &piece[first.taken..],
            &mut room[first.written..],
        );
        Fed {
            taken: first.taken + others.taken,
            written: first.written + others.written,
        }
    }

    /// Takes bytes of the piece in several tries, each of as many as probably find room by what those before led to. It
    /// ends with a try that finds none, or where `next_try` plans none.
    fn take_through_tries(&mut self, lent: &mut [u8], piece: &[u8], room: &mut [u8]) -> Fed
        ensures within { result.taken ≤ length piece.now }
        ensures few { result.written ≤ length lent.old }
        ensures taken { Takes self.old self.new (take result.taken piece.now) room.old room.new result.written }
    {
        let size = room.len().min(lent.len());
        let mut taken = 0;
        let mut written = 0;
        let mut count = next_try(piece.len(), size, self.html_of_a_byte as usize);
        while count > 0 {
            let bytes = &piece[taken..taken + count];
            let Some(more) = self.take_through(&mut lent[written..], bytes, &mut room[written..])
            else {
                break;
            };
            taken += count;
            written += more;
            count = next_try(
                piece.len() - taken,
                size - written,
                self.html_of_a_byte as usize,
            );
        }
        Fed { taken, written }
    }

    /// Takes all bytes of the piece, if there is room for their HTML.
    fn take(&mut self, piece: &[u8], room: &mut [u8]) -> Option<usize>
        ensures few { IfSome result (λ written. written ≤ capacity) }
        ensures taken { IfSome result (λ written. Takes self.old self.new piece.now room.old room.new written) }
        ensures same_state { IfNone result (self.new ≡ self.old) }
        ensures same_room { IfNone result (room.new ≡ room.old) }
        ensures little_room { IfNone result (min (length room.old) capacity < most_html (length piece.now)) }
    {
        if piece.len() <= SHORT_CAPACITY / SHORT_SHARE.max(self.html_of_a_byte as usize + 1) {
            if let Some(written) = self.take_short(piece, room) {
                return Some(written);
            }
        }
        self.take_through(&mut [0; CAPACITY], piece, room)
    }

    /// The same, if there are few bytes of HTML. Apart, since a call clears its own arrays, used or not.
    #[inline(never)]
    fn take_short(&mut self, piece: &[u8], room: &mut [u8]) -> Option<usize>
        ensures few { IfSome result (λ written. written ≤ capacity) }
        ensures taken { IfSome result (λ written. Takes self.old self.new piece.now room.old room.new written) }
        ensures same_state { IfNone result (self.new ≡ self.old) }
        ensures same_room { IfNone result (room.new ≡ room.old) }
    {
        self.take_through(&mut [0; SHORT_CAPACITY], piece, room)
    }

    /// The same with lent bytes, where the HTML stands before it goes to the room.
    #[inline(never)]
    fn take_through(&mut self, lent: &mut [u8], piece: &[u8], room: &mut [u8]) -> Option<usize>
        ensures few { IfSome result (λ written. written ≤ length lent.old) }
        ensures taken { IfSome result (λ written. Takes self.old self.new piece.now room.old room.new written) }
        ensures same_state { IfNone result (self.new ≡ self.old) }
        ensures same_room { IfNone result (room.new ≡ room.old) }
        ensures little_room { IfNone result
            (min (length room.old) (length lent.old) < most_html (length piece.now)) }
    {
        let output = Output::new(LentBytes::new(room.len(), lent));
        let mut writer = HtmlWriter::new(self.styling(), output);
        writer.go_on(self.standing());
        let mut parser = Parser::<Utf8Parser>::new();
        self.stream.resume_in(&mut parser);
        parser.advance_log(&mut writer, piece);
        if writer.output().fault().is_some() {
            return None;
        }
        self.stream.save(&parser);
        self.save(writer.standing());
        let (buffer, _) = writer.suspend().finish();
        let html = buffer.bytes();
        let faded = self.html_of_a_byte - self.html_of_a_byte / FADES;
        self.html_of_a_byte = faded.max((html.len() / piece.len().max(1)).min(255) as u8);
        Some(put_at_start(room, html))
    }
}

/// How many of `bytes` bytes are tried next in this room, where each of those before led to `html_of_a_byte` bytes of
/// HTML: as many as would leave an eighth of the room. 0 where those are few, but not all that are left.
fn next_try(bytes: usize, room: usize, html_of_a_byte: usize) -> usize
    ensures { result ≤ bytes }
{
    let count = bytes.min((room - room / LEFT) / html_of_a_byte.saturating_add(1));
    if count < bytes.min(LEAST_TRY) {
        return 0;
    }
    count
}
