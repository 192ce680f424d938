//! The performer that writes a record of each call.
ghost use Rattle.std.specs.Prelude.{◌≡◌, ◌<◌, ◌≤◌, ◌+◌, ◌-◌, List, ◌∷◌, ◌++◌, [], false, length, map, take, if◌then◌else◌};
ghost use Rattle.std.specs.Bool.{OnTrue};
ghost use Rattle.std.specs.List.{join_with_byte};
ghost use Rattle.std.specs.Str.{IsUtf8};
ghost use Rattle.anstyle_parse.specs.Stream.Bytes.{semicolon};
ghost use Rattle.anstyle_parse.specs.Stream.Texts.{text_calls};
ghost use Rattle.event_pieces.specs.Event.{group_bytes, groups_bytes, is_text, max_intermediates, record_with};

use crate::event::{
    CSI, ESC, EXECUTE, Event, HOOK, MAX_INTERMEDIATES, OSC, PADDING, PUT, TEXT, UNHOOK,
};
use crate::front::{BLOCK, FIELDS_OF_A_BLOCK, before_layout, fields_block, from_place};
use anstyle_parse::{Padded, Params, Perform, PerformText};
use stream_state::put_over;

/// Writes records of calls after those that are written, as far as there is room for them.
#[derive(Drop)]
pub(crate) struct EventWriter<'a> {
    events: &'a mut [Event],
    written: usize,
    room: &'a mut [u8],
    used: usize,
}

impl<'a> EventWriter<'a> {
    ghost use Rattle.anstyle_parse.specs.Views.Params.{groups_shown};
    ghost use Rattle.event_pieces.specs.Writer.{NotesText, Puts, Pushes, Adds};

    pub(crate) fn new(events: &'a mut [Event], room: &'a mut [u8]) -> EventWriter<'a>
        ensures same_events { result.events.ghost_name ≡ events.entry.ghost_name }
        ensures events { result.events.now ≡ events.old }
        ensures none_written { result.written ≡ 0 }
        ensures same_room { result.room.ghost_name ≡ room.entry.ghost_name }
        ensures room { result.room.now ≡ room.old }
        ensures none_used { result.used ≡ 0 }
    {
        EventWriter {
            events,
            written: 0,
            room,
            used: 0,
        }
    }

    /// How many records are written.
    pub(crate) fn written(&self) -> usize
        ensures { result ≡ self.now.written }
    {
        self.written
    }

    /// How many bytes of the room are used.
    pub(crate) fn used(&self) -> usize
        ensures { result ≡ self.now.used }
    {
        self.used
    }

    /// How many more records there are.
    pub(crate) fn events_left(&self) -> usize
        ensures { result ≡ length self.now.events.now - self.now.written }
    {
        self.events.len().saturating_sub(self.written)
    }

    /// How many more bytes of room there are.
    pub(crate) fn room_left(&self) -> usize
        ensures { result ≡ length self.now.room.now - self.now.used }
    {
        self.room.len().saturating_sub(self.used)
    }

    /// Several bytes more.
    #[inline]
    fn put_bytes(&mut self, bytes: &[u8])
        ensures { Puts bytes.now self.old self.new }
    {
        if bytes.len() <= self.room_left() && self.used <= self.room.len() {
            let end = self.used + bytes.len();
            self.room[self.used..end].copy_from_slice(bytes);
            self.used = end;
        }
    }

    /// Up to sixteen bytes more. Where there is room for a whole block, one is put: what the room has after the bytes
    /// is put where it was.
    #[inline(always)]
    fn put_padded(&mut self, bytes: &Padded<'_>)
        ensures { Puts bytes.now self.old self.new }
    {
        let start = self.used;
        if self.room.len() < BLOCK || start > self.room.len() - BLOCK {
            self.put_few(bytes.as_bytes());
            return;
        }
        put_over(&mut self.room[start..start + BLOCK], bytes);
        self.used = start + bytes.len();
    }

    /// The same where there is room for less. It is out of line, so that no other call pays for it.
    #[inline(never)]
    fn put_few(&mut self, bytes: &[u8])
        ensures { Puts bytes.now self.old self.new }
    {
        self.put_bytes(bytes);
    }

    /// The fields of a group.
    fn put_group(&mut self, group: &[u16])
        ensures { Puts (group_bytes group.now) self.old self.new }
    {
        let mut rest = group;
        'rest: while let Some((field, behind)) = rest.split_first() {
            let goes_on = u8::from(!behind.is_empty());
            self.put_bytes(&[(*field % 256) as u8, (*field / 256) as u8, goes_on]);
            rest = behind;
        }
    }

    /// The fields of a header. Few that are each a group of their own are put by a whole block.
    #[inline]
    fn put_fields(&mut self, params: &Params)
        ensures { Puts (groups_bytes (groups_shown params.now)) self.old self.new }
    {
        match params.lone_fields() {
            Some((fields, count)) if count <= FIELDS_OF_A_BLOCK => {
                self.put_padded(&Padded::new(&fields_block(fields), 3 * count));
            }
            _ => self.put_groups(params),
        }
    }

    /// The same, group by group.
    #[inline(never)]
    fn put_groups(&mut self, params: &Params)
        ensures { Puts (groups_bytes (groups_shown params.now)) self.old self.new }
    {
        for group in params.iter() {
            self.put_group(group);
        }
    }

    /// The parts of an operating system command, with `;` between them.
    fn put_parts(&mut self, parts: &[&[u8]])
        ensures { Puts (join_with_byte semicolon (map (λ part. part.now) parts.now)) self.old self.new }
    {
        let mut is_first = true;
        for part in parts {
            self.put_separator(is_first);
            is_first = false;
            self.put_bytes(part);
        }
    }

    /// What stands before each part but the first.
    fn put_separator(&mut self, is_first: bool)
        ensures { Puts (if is_first then [] else semicolon ∷ []) self.old self.new }
    {
        if !is_first {
            self.put_bytes(b";");
        }
    }

    /// One record more.
    #[inline(always)]
    fn push(&mut self, event: Event)
        ensures { Pushes event self.old self.new }
    {
        if self.written < self.events.len() {
            self.events[self.written] = event;
            self.written += 1;
        }
    }

    /// One record more, of this, which stands for what the room has from a place on.
    #[inline(always)]
    fn note(&mut self, start: usize, kind: u8, byte: u8, flag: bool, intermediates: &[u8])
        ensures { Pushes (record_with start (self.old.used - start) kind byte flag intermediates.now)
            self.old self.new }
    {
        let (intermediates, intermediate_count) = first_two(intermediates);
        let length = self.used.saturating_sub(start);
        self.push(Event {
            start,
            length,
            kind,
            byte,
            flag: u8::from(flag),
            intermediate_count,
            intermediates,
            padding: [0; PADDING],
        });
    }

    /// A record that stands for nothing in the room.
    #[inline(always)]
    fn note_byte(&mut self, kind: u8, byte: u8)
        ensures { Pushes (record_with self.old.used 0 kind byte false []) self.old self.new }
    {
        let start = self.used;
        self.note(start, kind, byte, false, b"");
    }

    /// A text, unless it is empty.
    #[inline(always)]
    fn put_text(&mut self, text: &str)
        ensures { Adds (text_calls text.now) self.old self.new }
    {
        if text.is_empty() {
            return;
        }
        let start = self.used;
        self.put_bytes(text.as_bytes());
        self.note_text(start);
    }

    /// The same with a text of up to sixteen bytes.
    #[inline(always)]
    fn put_padded_text(&mut self, text: &Padded<'_>)
        requires text { IsUtf8 text.now }
        ensures { Adds (text_calls text.now) self.old self.new }
    {
        if text.len() == 0 {
            return;
        }
        let start = self.used;
        self.put_padded(text);
        self.note_text(start);
    }

    /// Whether the last record is a text.
    #[inline(always)]
    fn ends_with_text(&self) -> bool
        ensures some { OnTrue result (0 < self.now.written) }
        ensures within { OnTrue result (self.now.written ≤ length self.now.events.now) }
        ensures text { (events : List Event) (last : Event) (rest : List Event)
            → self.now.events.now ≡ events ++ last ∷ rest → self.now.written ≡ length events + 1
            → result ≡ is_text last }
    {
        self.written > 0
            && self.written <= self.events.len()
            && self.events[self.written - 1].kind == TEXT
    }

    /// What the room has from a place on is a text: after another one it belongs to that one's record.
    #[inline(always)]
    fn note_text(&mut self, start: usize)
        ensures { NotesText start self.old self.new }
    {
        if self.ends_with_text() {
            let last = self.written - 1;
            self.events[last].length = self.used.saturating_sub(self.events[last].start);
        } else {
            self.note(start, TEXT, 0, false, b"");
        }
    }
}

/// The first two bytes, with 0 for those that are not there, and how many are there.
#[inline(always)]
fn first_two(bytes: &[u8]) -> ([u8; MAX_INTERMEDIATES], u8)
    ensures bytes { result.0 ≡ take max_intermediates (bytes.now ++ 0 ∷ 0 ∷ []) }
    ensures count { result.1 ≡ length (take max_intermediates bytes.now) }
{
    match bytes {
        [] => ([0, 0], 0),
        [first] => ([*first, 0], 1),
        [first, second, ..] => ([*first, *second], 2),
    }
}

impl<'a> Perform for EventWriter<'a> {
    ghost use Rattle.event_pieces.specs.Writer.{Adds};

    // A record of the call is added.
    ghost means = { λ old call new. Adds (call ∷ []) old new };

    // Mostly a character comes in a text.
    #[inline(never)]
    fn print(&mut self, c: char) {
        let mut bytes = [0; 4];
        self.put_text(c.encode_utf8(&mut bytes));
    }

    #[inline]
    fn execute(&mut self, byte: u8) {
        self.note_byte(EXECUTE, byte);
    }

    fn hook(&mut self, params: &Params, intermediates: &[u8], ignore: bool, action: u8) {
        let start = self.used;
        self.put_fields(params);
        self.note(start, HOOK, action, ignore, intermediates);
    }

    #[inline]
    fn put(&mut self, byte: u8) {
        self.note_byte(PUT, byte);
    }

    fn unhook(&mut self) {
        self.note_byte(UNHOOK, 0);
    }

    fn osc_dispatch(&mut self, params: &[&[u8]], bell_terminated: bool) {
        let start = self.used;
        self.put_parts(params);
        self.note(start, OSC, 0, bell_terminated, b"");
    }

    #[inline(always)]
    fn csi_dispatch(&mut self, params: &Params, intermediates: &[u8], ignore: bool, action: u8) {
        let start = self.used;
        self.put_fields(params);
        self.note(start, CSI, action, ignore, intermediates);
    }

    fn esc_dispatch(&mut self, intermediates: &[u8], ignore: bool, byte: u8) {
        let start = self.used;
        self.note(start, ESC, byte, ignore, intermediates);
    }
}

/// A text is one record. Layout in it is executed, and divides it.
impl<'a> PerformText for EventWriter<'a> {
    ghost use Rattle.event_pieces.specs.Writer.{Adds};
    ghost use Rattle.event_pieces.specs.AddingProof.{Adds-follows};

    ghost receives = { λ old calls new. Adds calls old new };

    #[inline(always)]
    fn print_text(&mut self, text: &str) {
        self.put_text(text);
    }

    /// Each text up to a layout control is put by a whole block.
    fn print_padded(&mut self, text: &Padded<'_>) {
        let all = text.as_bytes();
        let mut at = before_layout(text);
        self.put_padded_text(&text.first(at));
        'layout: while at < all.len() {
            self.execute(all[at]);
            let moved = from_place(text, at + 1);
            let behind = Padded::new(&moved, all.len() - at - 1);
            let shown = before_layout(&behind);
            self.put_padded_text(&behind.first(shown));
            at += 1 + shown;
        }
    }

    ghost follows = { Adds-follows };
}
