//! The performer that writes inert text into the caller's room.
ghost use Rattle.std.specs.Prelude.{◌≡◌, ◌-◌, ◌∷◌, [], length, IsUtf8};
ghost use Rattle.anstyle_parse.specs.Stream.Texts.{layout_calls};
ghost use Rattle.ansi_strip.specs.Inert.{inert_text};

use ansi_strip::{is_clear, is_clear_padded, is_driving, is_layout, split_at_driving};
use anstyle_parse::{Padded, Params, Perform, PerformText};
use std::str;
use stream_state::put_over;

/// How many bytes are put at once.
const CHUNK: usize = 16;

/// Writes the inert text of each call after what is written, as far as there is room.
#[derive(Drop)]
pub(crate) struct SliceWriter<'a> {
    into: &'a mut [u8],
    written: usize,
}

impl<'a> SliceWriter<'a> {
    ghost use Rattle.strip_pieces.specs.SliceWriter.{Puts};

    pub(crate) fn new(into: &'a mut [u8]) -> SliceWriter<'a>
        ensures same_reference { result.into.ghost_name ≡ into.entry.ghost_name }
        ensures bytes { result.into.now ≡ into.old }
        ensures nothing { result.written ≡ 0 }
    {
        SliceWriter { into, written: 0 }
    }

    /// How many bytes are written.
    pub(crate) fn written(&self) -> usize
        ensures { result ≡ self.now.written }
    {
        self.written
    }

    /// How many more there is room for.
    pub(crate) fn left(&self) -> usize
        ensures { result ≡ length self.now.into.now - self.now.written }
    {
        self.into.len().saturating_sub(self.written)
    }

    /// One byte more.
    #[inline]
    pub(crate) fn put_byte(&mut self, byte: u8)
        ensures { Puts (byte ∷ []) self.old self.new }
    {
        if self.written < self.into.len() {
            self.into[self.written] = byte;
            self.written += 1;
        }
    }

    /// Several bytes more. It is out of line, since texts come by three ways.
    #[inline(never)]
    fn put_bytes(&mut self, bytes: &[u8])
        ensures { Puts bytes.now self.old self.new }
    {
        if bytes.len() <= self.left() && self.written <= self.into.len() {
            let end = self.written + bytes.len();
            self.into[self.written..end].copy_from_slice(bytes);
            self.written = end;
        }
    }

    /// Up to sixteen bytes more. Where there is room for a whole chunk, one is put: what the room has after the bytes
    /// is put where it was.
    #[inline(always)]
    fn put_padded(&mut self, bytes: &Padded<'_>)
        ensures { Puts bytes.now self.old self.new }
    {
        let start = self.written;
        if self.into.len() < CHUNK || start > self.into.len() - CHUNK {
            self.put_bytes(bytes.as_bytes());
            return;
        }
        put_over(&mut self.into[start..start + CHUNK], bytes);
        self.written = start + bytes.len();
    }

    /// A text in parts: what stands between the characters that drive a terminal.
    #[inline(never)]
    fn put_parts(&mut self, text: &str)
        ensures { Puts (inert_text (layout_calls text.now)) self.old self.new }
    {
        let mut rest = text;
        'rest: while !rest.is_empty() {
            let (inert, behind) = split_at_driving(rest);
            self.put_bytes(inert.as_bytes());
            rest = behind;
        }
    }

    /// The same with a text that is given by its bytes.
    #[inline(never)]
    fn put_parts_of(&mut self, bytes: &[u8])
        requires { IsUtf8 bytes.now }
        ensures { Puts (inert_text (layout_calls bytes.now)) self.old self.new }
    {
        match str::from_utf8(bytes) {
            Ok(text) => self.put_parts(text),
            Err(_) => unreachable!(),
        }
    }
}

impl<'a> Perform for SliceWriter<'a> {
    ghost use Rattle.strip_pieces.specs.SliceWriter.{inert_call, Puts};

    // The inert text of the call is put.
    ghost means = { λ old call new. Puts (inert_call call) old new };

    // Mostly a character comes in a text.
    #[inline(never)]
    fn print(&mut self, c: char) {
        if !is_driving(c) {
            let mut bytes = [0; 4];
            self.put_bytes(c.encode_utf8(&mut bytes).as_bytes());
        }
    }

    #[inline]
    fn execute(&mut self, byte: u8) {
        if is_layout(byte) {
            self.put_byte(byte);
        }
    }

    fn hook(&mut self, _: &Params, _: &[u8], _: bool, _: u8) {}

    fn put(&mut self, _: u8) {}

    fn unhook(&mut self) {}

    fn osc_dispatch(&mut self, _: &[&[u8]], _: bool) {}

    fn csi_dispatch(&mut self, _: &Params, _: &[u8], _: bool, _: u8) {}

    fn esc_dispatch(&mut self, _: &[u8], _: bool, _: u8) {}
}

/// A text without characters that drive a terminal is left as it is, and so is layout.
impl<'a> PerformText for SliceWriter<'a> {
    ghost use Rattle.strip_pieces.specs.SliceWriter.{Puts};
    ghost use Rattle.strip_pieces.specs.PuttingProof.{Puts-follows};

    ghost receives = { λ old calls new. Puts (inert_text calls) old new };

    #[inline(always)]
    fn print_with_layout(&mut self, text: &str) {
        if is_clear(text.as_bytes()) {
            self.put_bytes(text.as_bytes());
        } else {
            self.put_parts(text);
        }
    }

    #[inline(always)]
    fn print_padded(&mut self, text: &Padded<'_>) {
        if is_clear_padded(text) {
            self.put_padded(text);
        } else {
            self.put_parts_of(text.as_bytes());
        }
    }

    /// Nothing is put for a control sequence.
    #[inline(always)]
    fn passes_over_control_sequences(&self) -> bool {
        true
    }

    ghost follows = { Puts-follows };
}
