//! A text that a program tells.
ghost use Rattle.std.specs.Prelude.{◌≡◌, ◌≤◌, [], length, take, map, IsTrue};
ghost use Rattle.std.specs.Str.Lossy.{utf8_valid_len};
ghost use Rattle.ansi_modes.specs.Text.{is_shown, is_inert, with_character, with_bytes, with_parts, text_of};

use arrayvec::ArrayString;
use std::marker::Model;

/// So many bytes a text has at most.
pub const MAX_TEXT: usize = 1024;

/// A text without controls: a title, or a folder.
#[derive(Drop)]
pub struct Text {
    text: ArrayString<MAX_TEXT>,
    ghost inert: { IsTrue (is_inert text.bytes) },
}

impl Model for Text {
    ghost use Rattle.std.specs.Prelude.{ℕ, List};

    ghost Value = { List ℕ };

    ghost view = { λ t. t.text.bytes };
}

/// Whether a character is no control, of C1 neither.
#[tactic(auto, unfolding(crate::specs::Text::is_shown))]
fn is_shown(c: char) -> bool
    ensures { result ≡ is_shown c }
{
    c >= ' ' && !('\u{7F}' <= c && c <= '\u{9F}')
}

/// The text at the front of bytes.
fn front(bytes: &[u8]) -> &str
    ensures { result.now ≡ take (utf8_valid_len bytes.now) bytes.now }
{
    match bytes.utf8_chunks().next() {
        Some(chunk) => chunk.valid(),
        None => "",
    }
}

impl Text {
    /// None.
    pub(crate) fn new() -> Text
        ensures { result ≡ [] }
    {
        Text {
            text: ArrayString::new(),
        }
    }

    /// Another one that is the same.
    pub(crate) fn copy(&self) -> Text
        ensures { result ≡ self.now }
    {
        Text { text: self.text }
    }

    /// The text.
    pub fn as_str(&self) -> &str
        ensures text { result.now ≡ self.now }
        ensures bound { length result.now ≤ MAX_TEXT }
        ensures inert { IsTrue (is_inert result.now) }
    {
        self.text.as_str()
    }

    /// Takes a character that is shown and has room.
    #[tactic(auto, unfolding(crate::specs::Text::with_character))]
    fn put(&mut self, c: char)
        ensures { self.new ≡ with_character c self.old }
    {
        if is_shown(c) && c.len_utf8() <= self.text.remaining_capacity() {
            self.text.push(c);
        }
    }

    /// Takes the text at the front of bytes.
    fn put_bytes(&mut self, bytes: &[u8])
        ensures { self.new ≡ with_bytes bytes.now self.old }
    {
        for c in front(bytes).chars() {
            self.put(c);
        }
    }

    /// Takes parts, each with `;` before it.
    fn put_parts(&mut self, parts: &[&[u8]])
        ensures { self.new ≡ with_parts (map (λ part. part.now) parts.now) self.old }
    {
        for part in parts {
            self.put(';');
            self.put_bytes(part);
        }
    }

    /// It has nothing any more.
    fn clear(&mut self)
        ensures { self.new ≡ [] }
    {
        self.text.clear();
    }

    /// It becomes the text of the parts of a command that come after its number.
    #[tactic(auto, unfolding(crate::specs::Text::text_of))]
    pub(crate) fn read(&mut self, parts: &[&[u8]])
        ensures { self.new ≡ text_of (map (λ part. part.now) parts.now) }
    {
        self.clear();
        if let [part, more @ ..] = parts {
            self.put_bytes(part);
            self.put_parts(more);
        }
    }
}
