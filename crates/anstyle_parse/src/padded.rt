//! A text that may be read sixteen bytes past its start.
ghost use Rattle.std.specs.Prelude.{◌≡◌, ◌≤◌, length, take};

use crate::chunks::CHUNK;
use std::marker::Model;

/// A text of up to sixteen bytes, at the front of sixteen bytes that may all be read.
///
/// What comes after the text is no part of it. It is there so that whoever takes the text can look at all sixteen
/// bytes at once, or copy them, whatever the text's length is: most texts between two controls are shorter, and a loop
/// over their bytes, or a copy by their length, costs more than that. simdjson has the same for a whole document, its
/// `padded_string_view`.
///
/// In a clause it is the text, a list of bytes.
#[derive(Drop)]
pub struct Padded<'a> {
    chunk: &'a [u8; CHUNK],
    count: usize,
}

impl<'a> Model for Padded<'a> {
    ghost use Rattle.std.specs.Prelude.{ℕ, ◌≡◌, ◌≤◌, List, length, take};

    ghost Value = { List ℕ };

    ghost view = { λ padded. take padded.count padded.chunk.now };

    ghost invariant = { λ padded. (padded.count ≤ 16) × (length padded.chunk.now ≡ 16) };
}

impl<'a> Padded<'a> {
    /// The first `count` bytes of a chunk, 0 to 16 of them.
    #[inline(always)]
    pub fn new(chunk: &'a [u8; CHUNK], count: usize) -> Padded<'a>
        requires within { count ≤ length chunk.now }
        ensures { result ≡ take count chunk.now }
    {
        Padded { chunk, count }
    }

    /// The text, and nothing of what comes after it.
    #[inline(always)]
    pub fn as_bytes(&self) -> &'a [u8]
        ensures { result.now ≡ self.now }
    {
        let chunk = self.chunk;
        &chunk[..self.count]
    }

    /// How many bytes the text has, 0 to 16.
    #[inline(always)]
    pub fn len(&self) -> usize
        ensures value { result ≡ length self.now }
        ensures within { result ≤ 16 }
    {
        self.count
    }

    /// The sixteen bytes that may be read: those of the text, and then others.
    #[inline(always)]
    pub fn chunk(&self) -> &'a [u8; CHUNK]
        ensures text { take (length self.now) result.now ≡ self.now }
        ensures sixteen { length result.now ≡ 16 }
    {
        self.chunk
    }

    /// The text's own first `count` bytes, 0 to all of them, at the front of the same sixteen.
    #[inline(always)]
    pub fn first(&self, count: usize) -> Padded<'a>
        requires within { count ≤ length self.now }
        ensures { result ≡ take count self.now }
    {
        Padded {
            chunk: self.chunk,
            count,
        }
    }
}
