//! The bytes that a buffer holds back.
ghost use Rattle.std.specs.Prelude.{◌≡◌, ◌≤◌, ◌+◌, ◌++◌, ◌↔◌, ◌==◌, [], length, drop, IsTrue};
ghost use Rattle.std.specs.Bool.{OnTrue, OnFalse};

use crate::padded::Padded;
use std::simd::prelude::*;

/// The bytes that are held at most.
pub(super) const CAPACITY: usize = 8192;
/// How long a block is, which is copied whole.
const BLOCK: usize = 16;

/// Up to 8192 bytes. There is room for a block after them, even where they are 8192.
#[derive(Drop)]
pub(super) struct Held {
    bytes: [u8; CAPACITY + BLOCK],
    len: usize,
    ghost few: { len ≤ 8192 },
}

impl Held {
    ghost use Rattle.anstyle_parse.specs.Io.Buffer.{buffer_capacity, held_in};

    /// No bytes.
    pub(super) fn new() -> Held
        ensures { held_in result ≡ [] }
    {
        Held {
            bytes: [0; CAPACITY + BLOCK],
            len: 0,
        }
    }

    /// The bytes.
    #[inline]
    pub(super) fn as_slice(&self) -> &[u8]
        ensures value { result.now ≡ held_in self.now }
        ensures few { length result.now ≤ buffer_capacity }
    {
        &self.bytes[..self.len]
    }

    /// How many more there is room for.
    #[inline]
    pub(super) fn room(&self) -> usize
        ensures { result + length (held_in self.now) ≡ buffer_capacity }
    {
        CAPACITY - self.len
    }

    /// Whether there are none.
    #[inline]
    pub(super) fn is_empty(&self) -> bool
        ensures { IsTrue result ↔ (held_in self.now ≡ []) }
    {
        self.len == 0
    }

    /// Holds these bytes too, and answers whether there was room for them.
    #[inline]
    pub(super) fn hold(&mut self, bytes: &[u8]) -> bool
        ensures fits { IsTrue result ↔ (length (held_in self.old) + length bytes.now ≤ buffer_capacity) }
        ensures held { OnTrue result (held_in self.new ≡ held_in self.old ++ bytes.now) }
        ensures same { OnFalse result (held_in self.new ≡ held_in self.old) }
    {
        if bytes.len() > self.room() {
            return false;
        }
        let end = self.len + bytes.len();
        self.bytes[self.len..end].copy_from_slice(bytes);
        self.len = end;
        true
    }

    /// The same with a text, by a copy of its chunk: what stands after the bytes that are held is none of them.
    #[inline(always)]
    pub(super) fn hold_padded(&mut self, text: &Padded<'_>) -> bool
        ensures fits { IsTrue result ↔ (length (held_in self.old) + length text.now ≤ buffer_capacity) }
        ensures held { OnTrue result (held_in self.new ≡ held_in self.old ++ text.now) }
        ensures same { OnFalse result (held_in self.new ≡ held_in self.old) }
    {
        let count = text.len();
        if count > self.room() {
            return false;
        }
        let place = &mut self.bytes[self.len..self.len + BLOCK];
        u8x16::from_array(*text.chunk()).copy_to_slice(place);
        self.len += count;
        true
    }

    /// Drops the first `count` of them.
    pub(super) fn drop_front(&mut self, count: usize)
        requires { count ≤ length (held_in self.old) }
        ensures { held_in self.new ≡ drop count (held_in self.old) }
    {
        self.bytes.copy_within(count..self.len, 0);
        self.len -= count;
    }

    /// Drops all of them.
    #[inline]
    pub(super) fn clear(&mut self)
        ensures { held_in self.new ≡ [] }
    {
        self.len = 0;
    }
}
