//! What a performer writes of a piece, before it goes to the caller's room.
ghost use Rattle.std.specs.Prelude.{◌≡◌, ◌<◌, ◌≤◌, ◌+◌, ◌++◌, ◌∷◌, [], false, Some, IfSome, IfNone, OnSome, IsTrue, length, take, drop, min};

use anstyle_parse::io::Sink;

/// Takes bytes up to a limit into memory that is lent to it, and then fails.
#[derive(Drop)]
pub struct LentBytes<'a> {
    limit: usize,
    into: &'a mut [u8],
    written: usize,
    overflowed: bool,
    ghost within: { written ≤ limit },
    ghost limited: { limit ≤ length into.now },
}

impl<'a> LentBytes<'a> {
    ghost use Rattle.stream_state.specs.Lent.{limit_of, held_in, has_overflowed, is_full};

    /// One that holds nothing, and takes at most so many bytes, and as many as are lent.
    pub fn new(limit: usize, into: &'a mut [u8]) -> LentBytes<'a>
        ensures limit { limit_of result ≡ min limit (length into.old) }
        ensures nothing { held_in result ≡ [] }
        ensures not_failed { has_overflowed result ≡ false }
    {
        LentBytes {
            limit: limit.min(into.len()),
            into,
            written: 0,
            overflowed: false,
        }
    }

    /// Holds these bytes too. Mostly their number is known where they are written, and then they are copied with no
    /// call.
    #[inline(always)]
    fn hold(&mut self, bytes: &[u8])
        requires room { length (held_in self.old) + length bytes.now ≤ limit_of self.old }
        ensures held { held_in self.new ≡ held_in self.old ++ bytes.now }
        ensures same_limit { limit_of self.new ≡ limit_of self.old }
        ensures not_failed { has_overflowed self.new ≡ has_overflowed self.old }
    {
        let end = self.written + bytes.len();
        self.into[self.written..end].copy_from_slice(bytes);
        self.written = end;
    }

    /// Holds as many of these bytes as there is room for, which is not for all, and answers how many: `None` where
    /// there is no room. It is out of line, since mostly there is room for all.
    #[inline(never)]
    fn hold_fitting(&mut self, bytes: &[u8]) -> Option<usize>
        requires over { limit_of self.old < length (held_in self.old) + length bytes.now }
        ensures within { IfSome result (λ count. count ≤ length bytes.now) }
        ensures some { IfSome result (λ count. 0 < count) }
        ensures held { IfSome result (λ count. held_in self.new ≡ held_in self.old ++ take count bytes.now) }
        ensures not_failed { OnSome result (has_overflowed self.new ≡ has_overflowed self.old) }
        ensures nothing_held { IfNone result (held_in self.new ≡ held_in self.old) }
        ensures failed { IfNone result (IsTrue (has_overflowed self.new)) }
        ensures full { IfNone result (is_full self.new) }
        ensures same_limit { limit_of self.new ≡ limit_of self.old }
    {
        let room = self.limit - self.written;
        if room == 0 {
            self.overflowed = true;
            return None;
        }
        self.hold(&bytes[..room]);
        Some(room)
    }

    /// What it holds.
    pub fn bytes(&self) -> &[u8]
        ensures { result.now ≡ held_in self.now }
    {
        &self.into[..self.written]
    }
}

impl<'a> Sink for LentBytes<'a> {
    ghost use Rattle.stream_state.specs.Lent.{contents_of, has_overflowed, is_full};

    ghost contents = { λ lent. Some (contents_of lent) };

    ghost has_failed = { has_overflowed };

    ghost failed_as = { λ lent fault. is_full lent };

    #[inline]
    fn write(&mut self, bytes: &[u8]) -> Option<usize> {
        if bytes.len() > self.limit - self.written {
            return self.hold_fitting(bytes);
        }
        self.hold(bytes);
        Some(bytes.len())
    }

    fn flush(&mut self) -> bool {
        true
    }
}

/// Writes bytes to the start of the room, which has room for all, and answers how many they are.
pub fn put_at_start(room: &mut [u8], bytes: &[u8]) -> usize
    requires { length bytes.now ≤ length room.old }
    ensures length { result ≡ length bytes.now }
    ensures written { room.new ≡ bytes.now ++ drop (length bytes.now) room.old }
{
    room[..bytes.len()].copy_from_slice(bytes);
    bytes.len()
}
