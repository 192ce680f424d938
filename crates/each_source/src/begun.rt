//! A source whose front was read before it is used: what is read of it is looked at, and then given as if it had not
//! been.
ghost use Rattle.std.specs.Prelude.{◌≡◌, ◌<◌, ◌≤◌, IfSome, OnSome, IfNone, IsTrue, length, take};
ghost use Rattle.std.specs.Io.KnownBytes.{Consumes, IsAtEnd, Keeps, prepend_known};
ghost use Rattle.each_source.specs.Begun.{IsFront, has_first_line};

use crate::MOST_FRONT;
use anstyle_parse::io::Source;

/// A source of which a front was read. Reads give these bytes, and then what the source gives.
#[derive(Drop)]
pub struct Begun<'a, R> {
    front: &'a [u8],
    reader: R,
}

impl<'a, R: Source> Begun<'a, R> {
    ghost use Rattle.each_source.specs.BegunParts.{front_of, reader_of};

    /// A source of which these bytes were read.
    pub fn new(front: &'a [u8], reader: R) -> Begun<'a, R>
        ensures front { front_of result ≡ front.now }
        ensures reader { reader_of result ≡ reader }
    {
        Begun { front, reader }
    }

    /// The source, as it stands.
    pub fn into_inner(self) -> R
        ensures { result ≡ reader_of self.entry }
    {
        self.reader
    }
}

impl<R: Source> Source for Begun<'_, R> {
    ghost use Rattle.each_source.specs.BegunParts.{front_of, reader_of};

    ghost remaining = { λ begun. prepend_known (front_of begun) (R.remaining (reader_of begun)) };

    ghost has_failed = { λ begun. R.has_failed (reader_of begun) };

    ghost zero_is_end = { R.zero_is_end };

    fn read(&mut self, into: &mut [u8]) -> Option<usize>
        ensures within { IfSome result (λ count. count ≤ length into.new) }
        ensures passed { IfSome result (λ count. Consumes
            (prepend_known (front_of self.old) (R.remaining (reader_of self.old)))
            (prepend_known (front_of self.new) (R.remaining (reader_of self.new))) (take count into.new)) }
        ensures end { IfSome result (λ count. count ≡ 0 → 0 < length into.new → IsTrue R.zero_is_end
            → IsAtEnd (prepend_known (front_of self.new) (R.remaining (reader_of self.new)))) }
        ensures not_failed { OnSome result (R.has_failed (reader_of self.new) ≡ R.has_failed (reader_of self.old)) }
        ensures nothing_passed { IfNone result (Keeps
            (prepend_known (front_of self.old) (R.remaining (reader_of self.old)))
            (prepend_known (front_of self.new) (R.remaining (reader_of self.new)))) }
        ensures failed { IfNone result (IsTrue (R.has_failed (reader_of self.new))) }
    {
        if self.front.is_empty() {
            return self.reader.read(into);
        }
        let count = self.front.len().min(into.len());
        let (given, left) = self.front.split_at(count);
        into[..count].copy_from_slice(given);
        self.front = left;
        Some(count)
    }
}

/// Reads the front of a source to the front of this piece, as far as its first line: to a line feed, or as many bytes
/// as there is room for, or to the end, or up to a read that fails. The answer is how many bytes there are.
pub fn read_first_line<R: Source>(reader: &mut R, piece: &mut [u8; MOST_FRONT]) -> usize
    ensures within { result ≤ MOST_FRONT }
    ensures consumed { Consumes (R.remaining reader.old) (R.remaining reader.new) (take result piece.new) }
    ensures front { IsFront R.Source reader.new (take result piece.new) }
{
    let mut count = 0;
    'count: while !has_first_line(&piece[..count]) {
        match reader.read(&mut piece[count..]) {
            None => return count,
            Some(0) => return count,
            Some(more) => count += more,
        }
    }
    count
}

/// Whether bytes at the front of a source have its first line, or as much of it as is looked at.
fn has_first_line(front: &[u8]) -> bool
    ensures { result ≡ has_first_line front.now }
{
    MOST_FRONT <= front.len() || front.contains(&b'\n')
}
