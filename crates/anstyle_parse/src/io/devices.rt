//! Where bytes come from, and where they go.
ghost use Rattle.std.specs.Prelude.{◌≡◌, ◌<◌, ◌≤◌, ◌↔◌, ℕ, Bool, true, false, List, Option, None, Some, is_some, length, take, IsTrue, IfSome, IsSome, IfNone, OnSome, ⊤};
ghost use Rattle.std.specs.Bool.{OnTrue, OnFalse};
ghost use Rattle.std.specs.Option.{option_or};
ghost use Rattle.std.specs.Io.KnownBytes.{Keeps, Appends, Consumes, IsAtEnd};
ghost use Rattle.anstyle_parse.specs.declared.io.Fault.{Fault as AFault};
ghost use Rattle.anstyle_parse.specs.declared.io.Fault.TheVariants.{Write as AWrite, Flush as AFlush};

use super::Fault;
use crate::padded::Padded;
use std::io;
use std::io::{Read, Write};

/// Gives bytes.
///
/// An implementation tells in `remaining` which bytes it will give from here on, where it
/// knows them, in `has_failed` whether a read has failed, and in `zero_is_end`, a fact of
/// the type, whether a 0 into a slice with room means that nothing is left.
pub trait Source {
    // The bytes that reads will give from here on, where they are known.
    ghost remaining: { Self → Option (List ℕ) };
    // Whether a read has failed.
    ghost has_failed: { Self → Bool };
    // Whether a 0 into a slice with room means that nothing is left.
    ghost zero_is_end: { Bool };

    /// Reads into the front of the slice, and answers how many bytes came; `None` where it
    /// failed, and then no byte passed. What it did once does not bind the next call: one
    /// that failed may be asked again.
    fn read(&mut self, into: &mut [u8]) -> Option<usize>
        ensures within { IfSome result (λ count. count ≤ length into.new) }
        ensures passed { IfSome result (λ count. Consumes (remaining self.old) (remaining self.new)
            (take count into.new)) }
        ensures end { IfSome result (λ count. count ≡ 0 → 0 < length into.new → IsTrue zero_is_end
            → IsAtEnd (remaining self.new)) }
        ensures not_failed { OnSome result (has_failed self.new ≡ has_failed self.old) }
        ensures nothing_passed { IfNone result (Keeps (remaining self.old) (remaining self.new)) }
        ensures failed { IfNone result (IsTrue (has_failed self.new)) };
}

/// Takes bytes.
///
/// An implementation tells in `contents` which bytes it has taken, where it knows them, in
/// `has_failed` whether a write or a flush has failed, where it knows it, in `failed_as` what the
/// last call that failed was, and, where it holds bytes back, in `holds_nothing` when it holds
/// none.
pub trait Sink {
    // The bytes that it has taken, where they are known.
    ghost contents: { Self → Option (List ℕ) };
    // Whether a write or a flush has failed.
    ghost has_failed: { Self → Bool };
    // The last call that failed was this fault.
    ghost failed_as: { Self → AFault → Type 0 } = { λ _ _. ⊤ };
    // None of these bytes is held back.
    ghost holds_nothing: { Self → Type 0 } = { λ _. ⊤ };

    /// Takes bytes from the front of the slice, and answers how many: of some bytes at
    /// least 1. `None` where it failed, and then no byte passed.
    fn write(&mut self, bytes: &[u8]) -> Option<usize>
        ensures within { IfSome result (λ count. count ≤ length bytes.now) }
        ensures some { IfSome result (λ count. 0 < length bytes.now → 0 < count) }
        ensures passed { IfSome result (λ count. Appends (contents self.old) (contents self.new)
            (take count bytes.now)) }
        ensures not_failed { OnSome result (has_failed self.new ≡ has_failed self.old) }
        ensures nothing_passed { IfNone result (Keeps (contents self.old) (contents self.new)) }
        ensures failed { IfNone result (IsTrue (has_failed self.new)) }
        ensures was_a_write { IfNone result (failed_as self.new AWrite) };

    /// The same with a text of which a writer may copy a whole chunk: then the copy needs no test of how many bytes
    /// there are.
    fn write_padded(&mut self, text: &Padded<'_>) -> Option<usize>
        ensures within { IfSome result (λ count. count ≤ length text.now) }
        ensures some { IfSome result (λ count. 0 < length text.now → 0 < count) }
        ensures passed { IfSome result (λ count. Appends (contents self.old) (contents self.new)
            (take count text.now)) }
        ensures not_failed { OnSome result (has_failed self.new ≡ has_failed self.old) }
        ensures nothing_passed { IfNone result (Keeps (contents self.old) (contents self.new)) }
        ensures failed { IfNone result (IsTrue (has_failed self.new)) }
        ensures was_a_write { IfNone result (failed_as self.new AWrite) }
    {
        self.write(text.as_bytes())
    }

    /// Sees to it that what was taken reaches where it is to go, and answers whether that
    /// went well. No further byte passes.
    fn flush(&mut self) -> bool
        ensures nothing_passed { Keeps (contents self.old) (contents self.new) }
        ensures handed_on { OnTrue result (holds_nothing self.new) }
        ensures not_failed { OnTrue result (has_failed self.new ≡ has_failed self.old) }
        ensures failed { OnFalse result (IsTrue (has_failed self.new)) }
        ensures was_a_flush { OnFalse result (failed_as self.new AFlush) };

    /// Whether it is known that the last call that failed was a write. With false nothing is known.
    fn has_failed_write(&self) -> bool
        ensures failed { OnTrue result (IsTrue (has_failed self.now)) }
        ensures was_a_write { OnTrue result (failed_as self.now AWrite) }
    {
        false
    }

    /// Hands on what is held back, where bytes are held back, and is no flush. Where that fails
    /// nothing is answered: what could not be handed on stays held back, a later write or the
    /// flush says so, and [`is_stuck`](Sink::is_stuck) tells it before. A writer that holds nothing
    /// back does nothing.
    fn pass_on(&mut self)
        ensures nothing_passed { Keeps (contents self.old) (contents self.new) }
        ensures not_told { has_failed self.new ≡ has_failed self.old }
    {}

    /// Whether bytes that are held back could not be passed on, and no answer has said so. With false
    /// nothing is known.
    fn is_stuck(&self) -> bool
        ensures held { OnTrue result (holds_nothing self.now → ⊥) }
    {
        false
    }
}

/// A reader of std as a [`Source`]. An error of whatever kind is a failure, `Interrupted`
/// too.
#[derive(Drop)]
pub struct FromRead<R> {
    inner: R,
    /// The error of the first read that failed.
    error: Option<io::Error>,
}

impl<R: Read> FromRead<R> {
    ghost use Rattle.anstyle_parse.specs.Io.Devices.{reader_of, reader_error, reader_failed};

    /// The reader, which has not failed so far.
    pub fn new(inner: R) -> FromRead<R>
        ensures inner { reader_of result ≡ inner }
        ensures not_failed { reader_failed result ≡ false }
    {
        FromRead { inner, error: None }
    }

    /// The reader as it stands.
    pub fn into_inner(self) -> R
        ensures { result ≡ reader_of self }
    {
        self.inner
    }

    /// The error of the first read that failed: there is one exactly where a read has failed.
    pub fn error(&self) -> Option<io::Error>
        ensures error { result ≡ reader_error self.now }
        ensures known { IsSome result ↔ IsTrue (reader_failed self.now) }
    {
        self.error
    }

    /// Keeps the error of a read that failed, where it is the first.
    fn keep(&mut self, error: io::Error)
        ensures inner { reader_of self.new ≡ reader_of self.old }
        ensures first { reader_error self.new ≡ option_or (reader_error self.old) (Some error) }
        ensures failed { IsTrue (reader_failed self.new) }
    {
        if self.error.is_none() {
            self.error = Some(error);
        }
    }
}

impl<R: Read> Source for FromRead<R> {
    ghost use Rattle.anstyle_parse.specs.Io.Devices.{reader_of, reader_error, reader_failed};

    ghost remaining = { λ source. R.remaining (reader_of source) };

    ghost has_failed = { reader_failed };

    ghost zero_is_end = { true };

    /// One read of the reader within. The error of the first that fails is kept, whatever comes
    /// later.
    fn read(&mut self, into: &mut [u8]) -> Option<usize>
        ensures within { IfSome result (λ count. count ≤ length into.new) }
        ensures passed { IfSome result (λ count. Consumes (R.remaining (reader_of self.old))
            (R.remaining (reader_of self.new)) (take count into.new)) }
        ensures end { IfSome result (λ count. count ≡ 0 → 0 < length into.new
            → IsAtEnd (R.remaining (reader_of self.new))) }
        ensures not_failed { OnSome result (reader_failed self.new ≡ reader_failed self.old) }
        ensures nothing_passed { IfNone result (Keeps (R.remaining (reader_of self.old))
            (R.remaining (reader_of self.new))) }
        ensures failed { IfNone result (IsTrue (reader_failed self.new)) }
        ensures same_error { OnSome result (reader_error self.new ≡ reader_error self.old) }
        ensures some_error { IfNone result (IsSome (reader_error self.new)) }
        ensures first_error { OnSome (reader_error self.old)
            (reader_error self.new ≡ reader_error self.old) }
    {
        match self.inner.read(into) {
            Ok(count) => Some(count),
            Err(error) => {
                self.keep(error);
                None
            }
        }
    }
}

/// A writer of std as a [`Sink`]. An error of whatever kind is a failure, `Interrupted`
/// too, and so is a write that takes none of some bytes.
#[derive(Drop)]
pub struct FromWrite<W> {
    inner: W,
    /// What the last call that failed was.
    fault: Option<Fault>,
    /// The error of the first call that failed.
    error: Option<io::Error>,
    ghost error_kept: { is_some error ≡ is_some fault },
}

impl<W: Write> FromWrite<W> {
    ghost use Rattle.anstyle_parse.specs.Io.Devices.{writer_of, writer_fault, writer_error, writer_failed};

    /// The writer, which has not failed so far.
    pub fn new(inner: W) -> FromWrite<W>
        ensures inner { writer_of result ≡ inner }
        ensures not_failed { writer_fault result ≡ None }
        ensures no_error { writer_error result ≡ None }
    {
        FromWrite {
            inner,
            fault: None,
            error: None,
        }
    }

    /// The writer as it stands. Nothing is flushed.
    pub fn into_inner(self) -> W
        ensures { result ≡ writer_of self }
    {
        self.inner
    }

    /// The error of the first write or flush that failed: there is one exactly where one has failed.
    /// That of a write which took none of some bytes is of the kind `WriteZero`.
    pub fn error(&self) -> Option<io::Error>
        ensures error { result ≡ writer_error self.now }
        ensures known { IsSome result ↔ IsTrue (writer_failed self.now) }
    {
        self.error
    }

    /// Keeps what a call that failed was, and its error where it is the first.
    fn keep(&mut self, fault: Fault, error: io::Error)
        ensures inner { writer_of self.new ≡ writer_of self.old }
        ensures fault { writer_fault self.new ≡ Some fault }
        ensures first { writer_error self.new ≡ option_or (writer_error self.old) (Some error) }
    {
        self.fault = Some(fault);
        if self.error.is_none() {
            self.error = Some(error);
        }
    }
}

impl<W: Write> Sink for FromWrite<W> {
    ghost use Rattle.anstyle_parse.specs.Io.Devices.{writer_of, writer_fault, writer_error, writer_failed};

    ghost contents = { λ sink. W.contents (writer_of sink) };

    ghost has_failed = { writer_failed };

    ghost failed_as = { λ sink fault. writer_fault sink ≡ Some fault };

    /// One write of the writer within. The error of the first call that fails is kept, whatever
    /// comes later.
    fn write(&mut self, bytes: &[u8]) -> Option<usize>
        ensures within { IfSome result (λ count. count ≤ length bytes.now) }
        ensures some { IfSome result (λ count. 0 < length bytes.now → 0 < count) }
        ensures passed { IfSome result (λ count. Appends (W.contents (writer_of self.old))
            (W.contents (writer_of self.new)) (take count bytes.now)) }
        ensures not_failed { OnSome result (writer_failed self.new ≡ writer_failed self.old) }
        ensures nothing_passed { IfNone result (Keeps (W.contents (writer_of self.old))
            (W.contents (writer_of self.new))) }
        ensures failed { IfNone result (IsTrue (writer_failed self.new)) }
        ensures was_a_write { IfNone result (writer_fault self.new ≡ Some AWrite) }
        ensures same_error { OnSome result (writer_error self.new ≡ writer_error self.old) }
        ensures some_error { IfNone result (IsSome (writer_error self.new)) }
        ensures first_error { OnSome (writer_error self.old)
            (writer_error self.new ≡ writer_error self.old) }
    {
        match self.inner.write(bytes) {
            Ok(count) if count > 0 || bytes.is_empty() => Some(count),
            Ok(_) => {
                self.keep(Fault::Write, io::Error::from(io::ErrorKind::WriteZero));
                None
            }
            Err(error) => {
                self.keep(Fault::Write, error);
                None
            }
        }
    }

    fn has_failed_write(&self) -> bool {
        matches!(self.fault, Some(Fault::Write))
    }

    /// One flush of the writer within, which keeps its error as a write does.
    fn flush(&mut self) -> bool
        ensures nothing_passed { Keeps (W.contents (writer_of self.old))
            (W.contents (writer_of self.new)) }
        ensures not_failed { OnTrue result (writer_failed self.new ≡ writer_failed self.old) }
        ensures failed { OnFalse result (IsTrue (writer_failed self.new)) }
        ensures was_a_flush { OnFalse result (writer_fault self.new ≡ Some AFlush) }
        ensures same_error { OnTrue result (writer_error self.new ≡ writer_error self.old) }
        ensures some_error { OnFalse result (IsSome (writer_error self.new)) }
        ensures first_error { OnSome (writer_error self.old)
            (writer_error self.new ≡ writer_error self.old) }
    {
        match self.inner.flush() {
            Ok(()) => true,
            Err(error) => {
                self.keep(Fault::Flush, error);
                false
            }
        }
    }
}
