//! Readers and writers in memory: they give and take little, count what they are asked, and fail
//! where they are told to.
ghost use Rattle.std.specs.Prelude.{◌≡◌, IfOk};

use std::io::{self, Error, ErrorKind, Read, Write};

/// Some bytes, others that come so often, and the last bytes: a text that need not be stored.
#[derive(Clone, Copy)]
pub struct Pattern<'a> {
    front: &'a [u8],
    part: &'a [u8],
    times: usize,
    end: &'a [u8],
}

impl<'a> Pattern<'a> {
    pub fn new(front: &'a [u8], part: &'a [u8], times: usize, end: &'a [u8]) -> Pattern<'a> {
        Pattern {
            front,
            part,
            times,
            end,
        }
    }

    /// These bytes alone.
    pub fn of(bytes: &'a [u8]) -> Pattern<'a> {
        Pattern::new(bytes, b"", 0, b"")
    }

    /// At most so many bytes of what is left, which then are no more. None where nothing is left,
    /// and else some, but for a `most` of 0.
    fn take(&mut self, most: usize) -> &'a [u8] {
        if self.front.is_empty() {
            if self.times > 0 {
                self.times -= 1;
                self.front = self.part;
            } else {
                self.front = self.end;
                self.end = b"";
            }
        }
        let (taken, rest) = self.front.split_at(most.min(self.front.len()));
        self.front = rest;
        taken
    }

    /// Whether just so many bytes are left, all of them of one piece.
    fn lacks(&self, count: usize) -> bool {
        self.front.len() == count && self.times == 0 && self.end.is_empty()
    }
}

/// A reader of a text, which gives at most `each` bytes a read.
///
/// Its read number `fails_at`, counted from 1, answers an error of the kind `error`, and gives
/// nothing. `reads` counts the reads.
#[derive(Drop)]
pub struct Tape<'a> {
    text: Pattern<'a>,
    each: usize,
    pub fails_at: u64,
    pub error: ErrorKind,
    pub reads: u64,
}

impl<'a> Tape<'a> {
    /// No read fails.
    pub fn new(text: Pattern<'a>, each: usize) -> Tape<'a> {
        Tape {
            text,
            each,
            fails_at: u64::MAX,
            error: ErrorKind::Other,
            reads: 0,
        }
    }

    /// One byte a read, and no read fails.
    pub fn by_byte(bytes: &'a [u8]) -> Tape<'a> {
        Tape::new(Pattern::of(bytes), 1)
    }
}

impl Read for Tape<'_> {
    fn read(&mut self, buf: &mut [u8]) -> io::Result<usize> {
        self.reads = self.reads.saturating_add(1);
        if self.reads == self.fails_at {
            return Err(Error::from(self.error));
        }
        let taken = self.text.take(self.each.min(buf.len()));
        let count = taken.len().min(buf.len());
        let part = &mut buf[..count];
        part.copy_from_slice(&taken[..count]);
        Ok(count)
    }
}

/// A writer that is told what it will be given, and compares. It takes at most `each` bytes a write
/// and `room` in all, and no more than it was told.
///
/// A write without room, and the write number `fails_at`, counted from 1, answers an error of the
/// kind `trouble`, or takes 0 where that is `None`. A flush answers an error of the kind
/// `flush_error`, or goes well where that is `None`. `writes` and `flushes` count the calls.
#[derive(Clone, Copy)]
pub struct Paper<'a> {
    pub room: usize,
    pub flush_error: Option<ErrorKind>,
    pub writes: u64,
    pub flushes: u64,
    text: Pattern<'a>,
    differs: bool,
    each: usize,
    trouble: Option<ErrorKind>,
    fails_at: u64,
}

impl<'a> Paper<'a> {
    /// Takes all of the text, and nothing fails.
    pub fn new(text: Pattern<'a>) -> Paper<'a> {
        Paper {
            room: usize::MAX,
            flush_error: None,
            writes: 0,
            flushes: 0,
            text,
            differs: false,
            each: usize::MAX,
            trouble: Some(ErrorKind::Other),
            fails_at: u64::MAX,
        }
    }

    /// Takes one byte a write and `room` in all, and then there is trouble.
    pub fn narrow(text: &'a [u8], room: usize, trouble: Option<ErrorKind>) -> Paper<'a> {
        let mut paper = Paper::new(Pattern::of(text));
        paper.each = 1;
        paper.room = room;
        paper.trouble = trouble;
        paper
    }

    /// Takes one byte a write, and fails after `room` bytes alone: it would take what comes then.
    pub fn failing_once(text: &'a [u8], room: usize) -> Paper<'a> {
        let mut paper = Paper::narrow(text, usize::MAX, Some(ErrorKind::Other));
        paper.fails_at = (room as u64).saturating_add(1);
        paper
    }

    /// Whether it was given the text but for so many bytes at its end, and no other byte.
    pub fn lacks(&self, count: usize) -> bool {
        self.text.lacks(count) && !self.differs
    }
}

/// An error of this kind, and where there is none this value.
fn error_or<T: Copy>(kind: Option<ErrorKind>, value: T) -> io::Result<T>
    ensures { IfOk result (λ answer. answer ≡ value) }
{
    match kind {
        Some(kind) => Err(Error::from(kind)),
        None => Ok(value),
    }
}

impl Write for Paper<'_> {
    fn write(&mut self, buf: &[u8]) -> io::Result<usize> {
        self.writes = self.writes.saturating_add(1);
        let most = if self.writes == self.fails_at {
            0
        } else {
            self.each.min(self.room).min(buf.len())
        };
        let taken = self.text.take(most);
        let count = taken.len().min(most);
        if count == 0 {
            return error_or(self.trouble, 0);
        }
        self.differs = self.differs || taken != &buf[..count];
        self.room -= count;
        Ok(count)
    }

    fn flush(&mut self) -> io::Result<()> {
        self.flushes = self.flushes.saturating_add(1);
        error_or(self.flush_error, ())
    }
}

/// What a writer answers that takes no more: an error of either kind, or 0.
pub const TROUBLES: [Option<ErrorKind>; 3] = [
    Some(ErrorKind::Other),
    Some(ErrorKind::Interrupted),
    None,
];
