//! Readers and writers for tests: they give and take little, count what they are asked, and
//! fail where they are told to.
#![tactic(auto)]

use std::alloc::{AllocError, Global};
use std::io::{self, Error, ErrorKind, Read, Write};

/// A reader of some bytes, which gives at most `each` of them a read.
///
/// Its read number `fails_at`, counted from 1, answers an error of the kind `error`, and gives
/// nothing; it may be asked again. `reads` counts the reads, and `longest` is the length of the
/// longest slice that it was handed.
#[derive(Drop)]
pub struct Tape<'a> {
    pub left: &'a [u8],
    pub each: usize,
    pub fails_at: u64,
    pub error: ErrorKind,
    pub reads: u64,
    pub longest: usize,
}

impl<'a> Tape<'a> {
    /// Gives as much as is asked for, and no read fails.
    pub fn new(bytes: &'a [u8]) -> Tape<'a> {
        Tape {
            left: bytes,
            each: usize::MAX,
            fails_at: u64::MAX,
            error: ErrorKind::Other,
            reads: 0,
            longest: 0,
        }
    }

    /// One byte a read, and no read fails.
    pub fn by_byte(bytes: &'a [u8]) -> Tape<'a> {
        let mut tape = Tape::new(bytes);
        tape.each = 1;
        tape
    }
}

impl Read for Tape<'_> {
    fn read(&mut self, buf: &mut [u8]) -> io::Result<usize> {
        self.reads = self.reads.saturating_add(1);
        self.longest = self.longest.max(buf.len());
        if self.reads == self.fails_at {
            return Err(Error::from(self.error));
        }
        let count = self.each.min(buf.len()).min(self.left.len());
        let (front, rest) = self.left.split_at(count);
        let part = &mut buf[..count];
        part.copy_from_slice(front);
        self.left = rest;
        Ok(count)
    }
}

/// A writer over memory, which takes at most `each` bytes a write and `room` in all.
///
/// A write without room, and the write number `fails_at`, counted from 1, answers an error of
/// the kind `trouble`, or takes 0 where that is `None`; it may be asked again. A flush answers
/// an error of the kind `flush_error`, or goes well where that is `None`. `writes` and
/// `flushes` count the calls.
#[derive(Drop)]
pub struct Paper {
    pub text: Vec<u8>,
    pub each: usize,
    pub room: usize,
    pub trouble: Option<ErrorKind>,
    pub fails_at: u64,
    pub flush_error: Option<ErrorKind>,
    pub writes: u64,
    pub flushes: u64,
}

impl Paper {
    /// Takes all bytes, and nothing fails.
    pub fn new(alloc: Global) -> Paper {
        Paper {
            text: Vec::new(alloc),
            each: usize::MAX,
            room: usize::MAX,
            trouble: Some(ErrorKind::Other),
            fails_at: u64::MAX,
            flush_error: None,
            writes: 0,
            flushes: 0,
        }
    }

    /// Takes one byte a write and `room` in all, and then there is trouble.
    pub fn narrow(alloc: Global, room: usize, trouble: Option<ErrorKind>) -> Paper {
        let mut paper = Paper::new(alloc);
        paper.each = 1;
        paper.room = room;
        paper.trouble = trouble;
        paper
    }

    /// Takes one byte a write, and has trouble at its write number `fails_at` alone.
    pub fn failing_once(alloc: Global, fails_at: u64, trouble: Option<ErrorKind>) -> Paper {
        let mut paper = Paper::narrow(alloc, usize::MAX, trouble);
        paper.fails_at = fails_at;
        paper
    }
}

impl Write for Paper {
    fn write(&mut self, buf: &[u8]) -> io::Result<usize> {
        self.writes = self.writes.saturating_add(1);
        let count = self.each.min(buf.len()).min(self.room);
        if count == 0 || self.writes == self.fails_at {
            return match self.trouble {
                Some(kind) => Err(Error::from(kind)),
                None => Ok(0),
            };
        }
        self.text.extend_from_slice(&buf[..count])?;
        self.room -= count;
        Ok(count)
    }

    fn flush(&mut self) -> io::Result<()> {
        self.flushes = self.flushes.saturating_add(1);
        match self.flush_error {
            Some(kind) => Err(Error::from(kind)),
            None => Ok(()),
        }
    }
}

/// What a writer answers once it takes no more: an error of either kind, or 0.
pub const TROUBLES: [Option<ErrorKind>; 3] = [
    Some(ErrorKind::Other),
    Some(ErrorKind::Interrupted),
    None,
];

/// Texts, each so often, one after another.
pub fn repeated(alloc: Global, parts: &[(&[u8], usize)]) -> Result<Vec<u8>, AllocError> {
    let mut bytes = Vec::new(alloc);
    for (part, times) in parts {
        for _ in 0..*times {
            bytes.extend_from_slice(part)?;
        }
    }
    Ok(bytes)
}
