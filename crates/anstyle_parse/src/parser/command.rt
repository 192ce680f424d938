//! An operating system command: its text, and where that is parted.
ghost use Rattle.std.specs.Prelude.{◌≡◌, ◌≤◌, length, take, map, ⊤};
ghost use Rattle.anstyle_parse.specs.Stream.Groups.{total, cut};
ghost use Rattle.anstyle_parse.specs.Stream.Arguments.{max_osc_bytes, max_osc_parts};
ghost use Rattle.anstyle_parse.specs.Stream.Items.{EachIs};
ghost use Rattle.anstyle_parse.specs.Stream.Bytes.{is_plain_text};
ghost use Rattle.arrayvec.specs.ArrayVec.{array_vec_len};

use crate::chunks::{CHUNK, unplain};
use crate::controls::SPACE;
use arrayvec::ArrayVec;
use std::alloc::AllocError;
use std::simd::prelude::*;

/// The bytes of a command that are stored at most.
const MAX_OSC_RAW: usize = 1024;
/// The parts of a command at most.
pub(super) const MAX_OSC_PARTS: usize = 16;

/// The text of a command so far.
#[derive(Debug, PartialEq, Eq, Drop)]
pub(super) struct Command {
    /// The text, without its separators.
    text: ArrayVec<u8, MAX_OSC_RAW>,
    /// How long each closed part of it is.
    lengths: [usize; MAX_OSC_PARTS],
    /// How many parts are closed, and how many bytes those have.
    parts: usize,
    closed: usize,
    ghost few_parts: { parts ≤ max_osc_parts },
    ghost closed_parts: { total (take parts lengths) ≡ closed },
    ghost parts_in_text: { closed ≤ array_vec_len text },
    ghost text_fits: { array_vec_len text ≤ max_osc_bytes },
}

impl Command {
    ghost use Rattle.anstyle_parse.specs.Machine.Step.{new_machine};
    ghost use Rattle.anstyle_parse.specs.Views.Command.{texting_of};

    /// A command with no text.
    pub(super) fn new() -> Command
        ensures { texting_of result ≡ new_machine tt }
    {
        Command {
            text: ArrayVec::new(),
            lengths: [0; MAX_OSC_PARTS],
            parts: 0,
            closed: 0,
        }
    }
}

impl Clone for Command {
    ghost is_clone = { λ command clone. clone ≡ command };

    ghost is_infallible = { λ _. ⊤ };

    /// The same value; it never fails.
    fn clone(&self) -> Result<Command, AllocError> {
        let mut text = ArrayVec::new();
        let _ = text.try_extend_from_slice(self.text.as_slice());
        Ok(Command {
            text,
            lengths: self.lengths,
            parts: self.parts,
            closed: self.closed,
        })
    }
}

/// The actions of a command.
impl Command {
    ghost use Rattle.anstyle_parse.specs.Machine.Step.{with_part, after_osc_put, after_osc_start};
    ghost use Rattle.anstyle_parse.specs.Views.Command.{texting_of};

    /// Begins a command: no byte is stored and no part closed.
    pub(super) fn start(&mut self)
        ensures { texting_of self.new ≡ after_osc_start (texting_of self.old) }
    {
        self.text.clear();
        self.parts = 0;
        self.closed = 0;
    }

    /// Stores a byte of the text, or closes a part.
    pub(super) fn put(&mut self, byte: u8)
        ensures { texting_of self.new ≡ after_osc_put byte (texting_of self.old) }
    {
        if self.text.is_full() {
            return;
        }
        if byte == b';' {
            self.close_part();
        } else {
            self.text.push(byte);
        }
    }

    /// The text after the last closed part becomes a part, unless there are sixteen.
    pub(super) fn close_part(&mut self)
        ensures { texting_of self.new ≡ with_part (texting_of self.old) }
    {
        if self.parts < MAX_OSC_PARTS {
            let end = self.text.len();
            self.lengths[self.parts] = end - self.closed;
            self.parts += 1;
            self.closed = end;
        }
    }
}

/// Plain text, stored at once.
impl Command {
    ghost use Rattle.anstyle_parse.specs.Views.Command.{texting_of, StoresPlain};

    /// Stores plain text from the front of the bytes, as much as there is room for, and
    /// answers the rest.
    #[inline(always)]
    pub(super) fn put_plain<'a>(&mut self, bytes: &'a [u8]) -> &'a [u8]
        ensures { StoresPlain (texting_of self.old) bytes.now (texting_of self.new) result.now }
    {
        let room = self.text.remaining_capacity().min(bytes.len());
        let (near, _) = bytes.split_at(room);
        let (plain, rest) = bytes.split_at(plain_length(near));
        let _ = self.text.try_extend_from_slice(plain);
        rest
    }
}

/// A command's text, for a dispatch and for a checkpoint.
impl Command {
    ghost use Rattle.std.specs.Prelude.{drop};
    ghost use Rattle.anstyle_parse.specs.Views.Command.{texting_of};

    /// The text, and how long each closed part of it is.
    pub(super) fn text(&self) -> (&[u8], &[usize])
        ensures within { total result.1.now ≤ length result.0.now }
        ensures few { length result.1.now ≤ max_osc_parts }
        ensures closed { cut result.1.now result.0.now ≡ (texting_of self.now).closed_parts }
        ensures rest { drop (total result.1.now) result.0.now ≡ (texting_of self.now).open_part }
    {
        let lengths = &self.lengths[..];
        (self.text.as_slice(), &lengths[..self.parts])
    }
}

/// A byte of a command's text that is no separator.
#[inline(always)]
#[tactic(auto, unfolding(crate::specs::Stream::Bytes::is_within))]
pub(super) fn is_plain_byte(byte: u8) -> bool
    ensures { result ≡ is_plain_text byte }
{
    byte >= SPACE && byte != b';'
}

/// How many bytes of plain text come first.
#[inline(always)]
fn plain_length(bytes: &[u8]) -> usize
    ensures within { result ≤ length bytes.now }
    ensures plain { EachIs is_plain_text (take result bytes.now) }
{
    let mut rest = bytes;
    'chunks: while let Some((chunk, behind)) = rest.split_first_chunk::<CHUNK>() {
        let others = unplain(u8x16::from_array(*chunk));
        if others != 0 {
            return bytes.len() - rest.len() + others.trailing_zeros() as usize;
        }
        rest = behind;
    }
    'bytes: while let Some((first, behind)) = rest.split_first() {
        if !is_plain_byte(*first) {
            break;
        }
        rest = behind;
    }
    bytes.len() - rest.len()
}

/// Sets the first of these to the parts of a command, as slices of its text: as many as there are lengths.
#[inline(always)]
pub(super) fn set_parts<'a>(parts: &mut [&'a [u8]], text: &'a [u8], lengths: &[usize])
    requires few { length lengths.now ≤ length parts.old }
    requires within { total lengths.now ≤ length text.now }
    ensures same_length { length parts.new ≡ length parts.old }
    ensures parts { map (λ part. part.now) (take (length lengths.now) parts.new) ≡ cut lengths.now text.now }
{
    let mut rest = text;
    for (i, part_length) in lengths.iter().enumerate() {
        let (part, behind) = rest.split_at(*part_length);
        parts[i] = part;
        rest = behind;
    }
}
