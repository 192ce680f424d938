//! A writer that hands on many bytes at once.
ghost use Rattle.std.specs.Prelude.{◌≡◌, ◌≢◌, ◌<◌, ◌≤◌, ◌⊎◌, true, false, [], length, take, drop, IsTrue};
ghost use Rattle.std.specs.Bool.{OnTrue, OnFalse};
ghost use Rattle.std.specs.Io.KnownBytes.{Keeps, Appends};
ghost use Rattle.anstyle_parse.specs.Io.Buffer.{buffer_capacity};
ghost use Rattle.anstyle_parse.specs.declared.io.Fault.TheVariants.{Write as AWrite, Flush as AFlush};

use super::held::Held;
use super::{Fault, Sink};
use crate::padded::Padded;

/// A [`Sink`] in front of another that holds bytes back, up to 8192, and hands them on
/// together. It takes no memory.
///
/// Its bytes are those of the writer behind it, and then what is held back. A write takes as
/// many bytes as there is room for. One that finds no room hands on first; where that fails,
/// the write fails, and what could not be handed on stays held back. [`flush`](Sink::flush)
/// hands on everything and flushes the writer behind it. What is held back when the buffer is
/// dropped is lost.
#[derive(Drop)]
pub struct Buffer<W> {
    writer: W,
    held: Held,
    by_line: bool,
    /// Whether a write or a flush has failed.
    failed: bool,
    /// Whether bytes could not be passed on, which is still to be answered.
    owed: bool,
}

impl<W: Sink> Buffer<W> {
    ghost use Rattle.anstyle_parse.specs.Io.Buffer.{writer_behind, held_back, is_by_line, buffer_contents, buffer_failed, fault_behind, HandsOn};

    /// A buffer that holds nothing back, in front of the writer.
    pub fn new(writer: W) -> Buffer<W>
        ensures writer { writer_behind result ≡ writer }
        ensures empty { held_back result ≡ [] }
        ensures not_by_line { is_by_line result ≡ false }
        ensures not_failed { buffer_failed result ≡ false }
    {
        Buffer {
            writer,
            held: Held::new(),
            by_line: false,
            failed: false,
            owed: false,
        }
    }

    /// The same, and bytes that end a line (0A) are handed on at once: for a terminal.
    pub fn by_line(writer: W) -> Buffer<W>
        ensures writer { writer_behind result ≡ writer }
        ensures empty { held_back result ≡ [] }
        ensures by_line { is_by_line result ≡ true }
        ensures not_failed { buffer_failed result ≡ false }
    {
        let mut buffer = Buffer::new(writer);
        buffer.by_line = true;
        buffer
    }

    /// What a fault that came of this buffer was at the writer behind it.
    ///
    /// A flush hands on first. Where that fails, bytes are still held back and nothing was
    /// flushed: then a [`Fault::Flush`] was a write, [`Fault::Write`]. Any other fault is
    /// what it is.
    pub fn fault_behind(&self, fault: Fault) -> Fault
        ensures { result ≡ fault_behind fault (held_back self.now) }
    {
        match fault {
            Fault::Flush if !self.held.is_empty() => Fault::Write,
            _ => fault,
        }
    }

    /// The writer behind it. What is held back is lost.
    pub fn into_inner(self) -> W
        ensures { result ≡ writer_behind self }
    {
        self.writer
    }

    /// Hands on what is held back, and answers whether that went well. What the writer did
    /// not take stays held back.
    fn hand_on(&mut self) -> bool
        ensures kept { Keeps (buffer_contents W.contents self.old) (buffer_contents W.contents self.new) }
        ensures from_the_front { HandsOn W.contents self.old self.new }
        ensures emptied { OnTrue result (held_back self.new ≡ []) }
        ensures not_failed { OnTrue result (W.has_failed (writer_behind self.new)
            ≡ W.has_failed (writer_behind self.old)) }
        ensures failed { OnFalse result (IsTrue (W.has_failed (writer_behind self.new))) }
        ensures was_a_write { OnFalse result (W.failed_as (writer_behind self.new) AWrite) }
        ensures left { OnFalse result (held_back self.new ≢ []) }
        ensures same_mode { is_by_line self.new ≡ is_by_line self.old }
        ensures not_told { buffer_failed self.new ≡ buffer_failed self.old }
    {
        let held = self.held.as_slice();
        let count = write_out(&mut self.writer, held);
        if count == held.len() {
            self.held.clear();
            true
        } else {
            self.held.drop_front(count);
            false
        }
    }
}

/// Writes bytes until all are written or a write fails, and answers how many were written.
fn write_out<W: Sink>(writer: &mut W, bytes: &[u8]) -> usize
    ensures within { result ≤ length bytes.now }
    ensures passed { Appends (W.contents writer.old) (W.contents writer.new) (take result bytes.now) }
    ensures not_failed { result ≡ length bytes.now
        → W.has_failed writer.new ≡ W.has_failed writer.old }
    ensures failed { result < length bytes.now → IsTrue (W.has_failed writer.new) }
    ensures was_a_write { result < length bytes.now → W.failed_as writer.new AWrite }
{
    let mut written = 0;
    while written < bytes.len() {
        match writer.write(&bytes[written..]) {
            Some(count) => written += count,
            None => return written,
        }
    }
    written
}

impl<W: Sink> Sink for Buffer<W> {
    ghost use Rattle.std.specs.Prelude.{Some, IfSome, IfNone, OnSome};
    ghost use Rattle.anstyle_parse.specs.Io.Buffer.{writer_behind, held_back, is_by_line, buffer_contents, buffer_failed, FailedBehind, HandsOn, TakesFrom, EndsLine, CanWait, HoldsBack};

    ghost contents = { buffer_contents W.contents };

    ghost has_failed = { buffer_failed };

    ghost failed_as = { FailedBehind W.failed_as };

    ghost holds_nothing = { λ buffer. (held_back buffer ≡ [])
        × W.holds_nothing (writer_behind buffer) };

    /// Holds the bytes back where they can wait: where there is room for them, and by line where
    /// they end no line. By line, after bytes that end a line nothing is held back.
    #[inline]
    fn write(&mut self, bytes: &[u8]) -> Option<usize>
        ensures within { IfSome result (λ count. count ≤ length bytes.now) }
        ensures some { IfSome result (λ count. 0 < length bytes.now → 0 < count) }
        ensures taken { TakesFrom W.Sink bytes.now self.old self.new result }
        ensures held { CanWait self.old bytes.now → HoldsBack bytes.now self.old self.new
            × (result ≡ Some (length bytes.now)) }
        ensures lines_at_once { OnSome result (IsTrue (is_by_line self.old) → EndsLine bytes.now
            → held_back self.new ≡ []) }
    {
        let ends_line = self.by_line && bytes.last() == Some(&b'\n');
        if !ends_line && self.held.hold(bytes) {
            return Some(bytes.len());
        }
        self.write_through(bytes)
    }

    /// The same with a text, of which a whole chunk is copied where it can wait.
    #[inline(always)]
    fn write_padded(&mut self, text: &Padded<'_>) -> Option<usize>
        ensures within { IfSome result (λ count. count ≤ length text.now) }
        ensures some { IfSome result (λ count. 0 < length text.now → 0 < count) }
        ensures taken { TakesFrom W.Sink text.now self.old self.new result }
        ensures held { CanWait self.old text.now → HoldsBack text.now self.old self.new
            × (result ≡ Some (length text.now)) }
        ensures lines_at_once { OnSome result (IsTrue (is_by_line self.old) → EndsLine text.now
            → held_back self.new ≡ []) }
    {
        let all = text.as_bytes();
        let ends_line = self.by_line && all.last() == Some(&b'\n');
        if !ends_line && self.held.hold_padded(text) {
            return Some(all.len());
        }
        self.write_through(all)
    }

    /// Hands on what is held back, and flushes the writer behind it where that went well. What
    /// the writer did not take stays held back, so that [`fault_behind`](Buffer::fault_behind)
    /// says afterwards what failed there.
    fn flush(&mut self) -> bool
        ensures nothing_passed { Keeps (buffer_contents W.contents self.old) (buffer_contents W.contents self.new) }
        ensures from_the_front { HandsOn W.contents self.old self.new }
        ensures handed_on { OnTrue result ((held_back self.new ≡ [])
            × W.holds_nothing (writer_behind self.new)) }
        ensures not_failed { OnTrue result (W.has_failed (writer_behind self.new)
            ≡ W.has_failed (writer_behind self.old)) }
        ensures failed { OnFalse result (IsTrue (W.has_failed (writer_behind self.new))) }
        ensures behind { OnFalse result (FailedBehind W.failed_as self.new AFlush) }
        ensures not_told { OnTrue result (buffer_failed self.new ≡ buffer_failed self.old) }
        ensures told { OnFalse result (IsTrue (buffer_failed self.new)) }
        ensures same_mode { is_by_line self.new ≡ is_by_line self.old }
    {
        let went_well = !self.is_stuck() && self.hand_on() && self.writer.flush();
        self.owed = false;
        if !went_well {
            self.failed = true;
        }
        went_well
    }

    /// Hands on what is held back. Where that fails what the writer did not take stays held back,
    /// and nothing is answered: the flush, or a write that finds no room or ends a line, fails, and
    /// until then no more is tried.
    fn pass_on(&mut self)
        ensures nothing_passed { Keeps (buffer_contents W.contents self.old) (buffer_contents W.contents self.new) }
        ensures from_the_front { HandsOn W.contents self.old self.new }
        ensures tried { (held_back self.new ≡ []) ⊎ IsTrue (W.has_failed (writer_behind self.new)) }
        ensures not_told { buffer_failed self.new ≡ buffer_failed self.old }
        ensures same_mode { is_by_line self.new ≡ is_by_line self.old }
    {
        if !self.is_stuck() {
            self.owed = !self.hand_on();
        }
    }

    /// Whether bytes that are held back could not be passed on, and no answer has said so.
    fn is_stuck(&self) -> bool
        ensures failed { OnTrue result (IsTrue (W.has_failed (writer_behind self.now))) }
        ensures was_a_write { OnTrue result (W.failed_as (writer_behind self.now) AWrite) }
        ensures left { OnTrue result (held_back self.now ≢ []) }
    {
        self.owed && !self.held.is_empty() && self.writer.has_failed_write()
    }
}

impl<W: Sink> Buffer<W> {
    ghost use Rattle.std.specs.Prelude.{IfSome, OnSome};
    ghost use Rattle.anstyle_parse.specs.Io.Buffer.{held_back, is_by_line, TakesFrom};

    /// Takes bytes that can't just be held back too. By line, what is held back is handed on and
    /// the bytes are written after it. Else, where there is no room what is held back is handed on
    /// first, and as many bytes are taken as there is room for.
    #[inline(never)]
    fn write_through(&mut self, bytes: &[u8]) -> Option<usize>
        ensures within { IfSome result (λ count. count ≤ length bytes.now) }
        ensures some { IfSome result (λ count. 0 < length bytes.now → 0 < count) }
        ensures taken { TakesFrom W.Sink bytes.now self.old self.new result }
        ensures lines_at_once { OnSome result (IsTrue (is_by_line self.old)
            → held_back self.new ≡ []) }
    {
        if self.is_stuck() {
            self.owed = false;
            self.failed = true;
            return None;
        }
        let is_full = self.held.room() == 0;
        if (self.by_line || is_full) && !self.hand_on() {
            self.failed = true;
            return None;
        }
        if self.by_line {
            let written = self.writer.write(bytes);
            if written.is_none() {
                self.failed = true;
            }
            return written;
        }
        let count = bytes.len().min(self.held.room());
        self.held.hold(&bytes[..count]);
        Some(count)
    }
}
