//! The bytes of an answer, without memory of their own.
ghost use Rattle.std.specs.Prelude.{◌≡◌, ◌≤◌, Some, [], false, length};
ghost use Rattle.ansi_answers.specs.Text.{answer_text, max_answer};
ghost use Rattle.ansi_answers.specs.Room.{bytes_in, has_overflowed};

use crate::answer::{Answer, MAX_ANSWER};
use crate::laws::form;
use anstyle_parse::io::{Output, Sink};
use arrayvec::ArrayVec;

/// Takes as many bytes as an answer may have, and then fails.
#[derive(Drop)]
struct AnswerRoom {
    bytes: ArrayVec<u8, MAX_ANSWER>,
    overflowed: bool,
}

impl AnswerRoom {
    /// It holds none.
    fn empty() -> AnswerRoom
        ensures empty { bytes_in result ≡ [] }
        ensures not_failed { has_overflowed result ≡ false }
    {
        AnswerRoom {
            bytes: ArrayVec::new(),
            overflowed: false,
        }
    }
}

impl Sink for AnswerRoom {
    ghost contents = { λ room. Some (bytes_in room) };

    ghost has_failed = { has_overflowed };

    // Only one that is full fails.
    ghost failed_as = { λ room fault. max_answer ≤ length (bytes_in room) };

    fn write(&mut self, bytes: &[u8]) -> Option<usize> {
        let count = bytes.len().min(self.bytes.remaining_capacity());
        if count == 0 && !bytes.is_empty() {
            self.overflowed = true;
            return None;
        }
        let _fits = self.bytes.try_extend_from_slice(&bytes[..count]);
        Some(count)
    }

    fn flush(&mut self) -> bool {
        true
    }
}

impl Answer {
    /// Its bytes. No memory is taken for them.
    pub fn bytes(self) -> ArrayVec<u8, MAX_ANSWER>
        ensures { result.items ≡ answer_text self }
    {
        form(self);
        let mut output = Output::new(AnswerRoom::empty());
        self.write(&mut output);
        let (room, _answer) = output.finish();
        room.bytes
    }
}
