//! A writer that has little room, and whose flushes may fail.
ghost use Rattle.std.specs.Prelude.{None};

use anstyle_parse::canon::Sink;
use arrayvec::ArrayVec;

/// Takes at most `step` bytes a write, and none past `room`, where it fails; its
/// flushes go well or fail, and are counted.
#[derive(Drop)]
pub struct Failing {
    pub taken: ArrayVec<u8, 2048>,
    pub room: usize,
    pub step: usize,
    pub flushes: usize,
    pub flush_fails: bool,
    pub failed: bool,
}

impl Failing {
    pub fn new(room: usize, step: usize, flush_fails: bool) -> Failing {
        Failing {
            taken: ArrayVec::new(),
            room,
            step,
            flushes: 0,
            flush_fails,
            failed: false,
        }
    }
}

impl Sink for Failing {
    ghost contents = { λ _. None };

    ghost has_failed = { λ sink. sink.failed };

    fn write(&mut self, bytes: &[u8]) -> Option<usize> {
        let count = bytes.len().min(self.step).min(self.room);
        if self.taken.try_extend_from_slice(&bytes[..count]).is_err()
            || (count == 0 && !bytes.is_empty())
        {
            self.failed = true;
            return None;
        }
        self.room -= count;
        Some(count)
    }

    fn flush(&mut self) -> bool {
        self.flushes = self.flushes.saturating_add(1);
        if self.flush_fails {
            self.failed = true;
        }
        !self.flush_fails
    }
}
