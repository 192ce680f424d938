//! The writer that a parser is written down to.
ghost use Rattle.std.specs.Prelude.{◌≡◌, ◌≤◌, false, true, [], Some, length};
ghost use Rattle.anstyle_parse.specs.Laws.Checkpoint.{max_checkpoint};

use anstyle_parse::canon::MAX_CHECKPOINT;
use anstyle_parse::io::Sink;

/// Takes as many bytes as a checkpoint may have into room that is lent to it, and then fails.
#[derive(Drop)]
pub(crate) struct Saved<'a> {
    into: &'a mut [u8],
    written: usize,
    overflowed: bool,
    ghost within: { written ≤ max_checkpoint },
    ghost lent: { max_checkpoint ≤ length into.now },
    // Only one that is full fails.
    ghost full: { overflowed ≡ true → written ≡ max_checkpoint },
}

impl<'a> Saved<'a> {
    ghost use Rattle.stream_state.specs.Saved.{saved_in, has_overflowed};

    pub(crate) fn new(into: &'a mut [u8]) -> Saved<'a>
        requires { max_checkpoint ≤ length into.old }
        ensures empty { saved_in result ≡ [] }
        ensures not_failed { has_overflowed result ≡ false }
    {
        Saved {
            into,
            written: 0,
            overflowed: false,
        }
    }

    /// What it took.
    pub(crate) fn bytes(&self) -> &[u8]
        ensures same { result.now ≡ saved_in self.now }
        ensures short { length result.now ≤ max_checkpoint }
        ensures full { has_overflowed self.now ≡ true → length result.now ≡ max_checkpoint }
    {
        &self.into[..self.written]
    }
}

impl<'a> Sink for Saved<'a> {
    ghost use Rattle.stream_state.specs.Saved.{saved_in, has_overflowed};

    ghost contents = { λ saved. Some (saved_in saved) };

    ghost has_failed = { has_overflowed };

    fn write(&mut self, bytes: &[u8]) -> Option<usize> {
        let start = self.written;
        let count = bytes.len().min(MAX_CHECKPOINT - start);
        if count == 0 && !bytes.is_empty() {
            self.overflowed = true;
            return None;
        }
        self.into[start..start + count].copy_from_slice(&bytes[..count]);
        self.written = start + count;
        Some(count)
    }

    fn flush(&mut self) -> bool {
        true
    }
}
