//! Runs with a head and a tail, with a reader and a writer that fail in turn and show no bytes, so
//! that no clause says what they hold; and how much is read once the head is not written.
ghost use Rattle.std.specs.Prelude.{None, false};

use super::failing::Failing;
use anstyle_parse::canon::{
    CanonWriter, Fault, FromRead, FromWrite, Source, write_calls, write_calls_between,
};
use std::process::Abort;
use std::test::Fail;
use test_streams::{Paper, Tape, repeated};

const HEAD: &[u8] = b"<<";

const TAIL: &[u8] = b">";

/// What is written of `ESC [ m`, between both.
const WHOLE: &[u8] = b"<<\x1B[0m>";

/// Gives its bytes one by one, and then ends or fails.
#[derive(Drop)]
struct Bytes<'a> {
    left: &'a [u8],
    fails: bool,
    failed: bool,
    reads: usize,
}

impl Source for Bytes<'_> {
    ghost remaining = { λ _. None };

    ghost has_failed = { λ source. source.failed };

    ghost zero_is_end = { false };

    fn read(&mut self, into: &mut [u8]) -> Option<usize> {
        self.reads = self.reads.saturating_add(1);
        match (self.left, into) {
            ([byte, left @ ..], [first, ..]) => {
                *first = *byte;
                self.left = left;
                Some(1)
            }
            _ if self.fails => {
                self.failed = true;
                None
            }
            _ => Some(0),
        }
    }
}

/// Runs over `ESC [ m`, and answers how many reads were made.
fn assert_run(
    rt: &impl Abort,
    reader_fails: bool,
    writer: Failing,
    answer: Result<(), Fault>,
    written: usize,
    flushes: usize,
) -> usize {
    let mut reader = Bytes {
        left: b"\x1B[m",
        fails: reader_fails,
        failed: false,
        reads: 0,
    };
    let (writer, answered) = write_calls_between::<CanonWriter<Failing>, Bytes, Failing>(
        HEAD,
        &mut reader,
        writer,
        TAIL,
    );
    assert!(rt; answered == answer, "{written}");
    assert!(rt; written <= WHOLE.len());
    assert!(rt; writer.taken.as_slice() == &WHOLE[..written], "{written}");
    assert!(rt; writer.flushes == flushes, "{written}");
    reader.reads
}

#[test]
fn heads_and_tails(rt: HostRuntime) {
    for step in [1, 100] {
        assert_run(&rt, false, Failing::new(100, step, false), Ok(()), 7, 1);
        assert_run(
            &rt,
            false,
            Failing::new(100, step, true),
            Err(Fault::Flush),
            7,
            1,
        );
        for room in 0..7 {
            let writer = Failing::new(room, step, false);
            let reads = assert_run(&rt, false, writer, Err(Fault::Write), room, 0);
            // Where the head is not written whole, no read is made, and none after a failed write.
            let want = match room {
                0..=1 => 0,
                2..=5 => 3,
                _ => 4,
            };
            assert!(rt; reads == want, "{room}");
        }
    }
}

// The tail is written after a failed read too, as far as the writer takes it.
#[test]
fn tails_after_a_failed_read(rt: HostRuntime) {
    for flush_fails in [false, true] {
        let writer = Failing::new(100, 100, flush_fails);
        assert_run(&rt, true, writer, Err(Fault::Read), 7, 1);
    }
    assert_run(&rt, true, Failing::new(6, 1, false), Err(Fault::Read), 6, 0);
    assert_run(
        &rt,
        true,
        Failing::new(5, 1, false),
        Err(Fault::Write),
        5,
        0,
    );
}

/// A run asks for 4096 bytes a read, no more and no fewer, until a read gives none.
#[test]
fn pieces(rt: HostRuntime) -> Result<(), Fail> {
    let input = repeated(rt.alloc(), &[(b"a", 10_000)])?;
    let mut reader = FromRead::new(Tape::new(input.as_slice()));
    let writer = FromWrite::new(Paper::new(rt.alloc()));
    let (_, answer) = write_calls::<CanonWriter<_>, _, _>(&mut reader, writer);
    let tape = reader.into_inner();
    assert!(rt; answer == Ok(()) && tape.longest == 4096 && tape.reads == 4);
    Ok(())
}
