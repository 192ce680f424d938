//! The readers and writers of std as sources and sinks: each call makes one call within, which no
//! clause counts.
use anstyle_parse::canon::{FromRead, FromWrite, Sink, Source};
use std::io::ErrorKind;
use std::process::Abort;
use test_streams::{Paper, TROUBLES, Tape};

/// A read that fails is not made again by itself, and may be asked for again.
#[test]
fn one_read_a_call(rt: HostRuntime) {
    for error in [ErrorKind::Other, ErrorKind::Interrupted] {
        let mut tape = Tape::new(b"abc");
        tape.fails_at = 1;
        tape.error = error;
        let mut source = FromRead::new(tape);
        let mut into = [0; 8];
        let first = source.read(&mut into);
        let second = source.read(&mut into);
        let last = source.read(&mut into);
        let reads = source.into_inner().reads;
        assert!(rt;
            first == None && second == Some(3) && last == Some(0) && reads == 3,
            "{error:?}"
        );
    }
}

/// Nor is a write, whatever kind of error it answers, or where it takes 0.
fn assert_one_write(rt: &(impl Abort + AllocGlobal), trouble: Option<ErrorKind>) {
    let mut paper = Paper::new(rt.alloc());
    paper.trouble = trouble;
    paper.fails_at = 1;
    let mut sink = FromWrite::new(paper);
    let first = sink.write(b"abc");
    let second = sink.write(b"abc");
    let paper = sink.into_inner();
    assert!(rt;
        first == None && second == Some(3) && paper.writes == 2,
        "{trouble:?}"
    );
    assert!(rt; paper.text.as_slice() == b"abc".as_slice(), "{trouble:?}");
}

#[test]
fn one_write_a_call(rt: HostRuntime) {
    for trouble in TROUBLES {
        assert_one_write(&rt, trouble);
    }
}

/// Nor is a flush; it goes well only where the one within did.
#[test]
fn one_flush_a_call(rt: HostRuntime) {
    for flush_error in [None, Some(ErrorKind::Other), Some(ErrorKind::Interrupted)] {
        let mut paper = Paper::new(rt.alloc());
        paper.flush_error = flush_error;
        let mut sink = FromWrite::new(paper);
        let went_well = sink.flush();
        let flushes = sink.into_inner().flushes;
        assert!(rt;
            went_well == flush_error.is_none() && flushes == 1,
            "{flush_error:?}"
        );
    }
}

/// As many bytes as the longest slice has.
const MANY: usize = 100_000;

/// Whether one read gives all of a slice.
fn is_read_whole(bytes: &[u8], into: &mut [u8]) -> bool {
    let mut source = FromRead::new(Tape::new(bytes));
    source.read(into) == Some(bytes.len()) && *into == *bytes
}

/// One write takes all of a slice.
fn assert_written_whole(rt: &(impl Abort + AllocGlobal), bytes: &[u8]) {
    let mut sink = FromWrite::new(Paper::new(rt.alloc()));
    let taken = sink.write(bytes);
    let paper = sink.into_inner();
    assert!(rt; taken == Some(bytes.len()) && paper.text.as_slice() == bytes);
}

/// Slices of any length, longer than a run's pieces and than a buffer, go through in one call.
#[test]
fn long_slices(rt: HostRuntime) {
    for length in [4097, 8193, MANY] {
        assert!(rt; length <= MANY);
        let bytes = &[b'a'; MANY][..length];
        let mut into = [b'b'; MANY];
        assert!(rt; is_read_whole(bytes, &mut into[..length]), "{length}");
        assert_written_whole(&rt, bytes);
    }
}
