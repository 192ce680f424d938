//! Each read, write and flush of std fails in turn, over bytes that come one a read.
use super::streams::{Paper, Pattern, TROUBLES, Tape};
use super::{TITLE, TITLE_CANON, TITLE_LINES, Wanted, check, writes_of};
use crate::run::Mode;
use anstyle_parse::canon::Fault;
use std::io::ErrorKind;

/// A mode, what it writes of the bytes, and how much of that is the command's.
#[derive(Clone, Copy)]
struct Written {
    mode: Mode,
    text: &'static [u8],
    command: usize,
}

const LOG: Written = Written {
    mode: Mode::Log,
    text: TITLE_LINES,
    command: 25,
};

const CANON: Written = Written {
    mode: Mode::Canon,
    text: TITLE_CANON,
    command: 8,
};

/// A read that fails: the text for the bytes read by then is written, and flushed once, whatever
/// that answers; nothing is read again. The command ends with the sixth byte, and the escape
/// sequence with the seventh.
fn read_fails(
    Written {
        mode,
        text,
        command,
    }: Written,
    fails_at: u64,
    error: ErrorKind,
    flush_error: Option<ErrorKind>,
) -> bool {
    let mut tape = Tape::by_byte(TITLE);
    tape.fails_at = fails_at;
    tape.error = error;
    let mut paper = Paper::new(Pattern::of(text));
    paper.flush_error = flush_error;
    let lacking = match fails_at {
        1..=6 => text.len(),
        7 => text.len().saturating_sub(command),
        _ => 0,
    };
    let wanted = Wanted {
        answer: Err(Fault::Read),
        lacking,
        reads: fails_at,
        flushes: 1,
    };
    writes_of(mode, tape, paper, wanted).is_some()
}

/// Whatever kind its error is, and whether the flush goes well.
fn any_read_fails(written: Written, fails_at: u64) -> bool {
    read_fails(written, fails_at, ErrorKind::Other, None)
        && read_fails(written, fails_at, ErrorKind::Interrupted, None)
        && read_fails(written, fails_at, ErrorKind::Other, Some(ErrorKind::Other))
}

/// There are eight reads.
#[test]
fn reads_that_fail(rt: HostRuntime) {
    for fails_at in 1..=8u64 {
        let holds = any_read_fails(LOG, fails_at) && any_read_fails(CANON, fails_at);
        check(&rt, holds, "read", fails_at as usize);
    }
}

/// A read that fails after one character.
#[test]
fn second_read_fails(rt: HostRuntime) {
    let mut tape = Tape::by_byte(b"A");
    tape.fails_at = 2;
    let wanted = Wanted {
        answer: Err(Fault::Read),
        lacking: 0,
        reads: 2,
        flushes: 1,
    };
    assert!(rt;
        writes_of(
            Mode::Log,
            tape,
            Paper::new(Pattern::of(b"print U+0041\n")),
            wanted
        )
        .is_some()
    );
}

/// A flush that fails, of whatever kind its error is, or that goes well. The writer has room for all
/// of the text, one byte a time, and would then fail.
fn is_flushed(written: Written, flush_error: Option<ErrorKind>) -> bool {
    let Written { mode, text, .. } = written;
    let mut paper = Paper::narrow(text, text.len(), Some(ErrorKind::Other));
    paper.flush_error = flush_error;
    let answer = match flush_error {
        Some(_) => Err(Fault::Flush),
        None => Ok(()),
    };
    let wanted = Wanted {
        answer,
        lacking: 0,
        reads: 8,
        flushes: 1,
    };
    writes_of(mode, Tape::by_byte(TITLE), paper, wanted) == Some(text.len() as u64)
}

#[test]
fn flushes(rt: HostRuntime) {
    for flush_error in TROUBLES {
        let holds = is_flushed(LOG, flush_error) && is_flushed(CANON, flush_error);
        check(&rt, holds, "flush", 1);
    }
}

/// A writer that has taken so many bytes, one a time, and fails: nothing is tried again, flushed or
/// read afterwards.
fn write_fails(written: Written, room: usize, paper: Paper<'_>) -> bool {
    let wanted = Wanted {
        answer: Err(Fault::Write),
        lacking: written.text.len().saturating_sub(room),
        reads: if room < written.command { 6 } else { 7 },
        flushes: 0,
    };
    let writes = writes_of(written.mode, Tape::by_byte(TITLE), paper, wanted);
    writes == Some((room as u64).saturating_add(1))
}

/// It has an error of either kind, or takes 0; or it has one error, and would go on.
fn any_write_fails(written: Written, room: usize) -> bool {
    let text = written.text;
    let other = Some(ErrorKind::Other);
    let interrupted = Some(ErrorKind::Interrupted);
    write_fails(written, room, Paper::narrow(text, room, other))
        && write_fails(written, room, Paper::narrow(text, room, interrupted))
        && write_fails(written, room, Paper::narrow(text, room, None))
        && write_fails(written, room, Paper::failing_once(text, room))
}

#[test]
fn writes_that_fail(rt: HostRuntime) {
    for room in 0..TITLE_LINES.len() {
        check(&rt, any_write_fails(LOG, room), "line, room", room);
    }
    for room in 0..TITLE_CANON.len() {
        check(
            &rt,
            any_write_fails(CANON, room),
            "canonical text, room",
            room,
        );
    }
}

/// A writer that takes as many bytes a write as it is given, and ten in all: `osc_dispat` of the
/// one and `print U+00` of the other.
#[test]
fn room_for_ten(rt: HostRuntime) {
    let rows: [(&[u8], &[u8], usize, u64); 2] = [
        (TITLE, TITLE_LINES, 39, 6),
        (b"A", b"print U+0041\n", 3, 1),
    ];
    for (input, text, lacking, reads) in rows {
        let mut paper = Paper::new(Pattern::of(text));
        paper.room = 10;
        let wanted = Wanted {
            answer: Err(Fault::Write),
            lacking,
            reads,
            flushes: 0,
        };
        let writes = writes_of(Mode::Log, Tape::by_byte(input), paper, wanted);
        check(&rt, writes.is_some(), "room", 10);
    }
}
