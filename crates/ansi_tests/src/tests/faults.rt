//! Each read, write and flush of std fails in turn, over bytes that come one a read: no clause says
//! what an adapter does where the stream within fails. What the programs say then, and that their
//! text stands as far as it went, is in tests/programs.
use ansi_strip::strip;
use anstyle_parse::canon::{CanonWriter, Fault, FromRead, FromWrite, write_calls};
use std::io::ErrorKind;
use std::process::Abort;
use test_streams::{Paper, TROUBLES, Tape};

/// What is written of the calls. (Of HTML, of a screen and of the calls' lines the programs show it.)
#[derive(Debug, Clone, Copy, PartialEq, Eq)]
enum Form {
    Canon,
    Stripped,
}

const FORMS: [Form; 2] = [Form::Canon, Form::Stripped];

impl Form {
    /// The bytes of a row.
    fn input(self) -> &'static [u8] {
        match self {
            Form::Canon => b"\x1b]0;x\x1b\\",
            Form::Stripped => b"\x1b[31mhi\x07\x1b[0m\n",
        }
    }

    /// What is written of the first so many of them.
    fn text(self, count: usize) -> &'static [u8] {
        match (self, count) {
            (Form::Canon, 0..=5) => b"",
            (Form::Canon, 6) => b"\x1b]0;x\x1bX\x9c",
            (Form::Canon, _) => b"\x1b]0;x\x1bX\x9c\x1b\\",
            (Form::Stripped, 0..=5) => b"",
            (Form::Stripped, 6) => b"h",
            (Form::Stripped, 7..=12) => b"hi",
            (Form::Stripped, _) => b"hi\n",
        }
    }

    /// How many reads are made where a write fails after so many bytes.
    fn reads(self, room: usize) -> u64 {
        match (self, room) {
            (Form::Canon, 0..=7) => 6,
            (Form::Canon, _) => 7,
            (Form::Stripped, 0) => 6,
            (Form::Stripped, 1) => 7,
            (Form::Stripped, _) => 13,
        }
    }
}

type Reader<'a> = FromRead<Tape<'a>>;

type Writer = FromWrite<Paper>;

/// What a run answers, and its reader and writer afterwards.
fn run_over<'a>(
    form: Form,
    tape: Tape<'a>,
    paper: Paper,
) -> (Reader<'a>, Writer, Result<(), Fault>) {
    let mut reader = FromRead::new(tape);
    let writer = FromWrite::new(paper);
    let (writer, answer) = match form {
        Form::Canon => write_calls::<CanonWriter<Writer>, Reader<'a>, Writer>(&mut reader, writer),
        Form::Stripped => strip(&mut reader, writer),
    };
    (reader, writer, answer)
}

/// What a run answers and writes, and how many reads and flushes it makes. Answers how many writes.
fn assert_run(
    rt: &(impl Abort + AllocGlobal),
    form: Form,
    tape: Tape<'_>,
    paper: Paper,
    answer: Result<(), Fault>,
    text: &[u8],
    calls: [u64; 2],
) -> u64 {
    let (reader, writer, answered) = run_over(form, tape, paper);
    let (tape, paper) = (reader.into_inner(), writer.into_inner());
    assert_eq!(rt;
        (answered, paper.text.as_slice(), [tape.reads, paper.flushes]),
        (answer, text, calls),
        "{form:?}, {} bytes",
        text.len()
    );
    paper.writes
}

/// The text of what was read by then is written, and flushed once; nothing is read again.
fn assert_read_fails(
    rt: &(impl Abort + AllocGlobal),
    form: Form,
    count: usize,
    error: ErrorKind,
    flush_error: Option<ErrorKind>,
) {
    let reads = (count as u64).saturating_add(1);
    let mut tape = Tape::by_byte(form.input());
    tape.fails_at = reads;
    tape.error = error;
    let mut paper = Paper::new(rt.alloc());
    paper.flush_error = flush_error;
    let answer = Err(Fault::Read);
    assert_run(rt, form, tape, paper, answer, form.text(count), [reads, 1]);
}

#[test]
fn reads_that_fail(rt: HostRuntime) {
    for form in FORMS {
        for count in 0..form.input().len() + 1 {
            assert_read_fails(&rt, form, count, ErrorKind::Other, None);
            assert_read_fails(&rt, form, count, ErrorKind::Other, Some(ErrorKind::Other));
            assert_read_fails(&rt, form, count, ErrorKind::Interrupted, None);
            assert_read_fails(
                &rt,
                form,
                count,
                ErrorKind::Interrupted,
                Some(ErrorKind::Other),
            );
        }
    }
}

/// What went out by then stands; nothing is tried again, flushed or read afterwards.
fn assert_write_fails(
    rt: &(impl Abort + AllocGlobal),
    form: Form,
    room: usize,
    trouble: Option<ErrorKind>,
) {
    let text = form.text(form.input().len());
    let writes = (room as u64).saturating_add(1);
    assert!(rt; room < text.len());
    let (text, calls) = (&text[..room], [form.reads(room), 0]);
    let paper = Paper::narrow(rt.alloc(), room, trouble);
    let tape = Tape::by_byte(form.input());
    let found = assert_run(rt, form, tape, paper, Err(Fault::Write), text, calls);
    assert!(rt; found == writes, "{form:?}, {trouble:?}, room {room}");
    let paper = Paper::failing_once(rt.alloc(), writes, trouble);
    let tape = Tape::by_byte(form.input());
    let found = assert_run(rt, form, tape, paper, Err(Fault::Write), text, calls);
    assert!(rt; found == writes, "{form:?}, {trouble:?}, room {room}");
}

#[test]
fn writes_that_fail(rt: HostRuntime) {
    for form in FORMS {
        for room in 0..form.text(form.input().len()).len() {
            for trouble in TROUBLES {
                assert_write_fails(&rt, form, room, trouble);
            }
        }
    }
}

/// With room for all there is one flush, and what it answers is the answer.
fn assert_flushed(rt: &(impl Abort + AllocGlobal), form: Form, flush_error: Option<ErrorKind>) {
    let text = form.text(form.input().len());
    let mut paper = Paper::narrow(rt.alloc(), text.len(), flush_error);
    paper.flush_error = flush_error;
    let answer = if flush_error.is_some() {
        Err(Fault::Flush)
    } else {
        Ok(())
    };
    let reads = (form.input().len() as u64).saturating_add(1);
    assert_run(
        rt,
        form,
        Tape::by_byte(form.input()),
        paper,
        answer,
        text,
        [reads, 1],
    );
}

#[test]
fn flushes(rt: HostRuntime) {
    for form in FORMS {
        assert_flushed(&rt, form, None);
        assert_flushed(&rt, form, Some(ErrorKind::Other));
        assert_flushed(&rt, form, Some(ErrorKind::Interrupted));
    }
}

/// A line and a letter in one read, before a writer that fails after this text.
fn assert_fails(rt: &(impl Abort + AllocGlobal), form: Form, paper: Paper, text: &[u8]) {
    let (tape, answer) = (Tape::new(b"a\nb"), Err(Fault::Write));
    assert_run(rt, form, tape, paper, answer, text, [1, 0]);
}

/// The same, before a writer with room for the line, which fails for good or once.
fn assert_line(
    rt: &(impl Abort + AllocGlobal),
    form: Form,
    text: &[u8],
    trouble: Option<ErrorKind>,
) {
    let paper = Paper::narrow(rt.alloc(), text.len(), trouble);
    assert_fails(rt, form, paper, text);
    let fails_at = (text.len() as u64).saturating_add(1);
    let paper = Paper::failing_once(rt.alloc(), fails_at, trouble);
    assert_fails(rt, form, paper, text);
}

/// A letter before a read that fails.
fn assert_letter(rt: &(impl Abort + AllocGlobal), form: Form, text: &[u8], error: ErrorKind) {
    let mut tape = Tape::new(b"a");
    tape.fails_at = 2;
    tape.error = error;
    let paper = Paper::new(rt.alloc());
    assert_run(rt, form, tape, paper, Err(Fault::Read), text, [2, 1]);
}

#[test]
fn two_rows(rt: HostRuntime) {
    for trouble in TROUBLES {
        assert_line(&rt, Form::Stripped, b"a\n", trouble);
    }
    for error in [ErrorKind::Other, ErrorKind::Interrupted] {
        assert_letter(&rt, Form::Stripped, b"a", error);
    }
}

/// The error that reader and writer keep is that of the call that failed, of whatever kind.
fn assert_errors(
    rt: &(impl Abort + AllocGlobal),
    tape: Tape<'_>,
    paper: Paper,
    read_error: Option<ErrorKind>,
    write_error: Option<ErrorKind>,
) {
    let (reader, writer, _) = run_over(Form::Stripped, tape, paper);
    assert!(rt; reader.error().map(|it| it.kind()) == read_error);
    assert!(rt; writer.error().map(|it| it.kind()) == write_error);
}

#[test]
fn errors(rt: HostRuntime) {
    for error in [ErrorKind::Other, ErrorKind::Interrupted] {
        let mut tape = Tape::by_byte(Form::Stripped.input());
        tape.fails_at = 7;
        tape.error = error;
        assert_errors(&rt, tape, Paper::new(rt.alloc()), Some(error), None);
        let mut paper = Paper::new(rt.alloc());
        paper.flush_error = Some(error);
        let tape = Tape::by_byte(Form::Stripped.input());
        assert_errors(&rt, tape, paper, None, Some(error));
    }
}

#[test]
fn errors_of_writes(rt: HostRuntime) {
    for trouble in TROUBLES {
        let kind = Some(trouble.unwrap_or(ErrorKind::WriteZero));
        let tape = Tape::by_byte(Form::Stripped.input());
        assert_errors(&rt, tape, Paper::narrow(rt.alloc(), 1, trouble), None, kind);
        let tape = Tape::by_byte(Form::Stripped.input());
        let paper = Paper::failing_once(rt.alloc(), 2, trouble);
        assert_errors(&rt, tape, paper, None, kind);
    }
}
