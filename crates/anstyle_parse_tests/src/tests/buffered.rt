//! Writers of std behind a buffer, with faults in turn, where no clause sees what they hold. Nothing
//! is lost, doubled or out of order, writes are few, and a fault has the name of the call that
//! failed at the writer behind.
use anstyle_parse::Padded;
use anstyle_parse::canon::{
    Buffer, CanonWriter, Fault, FromRead, FromWrite, Output, Sink, write_calls,
};
use std::alloc::Global;
use std::io::ErrorKind;
use std::process::Abort;
use std::test::Fail;
use test_streams::{Paper, TROUBLES, Tape, repeated};

/// An operating system command and an escape sequence, in seven bytes.
const TITLE: &[u8] = b"\x1b]0;x\x1b\\";

/// Their canonical text, of which the command has eight bytes.
const TEXT: &[u8] = b"\x1b]0;x\x1bX\x9c\x1b\\";

/// Lines that end after a sequence, with few bytes after them and with many, and their canonical text.
const LINES: [(&[u8], &[u8]); 2] = [
    (b"x\x1b[m\nabc", b"x\x1b[0m\nabc"),
    (
        b"x\x1b[m\nabc\x1b[m\x1b[m\x1b[m\x1b[m",
        b"x\x1b[0m\nabc\x1b[0m\x1b[0m\x1b[0m\x1b[0m",
    ),
];

type Buffered = Buffer<FromWrite<Paper>>;

/// What a run answers whose output goes through the buffer, by the fault at the writer behind
/// it, and this writer afterwards.
fn run_after(tape: Tape<'_>, buffer: Buffered) -> (Paper, Result<(), Fault>) {
    let mut reader = FromRead::new(tape);
    let (buffer, answer) = write_calls::<CanonWriter<Buffered>, FromRead<Tape<'_>>, Buffered>(
        &mut reader,
        buffer,
    );
    let answer = match answer {
        Ok(()) => Ok(()),
        Err(fault) => Err(buffer.fault_behind(fault)),
    };
    (buffer.into_inner().into_inner(), answer)
}

/// What such a run answers and writes, and how often it flushes. Answers how many writes it made.
fn assert_run(
    rt: &impl Abort,
    tape: Tape<'_>,
    buffer: Buffered,
    answer: Result<(), Fault>,
    text: &[u8],
    flushes: u64,
) -> u64 {
    let (paper, answered) = run_after(tape, buffer);
    assert!(rt;
        answered == answer,
        "{answered:?} after {} bytes",
        text.len()
    );
    assert!(rt; paper.text.as_slice() == text, "{} bytes", text.len());
    assert!(rt; paper.flushes == flushes, "{} bytes", text.len());
    paper.writes
}

/// What comes of 1000 lines, each put at once, and how many writes that takes.
fn assert_lines(rt: &impl Abort, buffer: Buffered, text: &[u8], writes: u64) {
    let mut output = Output::new(buffer);
    for _ in 0..1000 {
        output.put(b"print U+0061\n");
    }
    assert_written(rt, output, text, writes);
}

/// The same where each line may be read past its end.
fn assert_padded_lines(rt: &impl Abort, buffer: Buffered, text: &[u8], writes: u64) {
    let mut output = Output::new(buffer);
    let line = Padded::new(b"print U+0061\nend", 13);
    for _ in 0..1000 {
        output.put_padded(&line);
    }
    assert_written(rt, output, text, writes);
}

/// What the writer behind has, and how many writes that took.
fn assert_written(rt: &impl Abort, output: Output<Buffered>, text: &[u8], writes: u64) {
    let (buffer, answer) = output.finish();
    let paper = buffer.into_inner().into_inner();
    assert!(rt; answer == Ok(()) && paper.writes == writes && paper.flushes == 1);
    assert!(rt; paper.text.as_slice() == text);
}

/// One write for each 8 KiB, or one for each line.
#[test]
fn few_writes(rt: HostRuntime) -> Result<(), Fail> {
    let text = repeated(rt.alloc(), &[(b"print U+0061\n", 1000)])?;
    let all = Buffer::new(FromWrite::new(Paper::new(rt.alloc())));
    assert_lines(&rt, all, text.as_slice(), 2);
    let lines = Buffer::by_line(FromWrite::new(Paper::new(rt.alloc())));
    assert_lines(&rt, lines, text.as_slice(), 1000);
    let all = Buffer::new(FromWrite::new(Paper::new(rt.alloc())));
    assert_padded_lines(&rt, all, text.as_slice(), 2);
    let lines = Buffer::by_line(FromWrite::new(Paper::new(rt.alloc())));
    assert_padded_lines(&rt, lines, text.as_slice(), 1000);
    Ok(())
}

/// By line, a line feed after a sequence hands its line on before the text that comes next, however much stands after
/// it: one write of what was held back, one of the line feed, and one of the rest as the piece ends.
#[test]
fn a_line_feed_hands_its_line_on(rt: HostRuntime) {
    for (stream, text) in LINES {
        let lines = Buffer::by_line(FromWrite::new(Paper::new(rt.alloc())));
        let writes = assert_run(&rt, Tape::new(stream), lines, Ok(()), text, 1);
        assert!(rt; writes == 3, "{writes} writes");
    }
}

/// A buffer of one kind or the other before a writer that takes so many bytes, one a write, and
/// then has trouble, for good or once.
fn before_trouble(
    alloc: Global,
    [is_by_line, is_once]: [bool; 2],
    room: usize,
    trouble: Option<ErrorKind>,
) -> Buffered {
    let paper = if is_once {
        Paper::failing_once(alloc, (room as u64).saturating_add(1), trouble)
    } else {
        Paper::narrow(alloc, room, trouble)
    };
    if is_by_line {
        Buffer::by_line(FromWrite::new(paper))
    } else {
        Buffer::new(FromWrite::new(paper))
    }
}

/// Output that the buffer could hold back whole: a write that fails as it is handed on is a
/// write that failed, and nothing is flushed.
fn assert_little(rt: &(impl Abort + AllocGlobal), kind: [bool; 2], trouble: Option<ErrorKind>) {
    for room in 0..TEXT.len() {
        let buffer = before_trouble(rt.alloc(), kind, room, trouble);
        let answer = Err(Fault::Write);
        let writes = assert_run(rt, Tape::by_byte(TITLE), buffer, answer, &TEXT[..room], 0);
        assert!(rt;
            writes == (room as u64).saturating_add(1),
            "{trouble:?}, room {room}"
        );
    }
    let buffer = before_trouble(rt.alloc(), kind, TEXT.len(), trouble);
    assert_run(rt, Tape::by_byte(TITLE), buffer, Ok(()), TEXT, 1);
}

#[test]
fn writes_of_little_that_fail(rt: HostRuntime) {
    for trouble in TROUBLES {
        assert_little(&rt, [false, false], trouble);
        assert_little(&rt, [false, true], trouble);
        assert_little(&rt, [true, false], trouble);
        assert_little(&rt, [true, true], trouble);
    }
}

/// A read that fails leaves the text of what was read; only a flush of the writer behind is a
/// flush that failed. There are eight reads.
fn assert_flushed(rt: &(impl Abort + AllocGlobal), fails_at: u64, flush_error: Option<ErrorKind>) {
    let mut tape = Tape::by_byte(TITLE);
    tape.fails_at = fails_at;
    let mut paper = Paper::new(rt.alloc());
    paper.flush_error = flush_error;
    let (text, answer): (&[u8], Result<(), Fault>) = match fails_at {
        1..=6 => (b"", Err(Fault::Read)),
        7 => (b"\x1b]0;x\x1bX\x9c", Err(Fault::Read)),
        8 => (TEXT, Err(Fault::Read)),
        _ if flush_error.is_some() => (TEXT, Err(Fault::Flush)),
        _ => (TEXT, Ok(())),
    };
    assert_run(
        rt,
        tape,
        Buffer::new(FromWrite::new(paper)),
        answer,
        text,
        1,
    );
}

#[test]
fn reads_and_flushes_that_fail(rt: HostRuntime) {
    for fails_at in 1..=9u64 {
        assert_flushed(&rt, fails_at, None);
        assert_flushed(&rt, fails_at, Some(ErrorKind::Other));
        assert_flushed(&rt, fails_at, Some(ErrorKind::Interrupted));
    }
}

/// Characters that differ from place to place: a text that is its own canonical text.
fn text_of(alloc: Global, length: usize) -> Result<Vec<u8>, Fail> {
    let mut text = Vec::new(alloc);
    for place in 0..length {
        text.push(b' ' + (place % 89) as u8)?;
    }
    Ok(text)
}

/// The lengths of output that fill the buffer, once or twice, or just don't.
const LENGTHS: [usize; 5] = [8191, 8192, 8193, 16_384, 16_385];

const ROOMS: [usize; 10] = [0, 1, 4096, 8190, 8191, 8192, 8193, 16_383, 16_384, 16_385];

/// Before a writer with little room.
fn assert_room(rt: &(impl Abort + AllocGlobal), text: &[u8], room: usize) {
    let mut paper = Paper::new(rt.alloc());
    paper.room = room;
    let buffer = Buffer::new(FromWrite::new(paper));
    if room < text.len() {
        assert_run(
            rt,
            Tape::new(text),
            buffer,
            Err(Fault::Write),
            &text[..room],
            0,
        );
    } else {
        assert_run(rt, Tape::new(text), buffer, Ok(()), text, 1);
    }
}

/// Before a writer that takes 1000 bytes a write, and fails once.
fn assert_front(rt: &(impl Abort + AllocGlobal), text: &[u8], fails_at: u64) {
    let mut paper = Paper::new(rt.alloc());
    paper.each = 1000;
    paper.fails_at = fails_at;
    let (paper, answer) = run_after(Tape::new(text), Buffer::new(FromWrite::new(paper)));
    let is_whole = writes_of(text.len()) < fails_at;
    assert!(rt;
        answer == if is_whole { Ok(()) } else { Err(Fault::Write) },
        "write {fails_at}"
    );
    assert!(rt; text.starts_with(paper.text.as_slice()), "write {fails_at}");
    assert!(rt;
        is_whole == (paper.text.len() == text.len()),
        "write {fails_at}"
    );
}

/// How many writes of at most 1000 bytes each hand on so many bytes, 4096 at a time, as they are
/// read.
fn writes_of(length: usize) -> u64 {
    match length {
        8191 | 8192 => 10,
        8193 => 11,
        16_384 => 20,
        _ => 21,
    }
}

#[test]
fn writes_of_much_that_fail(rt: HostRuntime) -> Result<(), Fail> {
    for length in LENGTHS {
        let text = text_of(rt.alloc(), length)?;
        for room in ROOMS {
            assert_room(&rt, text.as_slice(), room);
        }
        for fails_at in 1..=22u64 {
            assert_front(&rt, text.as_slice(), fails_at);
        }
    }
    Ok(())
}

/// A write that fails alone and is asked for again loses and doubles nothing.
fn assert_tried_again(rt: &(impl Abort + AllocGlobal), text: &[u8], fails_at: u64) {
    let mut paper = Paper::new(rt.alloc());
    paper.each = 1000;
    paper.fails_at = fails_at;
    let mut buffer = Buffer::new(FromWrite::new(paper));
    let mut rest = text;
    for _ in 0..10 {
        if let Some(count) = buffer.write(rest) {
            rest = &rest[count..];
        }
    }
    let went_well = buffer.flush() || buffer.flush();
    let paper = buffer.into_inner().into_inner();
    assert!(rt; went_well && rest.is_empty(), "write {fails_at}");
    assert!(rt; paper.text.as_slice() == text, "write {fails_at}");
}

#[test]
fn writes_tried_again(rt: HostRuntime) -> Result<(), Fail> {
    for length in LENGTHS {
        let text = text_of(rt.alloc(), length)?;
        for fails_at in 1..=20u64 {
            assert_tried_again(&rt, text.as_slice(), fails_at);
        }
    }
    Ok(())
}
