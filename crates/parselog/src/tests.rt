//! Rows worked by hand, through `run` over readers and writers in memory: that the definitions of
//! calls, lines and canonical texts say these rows no clause can, nor what std's readers and writers
//! do where they fail. A row is data, and each test goes over tables of them.
mod accumulators;
mod checkpoints;
mod faults;
mod groups;
mod rows;
mod stopped;
mod streams;
mod words;

use crate::run::{Mode, run};
use anstyle_parse::canon::{Fault, FromRead, FromWrite};
use std::process::Abort;
use streams::{Paper, Pattern, Tape};

/// An operating system command and an escape sequence, in seven bytes.
const TITLE: &[u8] = b"\x1B]0;x\x1B\\";

/// Their lines, of which that of the command has 25 bytes.
const TITLE_LINES: &[u8] = b"osc_dispatch false 30 78\nesc_dispatch - false 5C\n";

/// Their canonical text, of which that of the command has eight bytes.
const TITLE_CANON: &[u8] = b"\x1B]0;x\x1BX\x9C\x1B\\";

/// Bytes, their lines, and their canonical text.
type Texts = (&'static [u8], &'static str, &'static [u8]);

/// What must come of a run: its answer, how many bytes of the text are not written, how often it
/// has read, and how often it has flushed.
#[derive(Clone, Copy)]
struct Wanted {
    answer: Result<(), Fault>,
    lacking: usize,
    reads: u64,
    flushes: u64,
}

/// Whether that comes of a run over such a reader and such a writer. Answers how often it has
/// written, where it does.
fn writes_of(mode: Mode, tape: Tape<'_>, paper: Paper<'_>, wanted: Wanted) -> Option<u64> {
    let mut reader = FromRead::new(tape);
    let (writer, answer) = run(mode, &mut reader, FromWrite::new(paper));
    let paper = writer.into_inner();
    let reads = reader.into_inner().reads;
    if answer == wanted.answer
        && paper.lacks(wanted.lacking)
        && reads == wanted.reads
        && paper.flushes == wanted.flushes
    {
        Some(paper.writes)
    } else {
        None
    }
}

/// Whether all of the text is written of this input, with no fault.
fn is_written(mode: Mode, input: Pattern<'_>, each: usize, text: Pattern<'_>) -> bool {
    let mut reader = FromRead::new(Tape::new(input, each));
    let (writer, answer) = run(mode, &mut reader, FromWrite::new(Paper::new(text)));
    answer == Ok(()) && writer.into_inner().lacks(0)
}

/// Whether these are both texts of the bytes, and both of their canonical text, which makes the
/// same calls. At most so many bytes are read at once.
fn are_texts(input: Pattern<'_>, each: usize, lines: Pattern<'_>, canonical: Pattern<'_>) -> bool {
    is_written(Mode::Log, input, each, lines)
        && is_written(Mode::Canon, input, each, canonical)
        && is_written(Mode::Log, canonical, each, lines)
        && is_written(Mode::Canon, canonical, each, canonical)
}

/// The same, whatever is read at once: all that there is, or a byte.
fn are_texts_by_any(input: Pattern<'_>, lines: Pattern<'_>, canonical: Pattern<'_>) -> bool {
    are_texts(input, usize::MAX, lines, canonical) && are_texts(input, 1, lines, canonical)
}

/// A row has to hold, which is named by a text and a number.
fn check(rt: &impl Abort, holds: bool, what: &str, number: usize) {
    assert!(rt; holds, "{what} {number}");
}

/// The rows of a table.
fn check_table(rt: &impl Abort, table: &[Texts]) {
    for (input, lines, canonical) in table {
        let text = Pattern::of(lines.as_bytes());
        let holds = are_texts_by_any(Pattern::of(input), text, Pattern::of(canonical));
        check(rt, holds, lines, input.len());
    }
}

#[test]
fn worked_rows(rt: HostRuntime) {
    check_table(&rt, &rows::SEQUENCES);
    check_table(&rt, &rows::COMMANDS);
    check_table(&rt, &rows::CHARACTERS);
}
