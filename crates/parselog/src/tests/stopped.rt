//! Performers that a write has stopped: none of the eight functions writes any more.
use super::streams::{Paper, Pattern};
use super::{TITLE, TITLE_CANON, TITLE_LINES, check};
use crate::log::LogWriter;
use crate::run::Mode;
use anstyle_parse::canon::{CanonWriter, Fault, FromWrite};
use anstyle_parse::{Params, Parser, Perform, Utf8Parser};
use std::io::ErrorKind;

fn make_all_calls<P: Perform>(performer: &mut P) {
    performer.print('A');
    performer.execute(7);
    performer.hook(&Params::default(), b"$", false, b'q');
    performer.put(b'm');
    performer.unhook();
    performer.osc_dispatch(&[b"0".as_slice(), b"x".as_slice()], true);
    performer.csi_dispatch(&Params::default(), b"", true, b'm');
    performer.esc_dispatch(b"(", false, b'B');
}

type Writer = FromWrite<Paper<'static>>;

/// A performer that keeps the fault of its writer.
trait Stopping: Perform {
    fn kept_fault(&self) -> Option<Fault>;

    /// The writer, and what `finish` answers.
    fn end(self) -> (Writer, Result<(), Fault>);
}

impl Stopping for LogWriter<Writer> {
    fn kept_fault(&self) -> Option<Fault> {
        self.fault()
    }

    fn end(self) -> (Writer, Result<(), Fault>) {
        self.finish()
    }
}

impl Stopping for CanonWriter<Writer> {
    fn kept_fault(&self) -> Option<Fault> {
        self.fault()
    }

    fn end(self) -> (Writer, Result<(), Fault>) {
        self.finish()
    }
}

/// Whether a performer whose writer fails has that fault, and all calls leave it so; and how `finish` answers, which
/// does not flush. So many bytes of the text are not written.
fn stops<P: Stopping>(mut performer: P, lacking: usize) -> bool {
    let first = performer.kept_fault();
    Parser::<Utf8Parser>::new().advance_all(&mut performer, TITLE);
    let then = performer.kept_fault();
    make_all_calls(&mut performer);
    let last = performer.kept_fault();
    let (writer, answer) = performer.end();
    let paper = writer.into_inner();
    [first, then, last] == [None, Some(Fault::Write), Some(Fault::Write)]
        && answer == Err(Fault::Write)
        && paper.lacks(lacking)
        && paper.flushes == 0
}

/// Whether a log, or a canonical text, stops in such a writer.
fn stops_in(mode: Mode, paper: Paper<'static>, lacking: usize) -> bool {
    let writer = FromWrite::new(paper);
    match mode {
        Mode::Log => stops(LogWriter::new(writer), lacking),
        Mode::Canon => stops(CanonWriter::new(writer), lacking),
    }
}

/// Whether it stops in any writer that takes so many bytes of its text: the writer has an error of either kind then,
/// or takes 0; or it has one error, and would go on.
fn any_stops(mode: Mode, text: &'static [u8], room: usize) -> bool {
    let lacking = text.len().saturating_sub(room);
    let other = Some(ErrorKind::Other);
    let interrupted = Some(ErrorKind::Interrupted);
    stops_in(mode, Paper::narrow(text, room, other), lacking)
        && stops_in(mode, Paper::narrow(text, room, interrupted), lacking)
        && stops_in(mode, Paper::narrow(text, room, None), lacking)
        && stops_in(mode, Paper::failing_once(text, room), lacking)
}

/// At each place, and in a writer that takes ten bytes, as many a write as it is given.
#[test]
fn stopped_logs(rt: HostRuntime) {
    for room in 0..TITLE_LINES.len() {
        check(&rt, any_stops(Mode::Log, TITLE_LINES, room), "room", room);
    }
    let mut paper = Paper::new(Pattern::of(TITLE_LINES));
    paper.room = 10;
    check(&rt, stops_in(Mode::Log, paper, 39), "at once, room", 10);
}

#[test]
fn stopped_canonical_texts(rt: HostRuntime) {
    for room in 0..TITLE_CANON.len() {
        check(&rt, any_stops(Mode::Canon, TITLE_CANON, room), "room", room);
    }
}
