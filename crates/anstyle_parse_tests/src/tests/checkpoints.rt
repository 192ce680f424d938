//! Parsers written down and resumed, with writers of std that fail at each byte in turn, of which no
//! clause speaks.
use super::failing::Failing;
use super::lines::{lines_of, parser_after};
use anstyle_parse::canon::{Fault, FromWrite, MAX_CHECKPOINT, checkpoint};
use arrayvec::ArrayVec;
use std::io::ErrorKind;
use std::process::Abort;
use test_streams::{Paper, TROUBLES};

// A write failed where so much was written, which is the front of the text, and nothing was flushed.
fn assert_front(
    rt: &impl Abort,
    ended: (Result<(), Fault>, u64),
    written: &[u8],
    text: &[u8],
    room: usize,
) {
    assert_eq!(rt; ended, (Err(Fault::Write), 0), "room {room}");
    assert_eq!(rt; Some(written), text.get(..room));
}

// Where a writer has no more room, what went there is the front of the text, and nothing is flushed:
// so it is with a writer of std that has an error of either kind then, or takes 0.
fn assert_cut_off(rt: &(impl Abort + AllocGlobal), history: &[u8], text: &[u8], room: usize) {
    let parser = parser_after(history);
    let (sink, answer) = checkpoint(&parser, Failing::new(room, 7, false));
    let ended = (answer, sink.flushes as u64);
    assert_front(rt, ended, sink.taken.as_slice(), text, room);
    for trouble in TROUBLES {
        let paper = Paper::narrow(rt.alloc(), room, trouble);
        let (writer, answer) = checkpoint(&parser, FromWrite::new(paper));
        let paper = writer.into_inner();
        let ended = (answer, paper.flushes);
        assert_front(rt, ended, paper.text.as_slice(), text, room);
    }
}

// Where a flush of std fails all of the text is written, and it is flushed once.
fn assert_flush_fails(rt: &(impl Abort + AllocGlobal), history: &[u8], text: &[u8]) {
    let mut paper = Paper::new(rt.alloc());
    paper.flush_error = Some(ErrorKind::Other);
    let (writer, answer) = checkpoint(&parser_after(history), FromWrite::new(paper));
    let paper = writer.into_inner();
    assert!(rt;
        answer == Err(Fault::Flush) && paper.flushes == 1,
        "{history:?}"
    );
    assert!(rt; paper.text.as_slice() == text, "{history:?}");
}

// The checkpoint of a parser, by a writer whose flush goes well or fails: flushed once.
fn checkpoint_of(rt: &impl Abort, history: &[u8], flush_fails: bool) -> ArrayVec<u8, 2048> {
    let writer = Failing::new(2048, 7, flush_fails);
    let (sink, answer) = checkpoint(&parser_after(history), writer);
    let wanted = if flush_fails {
        Err(Fault::Flush)
    } else {
        Ok(())
    };
    assert!(rt; answer == wanted && sink.flushes == 1, "{history:?}");
    let Failing { taken, .. } = sink;
    taken
}

// What the parser of a history, and one that is resumed from its checkpoint, make of further
// bytes. Answers how long the checkpoint is.
fn assert_resumed(
    rt: &(impl Abort + AllocGlobal),
    history: &[u8],
    then: &[u8],
    lines: &str,
) -> usize {
    let text = checkpoint_of(rt, history, false);
    let text = text.as_slice();
    assert!(rt; text.len() <= MAX_CHECKPOINT, "{history:?}");
    assert!(rt;
        checkpoint_of(rt, history, true).as_slice() == text,
        "{history:?}"
    );
    assert_flush_fails(rt, history, text);
    for room in 0..text.len() {
        assert_cut_off(rt, history, text, room);
    }
    let calls = lines_of(&mut parser_after(text), then);
    assert!(rt;
        calls.as_str() == lines,
        "{history:?} is resumed to {calls}"
    );
    let calls = lines_of(&mut parser_after(history), then);
    assert!(rt; calls.as_str() == lines, "{history:?} goes on with {calls}");
    text.len()
}

#[test]
fn resumed_parsers(rt: HostRuntime) {
    let rows: [(&[u8], &[u8], &str); 4] = [
        (b"\xE2\x82", b"\xAC", "print U+20AC\n"),
        (b"\x1B !\"", b"0", "esc_dispatch 2021 true 30\n"),
        (b"\x1B]a;b", b"\x07", "osc_dispatch true 61 62\n"),
        (b"\x1BP1qA", b"B\x9C", "put 42\nunhook\n"),
    ];
    for (history, then, lines) in rows {
        assert_resumed(&rt, history, then, lines);
    }
}

// The longest checkpoint: sixteen closed parts and as much text as is kept.
#[test]
fn longest_checkpoint(rt: HostRuntime) {
    let mut history = [b'x'; 1042];
    let (begin, _text) = history.split_at_mut(18);
    begin.copy_from_slice(b"\x1B];;;;;;;;;;;;;;;;");
    let length = assert_resumed(
        &rt,
        &history,
        b"\x07",
        "osc_dispatch true - - - - - - - - - - - - - - - -\n",
    );
    assert_eq!(rt; (length, MAX_CHECKPOINT), (1042, 1042));
}
