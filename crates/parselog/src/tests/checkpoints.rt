//! The lines of a parser that took a checkpoint, for the bytes after it alone.
ghost use Rattle.anstyle_parse.specs.Views.Accumulator.{front_of};
ghost use Rattle.anstyle_parse.specs.Views.Parser.{IsAfter};

use super::check;
use super::streams::{Paper, Pattern};
use crate::log::LogWriter;
use anstyle_parse::canon::{FromWrite, MAX_CHECKPOINT, checkpoint};
use anstyle_parse::{Parser, Utf8Parser};
use std::alloc::Global;
use std::process::Abort;

/// A new parser that took these bytes, whatever it called.
fn parser_after(bytes: &[u8]) -> Parser
    ensures { IsAfter front_of result bytes.now }
{
    let mut parser = Parser::<Utf8Parser>::new();
    parser.advance_all(&mut (), bytes);
    parser
}

/// Whether a parser that took the checkpoint of one with this history makes these lines of further
/// bytes. Answers how long the checkpoint is.
fn resumed(alloc: Global, history: &[u8], then: &[u8], lines: &str) -> Option<usize> {
    let writer = FromWrite::new(Vec::new(alloc));
    let (writer, answer) = checkpoint(&parser_after(history), writer);
    let text = writer.into_inner();
    let mut log = LogWriter::new(FromWrite::new(Paper::new(Pattern::of(lines.as_bytes()))));
    parser_after(text.as_slice()).advance_all(&mut log, then);
    let (writer, finished) = log.finish();
    if answer == Ok(()) && finished == Ok(()) && writer.into_inner().lacks(0) {
        Some(text.len())
    } else {
        None
    }
}

/// It makes these lines of further bytes.
fn assert_resumed(rt: &(impl Abort + AllocGlobal), history: &[u8], then: &[u8], lines: &str) {
    let length = resumed(rt.alloc(), history, then, lines);
    check(rt, length.is_some(), lines, history.len());
}

#[test]
fn resumed_parsers(rt: HostRuntime) {
    assert_resumed(&rt, b"\xE2\x82", b"\xAC", "print U+20AC\n");
    assert_resumed(&rt, b"\x1B !\"", b"0", "esc_dispatch 2021 true 30\n");
    assert_resumed(&rt, b"\x1B]a;b", b"\x07", "osc_dispatch true 61 62\n");
    assert_resumed(&rt, b"\x1BP1qA", b"B\x9C", "put 42\nunhook\n");
}

/// The longest checkpoint: sixteen closed parts and as much text as is kept.
#[test]
fn longest_checkpoint(rt: HostRuntime) {
    let mut history = [b'x'; MAX_CHECKPOINT];
    let (begin, _text) = history.split_at_mut(18);
    begin.copy_from_slice(b"\x1B];;;;;;;;;;;;;;;;");
    let lines = "osc_dispatch true - - - - - - - - - - - - - - - -\n";
    assert!(rt; resumed(rt.alloc(), &history, b"\x07", lines) == Some(1042));
}
