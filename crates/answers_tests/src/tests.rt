//! Rows that were worked by hand from the sources that the definitions name.
mod commands;
mod sequences;
mod settings;
mod shown;
mod waiting;

ghost use Rattle.std.specs.Prelude.{⊤};

use ansi_answers::{Answer, Facts, Request, Theme, Waiting, answer_to_command, answer_to_sequence};
use ansi_modes::Asked;
use ansi_style::Style;
use anstyle_parse::io::{Fault, FromWrite, Output};
use anstyle_parse::{Params, Parser, Perform, Utf8Parser};
use std::alloc::{AllocGlobal, Global};
use std::fmt::Debug;
use std::process::Abort;

/// Two values are the same; else both are shown.
fn assert_same<T: PartialEq + Debug>(rt: &impl Abort, value: &T, wanted: &T) {
    assert_eq!(rt; *value, *wanted);
}

/// A screen of 20 columns and 6 rows, with the cursor in row 3 and column 4.
fn facts() -> Facts {
    Facts {
        rows: 6,
        columns: 20,
        row: 3,
        column: 4,
        top: 1,
        bottom: 6,
        is_relative: false,
        wraps: true,
        inserts: false,
        is_visible: true,
        style: Style::default(),
    }
}

/// Who is asked: it hands each call to what follows the stream, and keeps the answer.
#[derive(Drop)]
struct Talk {
    facts: Facts,
    asked: Asked,
    theme: Theme,
    request: Request,
    waiting: Waiting,
}

impl Talk {
    fn new(facts: Facts, theme: Theme) -> Talk {
        Talk {
            facts,
            asked: Asked::new(),
            theme,
            request: Request::Nothing,
            waiting: Waiting::new(),
        }
    }

    fn keep_answer_to_sequence(
        &mut self,
        params: &Params,
        intermediates: &[u8],
        ignore: bool,
        action: u8,
    ) {
        let facts = self.facts;
        let answer = answer_to_sequence(params, intermediates, ignore, action, &facts, &self.asked);
        self.waiting.keep(answer);
    }
}

impl Perform for Talk {
    ghost means = { λ _ _ _. ⊤ };

    fn print(&mut self, c: char) {
        self.asked.print(c);
    }

    fn execute(&mut self, byte: u8) {
        self.asked.execute(byte);
    }

    fn hook(&mut self, _: &Params, intermediates: &[u8], ignore: bool, action: u8) {
        self.request = Request::hooked(intermediates, ignore, action);
    }

    fn put(&mut self, byte: u8) {
        self.request = self.request.with_byte(byte);
    }

    fn unhook(&mut self) {
        let facts = self.facts;
        let answer = self.request.answer(&facts, &self.asked);
        self.request = Request::Nothing;
        self.waiting.keep(answer);
    }

    fn osc_dispatch(&mut self, params: &[&[u8]], bell_terminated: bool) {
        self.asked.osc_dispatch(params, bell_terminated);
        let answer = answer_to_command(params, bell_terminated, &self.asked, &self.theme);
        self.waiting.keep(answer);
    }

    fn csi_dispatch(&mut self, params: &Params, intermediates: &[u8], ignore: bool, action: u8) {
        self.asked
            .csi_dispatch(params, intermediates, ignore, action);
        self.keep_answer_to_sequence(params, intermediates, ignore, action);
    }

    fn esc_dispatch(&mut self, intermediates: &[u8], ignore: bool, byte: u8) {
        self.asked.esc_dispatch(intermediates, ignore, byte);
    }
}

/// What is written into.
type Memory = FromWrite<Vec<u8>>;

/// An output into memory.
fn memory(alloc: Global) -> Output<Memory> {
    Output::new(FromWrite::new(Vec::new(alloc)))
}

fn finished(output: Output<Memory>) -> (Memory, Result<(), Fault>) {
    output.finish()
}

fn assert_ok(rt: &impl Abort, answer: Result<(), Fault>) {
    assert!(rt; answer.is_ok());
}

/// What was written, where no write failed.
fn bytes_of(rt: &impl Abort, output: Output<Memory>) -> Vec<u8> {
    let (sink, answer) = finished(output);
    assert_ok(rt, answer);
    sink.into_inner()
}

/// The bytes of answers.
fn bytes_of_answers(rt: &(impl Abort + AllocGlobal), answers: &[Answer]) -> Vec<u8> {
    let mut output = memory(rt.alloc());
    for answer in answers {
        answer.write(&mut output);
    }
    bytes_of(rt, output)
}

/// What was answered so far.
fn after(facts: Facts, theme: Theme, bytes: &[u8]) -> Talk {
    let mut talk = Talk::new(facts, theme);
    let mut parser = Parser::<Utf8Parser>::new();
    for byte in bytes {
        parser.advance(&mut talk, *byte);
    }
    talk
}

/// The bytes are answered so.
fn assert_answers(rt: &(impl Abort + AllocGlobal), answers: &[Answer], wanted: &[u8]) {
    let written = bytes_of_answers(rt, answers);
    assert_same(rt, &written.as_slice(), &wanted);
    drop(written);
}

fn assert_answered(rt: &(impl Abort + AllocGlobal), talk: &Talk, wanted: &[u8]) {
    assert_answers(rt, talk.waiting.answers(), wanted);
}

/// Bytes, and what is written back.
type Row = (&'static [u8], &'static [u8]);

fn assert_rows(rt: &(impl Abort + AllocGlobal), facts: Facts, rows: &[Row]) {
    for (bytes, wanted) in rows {
        let talk = after(facts, Theme::none(), bytes);
        assert_answered(rt, &talk, wanted);
        drop(talk);
    }
}
