//! The groups in a line are the Debug text of the parameters, which no clause says of both.
ghost use Rattle.std.specs.Prelude.{⊤};

use super::streams::{Paper, Pattern, Tape};
use super::{Wanted, check, writes_of};
use crate::run::Mode;
use anstyle_parse::canon::Fault;
use anstyle_parse::{Params, Parser, Perform, Utf8Parser};
use std::alloc::Global;
use std::fmt::Write;

/// Writes the line of a control sequence down to its groups, by the Debug text of the parameters.
#[derive(Drop)]
struct Recorder {
    text: String,
}

impl Perform for Recorder {
    ghost means = { λ _ _ _. ⊤ };

    fn print(&mut self, _: char) {}

    fn execute(&mut self, _: u8) {}

    fn hook(&mut self, _: &Params, _: &[u8], _: bool, _: u8) {}

    fn put(&mut self, _: u8) {}

    fn unhook(&mut self) {}

    fn osc_dispatch(&mut self, _: &[&[u8]], _: bool) {}

    fn csi_dispatch(&mut self, params: &Params, _intermediates: &[u8], _ignore: bool, _action: u8) {
        let _ = write!(self.text, "csi_dispatch {params:?} ");
    }

    fn esc_dispatch(&mut self, _: &[u8], _: bool, _: u8) {}
}

/// What the recording performer has written of the bytes.
fn recorded(alloc: Global, bytes: &[u8]) -> String {
    let mut recorder = Recorder {
        text: String::new(alloc),
    };
    Parser::<Utf8Parser>::new().advance_all(&mut recorder, bytes);
    let Recorder { text } = recorder;
    text
}

/// Whether a writer with room for as much as that holds the same of the line.
fn is_begun(bytes: &[u8], begin: &str) -> bool {
    let tape = Tape::new(Pattern::of(bytes), usize::MAX);
    let paper = Paper::new(Pattern::of(begin.as_bytes()));
    let wanted = Wanted {
        answer: Err(Fault::Write),
        lacking: 0,
        reads: 1,
        flushes: 0,
    };
    begin.ends_with("] ") && writes_of(Mode::Log, tape, paper, wanted).is_some()
}

/// Whether the line begins as the recording performer has it.
fn is_recorded(alloc: Global, bytes: &[u8]) -> bool {
    let begin = recorded(alloc, bytes);
    is_begun(bytes, begin.as_str())
}

#[test]
fn groups_of_a_line_are_the_debug_text(rt: HostRuntime) {
    let rows: [&[u8]; 8] = [
        b"\x1B[m",
        b"\x1B[38:2:255:0:255;1m",
        b"\x1B[;;;;;;;;;;;;;;;;;;;;;;;;;;;;;;;m",
        b"\x1B[;;;;;;;;;;;;;;;;;;;;;;;;;;;;;;;;m",
        b"\x1B[99999m",
        b"\x1B[?! h",
        b"\x1B[4;m",
        b"\x1B[?1049h",
    ];
    for bytes in rows {
        check(
            &rt,
            is_recorded(rt.alloc(), bytes),
            "groups of",
            bytes.len(),
        );
    }
}
