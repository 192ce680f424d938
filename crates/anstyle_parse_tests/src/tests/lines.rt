//! For tests: the calls of a parser, as lines.
ghost use Rattle.std.specs.Prelude.{⊤};
ghost use Rattle.anstyle_parse.specs.Views.Accumulator.{front_of};
ghost use Rattle.anstyle_parse.specs.Views.Parser.{IsAfter};

use anstyle_parse::{Params, Parser, Perform, PerformText, Utf8Parser};
use arrayvec::ArrayString;
use std::fmt::Write;

/// A line for each call, and the parameters of the last control sequence.
#[derive(Default, Drop)]
pub struct Lines {
    pub text: ArrayString<512>,
    pub params: Params,
}

impl Lines {
    pub fn new() -> Lines {
        Lines {
            text: ArrayString::new(),
            params: Params::default(),
        }
    }

    /// Bytes by two digits each, and `-` for none.
    fn add_bytes(&mut self, bytes: &[u8]) {
        let _ = write!(self.text, " ");
        if bytes.is_empty() {
            let _ = write!(self.text, "-");
        }
        for byte in bytes {
            let _ = write!(self.text, "{byte:02X}");
        }
    }

    /// What a sequence's header said, and its last byte.
    fn add_header(&mut self, params: &Params, intermediates: &[u8], ignore: bool, action: u8) {
        let _ = write!(self.text, " {params:?}");
        self.add_bytes(intermediates);
        let _ = writeln!(self.text, " {ignore} {action:02X}");
    }
}

impl Perform for Lines {
    ghost means = { λ _ _ _. ⊤ };

    fn print(&mut self, c: char) {
        let _ = writeln!(self.text, "print U+{:04X}", u32::from(c));
    }

    fn execute(&mut self, byte: u8) {
        let _ = writeln!(self.text, "execute {byte:02X}");
    }

    fn hook(&mut self, params: &Params, intermediates: &[u8], ignore: bool, action: u8) {
        let _ = write!(self.text, "hook");
        self.add_header(params, intermediates, ignore, action);
    }

    fn put(&mut self, byte: u8) {
        let _ = writeln!(self.text, "put {byte:02X}");
    }

    fn unhook(&mut self) {
        let _ = writeln!(self.text, "unhook");
    }

    fn osc_dispatch(&mut self, params: &[&[u8]], bell_terminated: bool) {
        let _ = write!(self.text, "osc_dispatch {bell_terminated}");
        for part in params {
            self.add_bytes(part);
        }
        let _ = writeln!(self.text);
    }

    fn csi_dispatch(&mut self, params: &Params, intermediates: &[u8], ignore: bool, action: u8) {
        let _ = write!(self.text, "csi_dispatch");
        self.add_header(params, intermediates, ignore, action);
        if let Ok(params) = params.clone() {
            self.params = params;
        }
    }

    fn esc_dispatch(&mut self, intermediates: &[u8], ignore: bool, byte: u8) {
        let _ = write!(self.text, "esc_dispatch");
        self.add_bytes(intermediates);
        let _ = writeln!(self.text, " {ignore} {byte:02X}");
    }
}

/// A text is a line for each of its characters.
impl PerformText for Lines {
    ghost receives = { λ _ _ _. ⊤ };

    ghost follows = { record { none = λ _. tt; one = λ _ _ _ _. tt; more = λ _ _ _ _ _ _ _. tt } };
}

/// The calls that a new parser makes of two pieces, with texts at once.
pub fn lines_of_texts(first: &[u8], second: &[u8]) -> ArrayString<512> {
    let mut parser = Parser::<Utf8Parser>::new();
    let mut lines = Lines::new();
    parser.advance_texts(&mut lines, first);
    parser.advance_texts(&mut lines, second);
    let Lines { text, .. } = lines;
    text
}

/// The calls that a new parser makes of a log in two pieces, as it is read.
pub fn lines_of_log(first: &[u8], second: &[u8]) -> ArrayString<512> {
    let mut parser = Parser::<Utf8Parser>::new();
    let mut lines = Lines::new();
    parser.advance_log(&mut lines, first);
    parser.advance_log(&mut lines, second);
    parser.end_log(&mut lines);
    let Lines { text, .. } = lines;
    text
}

/// A new parser that took these bytes, whatever it called.
pub fn parser_after(bytes: &[u8]) -> Parser
    ensures { IsAfter front_of result bytes.now }
{
    let mut parser = Parser::<Utf8Parser>::new();
    let mut dropped = Lines::default();
    parser.advance_all(&mut dropped, bytes);
    parser
}

/// The calls that the parser makes of these bytes.
pub fn lines_of(parser: &mut Parser, bytes: &[u8]) -> ArrayString<512> {
    let mut lines = Lines::new();
    parser.advance_all(&mut lines, bytes);
    let Lines { text, .. } = lines;
    text
}
