//! The style at the end of a log, as docs/USING.md shows it.
use ansi_style::Style;
use anstyle_parse::io::{Output, Sink};
use anstyle_parse::{Parser, Utf8Parser};

pub fn write_last_style<W: Sink>(log: &[u8], output: &mut Output<W>) {
    let mut parser = Parser::<Utf8Parser>::new();
    let mut style = Style::default();
    parser.advance_all(&mut style, log);
    style.write_codes(output);
}
