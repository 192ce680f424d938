//! Parsers over other accumulators, by `advance` with a log: no clause of streams speaks of those
//! that decode no UTF-8 over all bytes.
ghost use Rattle.std.specs.Prelude.{[], Some, false, refl, ⊤, if◌then◌else◌};
ghost use Rattle.std.proofs.lemmas.Bool.{false≢true};
ghost use Rattle.anstyle_parse.specs.declared.utf8.Taken.{Taken};

use super::streams::{Paper, Pattern};
use crate::log::LogWriter;
use anstyle_parse::canon::FromWrite;
use anstyle_parse::{AsciiParser, CharAccumulator, Parser, Taken, Utf8Parser};

/// Answers `x` to every byte: as a character, or as what stands for one that the byte breaks.
#[derive(Default, Drop)]
struct AlwaysX<const BREAKS: bool>;

impl<const BREAKS: bool> CharAccumulator for AlwaysX<BREAKS> {
    ghost front = { λ _. [] };

    ghost takes = { λ _ _. ⊤ };

    ghost adds = { λ value _. (value, Some 0x78) };

    ghost taken = { λ value _. (value, if BREAKS then Taken.Broken 0x78 else Taken.Char 0x78) };

    ghost decodes = { false };

    ghost default_holds_none = { λ _ _. refl };

    ghost follows = { λ h. absurd (false≢true h) };

    fn add(&mut self, _byte: u8) -> Option<char> {
        Some('x')
    }

    fn take(&mut self, _byte: u8) -> Taken {
        if BREAKS {
            Taken::Broken('x')
        } else {
            Taken::Char('x')
        }
    }
}

/// A log whose writer wants these lines.
fn log_of(lines: &str) -> LogWriter<FromWrite<Paper<'_>>> {
    LogWriter::new(FromWrite::new(Paper::new(Pattern::of(lines.as_bytes()))))
}

/// Whether the log has written just what its writer wants.
fn is_whole(log: LogWriter<FromWrite<Paper<'_>>>) -> bool {
    let (writer, answer) = log.finish();
    answer == Ok(()) && writer.into_inner().lacks(0)
}

/// Whether the parser is in a character after each of these bytes, and makes these lines of them.
fn always<const BREAKS: bool>(bytes: &[u8], lines: &str, within: &[bool]) -> bool {
    let mut log = log_of(lines);
    let mut parser = Parser::<AlwaysX<BREAKS>>::default();
    let mut holds = true;
    for (byte, is_within) in bytes.iter().zip(within) {
        parser.advance(&mut log, *byte);
        holds = holds && parser.is_in_char() == *is_within;
    }
    holds && is_whole(log)
}

/// After C2, this byte and 41.
fn always_x(second: u8, lines: &str, within: [bool; 3]) -> bool {
    always::<false>(&[0xC2, second, 0x41], lines, &within)
}

/// It answers at once, and yet the next byte is within the character.
#[test]
fn accumulator_that_answers_at_once(rt: HostRuntime) {
    let lines = "print U+0078\nprint U+0078\nprint U+0041\n";
    assert!(rt; always_x(0x41, lines, [true, false, false]));
    assert!(rt; always_x(0x1B, lines, [true, false, false]));
}

/// After C2 and this byte.
fn always_broken(second: u8, lines: &str, within: [bool; 2]) -> bool {
    always::<true>(&[0xC2, second], lines, &within)
}

/// On a first byte such an answer is that of a character; after it the byte is handled again.
#[test]
fn accumulator_that_always_breaks(rt: HostRuntime) {
    let lines = "print U+0078\nprint U+0078\nprint U+0041\n";
    assert!(rt; always_broken(0x41, lines, [true, false]));
    let lines = "print U+0078\nprint U+0078\nprint U+0078\n";
    assert!(rt; always_broken(0xC2, lines, [true, true]));
}

#[test]
fn ascii_alone(rt: HostRuntime) {
    let mut log = log_of("csi_dispatch [0] - false 6D\n");
    let mut parser = Parser::<AsciiParser>::default();
    let mut within = false;
    for byte in *b"\x1B[m" {
        parser.advance(&mut log, byte);
        within = within || parser.is_in_char();
    }
    assert!(rt; !within && is_whole(log));
}

/// Two bytes of three, and then the last.
#[test]
fn unfinished_character(rt: HostRuntime) {
    let mut log = log_of("print U+20AC\n");
    let mut parser = Parser::<Utf8Parser>::new();
    parser.advance_all(&mut log, b"\xE2\x82");
    let first = parser.is_in_char();
    parser.advance(&mut log, 0xAC);
    assert!(rt; first && !parser.is_in_char() && is_whole(log));
}
