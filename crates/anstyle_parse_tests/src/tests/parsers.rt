//! Parsers over accumulators that no clause of streams covers, and what `==` and a clone of a
//! parser are, seen from outside.
ghost use Rattle.std.specs.Prelude.{[], Some, false, refl, ⊤, if◌then◌else◌};
ghost use Rattle.std.proofs.lemmas.Bool.{false≢true};
ghost use Rattle.anstyle_parse.specs.declared.utf8.Taken.{Taken};

use super::lines::{Lines, lines_of, lines_of_log, lines_of_texts, parser_after};
use anstyle_parse::{AsciiParser, CharAccumulator, Parser, Taken};
use std::alloc::AllocError;
use std::process::Abort;
use std::test::Fail;

/// Answers `x` to every byte: as a character, or as what stands for one that the byte breaks.
#[derive(Default, Drop)]
struct AlwaysX<const BREAKS: bool>;

impl<const BREAKS: bool> CharAccumulator for AlwaysX<BREAKS> {
    ghost front = { λ _. [] };

    ghost takes = { λ _ _. ⊤ };

    ghost adds = { λ value _. (value, Some 0x78) };

    ghost taken = { λ value _. (value, if BREAKS then Taken.Broken 0x78 else Taken.Char 0x78) };

    ghost decodes = { false };

    ghost default_holds_none = { λ _ _. refl };

    ghost follows = { λ h. absurd (false≢true h) };

    fn add(&mut self, _byte: u8) -> Option<char> {
        Some('x')
    }

    fn take(&mut self, _byte: u8) -> Taken {
        if BREAKS {
            Taken::Broken('x')
        } else {
            Taken::Char('x')
        }
    }
}

// It answers at once, and yet the next byte is within the character.
#[test]
fn accumulator_that_answers_at_once(rt: HostRuntime) {
    for second in [0x41, 0x1B] {
        let mut parser = Parser::<AlwaysX<false>>::default();
        let mut lines = Lines::new();
        parser.advance(&mut lines, 0xC2);
        assert!(rt; parser.is_in_char() && lines.text.as_str() == "print U+0078\n");
        parser.advance(&mut lines, second);
        assert!(rt; !parser.is_in_char());
        parser.advance(&mut lines, 0x41);
        assert!(rt; !parser.is_in_char());
        assert!(rt; lines.text.as_str() == "print U+0078\nprint U+0078\nprint U+0041\n");
    }
}

// On a first byte such an answer is that of a character; after it the byte is handled again.
#[test]
fn accumulator_that_always_breaks(rt: HostRuntime) {
    for (second, text) in [
        (0x41, "print U+0078\nprint U+0078\nprint U+0041\n"),
        (0xC2, "print U+0078\nprint U+0078\nprint U+0078\n"),
    ] {
        let mut parser = Parser::<AlwaysX<true>>::default();
        let mut lines = Lines::new();
        parser.advance(&mut lines, 0xC2);
        assert!(rt; parser.is_in_char() && lines.text.as_str() == "print U+0078\n");
        parser.advance(&mut lines, second);
        assert!(rt; parser.is_in_char() == (second == 0xC2));
        assert!(rt; lines.text.as_str() == text);
    }
}

#[test]
fn unfinished_character(rt: HostRuntime) {
    let mut parser = parser_after(b"\xe2\x82");
    assert!(rt; parser.is_in_char());
    assert!(rt; lines_of(&mut parser, b"\xAC").as_str() == "print U+20AC\n");
    assert!(rt; !parser.is_in_char());
}

// After each, whether a sequence is open, and whether it is a string.
#[test]
fn open_sequences(rt: HostRuntime) {
    let rows: [(&[u8], bool, bool); 14] = [
        (b"", false, false),
        (b"a\xe2", false, false),
        (b"\x1b", true, false),
        (b"\x1b(", true, false),
        (b"\x1b[1", true, false),
        (b"\x1b[1m", false, false),
        (b"\x1bP1", true, false),
        (b"\x1bP1q", true, true),
        (b"\x1bP1:2qa", true, true),
        (b"\x1b]0;a", true, true),
        (b"\x1b]0;a\x07", false, false),
        (b"\x1bX", true, true),
        (b"\x1b_a\x07", true, true),
        (b"\x1b^a\x1b\\", false, false),
    ];
    for (bytes, is_open, is_string) in rows {
        let parser = parser_after(bytes);
        assert_eq!(rt; parser.is_in_sequence(), is_open);
        assert_eq!(rt; parser.is_in_string(), is_string);
    }
}

#[test]
fn ascii_alone(rt: HostRuntime) {
    let mut parser = Parser::<AsciiParser>::default();
    let mut lines = Lines::new();
    for byte in *b"\x1b[m" {
        parser.advance(&mut lines, byte);
        assert!(rt; !parser.is_in_char());
    }
    assert!(rt; lines.text.as_str() == "csi_dispatch [0] - false 6D\n");
}

// After ESC nothing counts that came before, once or twice, and yet `==` tells these parsers apart,
// since the one still stores the text of a command.
#[test]
fn unequal_parsers_with_equal_calls(rt: HostRuntime) {
    let histories: [(&[u8], &[u8]); 2] = [
        (b"\xC3\x1B", b"\x1B]a\x1B"),
        (b"\xC3\x1B\x1B", b"\x1B]a\x1B\x1B"),
    ];
    for (one, other) in histories {
        let mut character = parser_after(one);
        let mut command = parser_after(other);
        assert!(rt; character == parser_after(one));
        assert!(rt; character != command);
        let want = "csi_dispatch [0] - false 6D\n";
        assert!(rt; lines_of(&mut character, b"[m").as_str() == want);
        assert!(rt; lines_of(&mut command, b"[m").as_str() == want);
    }
}

// A parser and its clone make the same calls of what comes next.
fn assert_clone(
    rt: &impl Abort,
    history: &[u8],
    then: &[u8],
    want: &str,
) -> Result<(), AllocError> {
    let mut parser = parser_after(history);
    let mut clone = parser.clone()?;
    assert!(rt; clone == parser);
    assert!(rt; lines_of(&mut clone, then).as_str() == want);
    assert!(rt; lines_of(&mut parser, then).as_str() == want);
    Ok(())
}

// A clone goes on as the parser that it is of.
#[test]
fn clones(rt: HostRuntime) -> Result<(), Fail> {
    assert_clone(&rt, b"\x1B]0;x\xC3", b"\x07", "osc_dispatch true 30 78C3\n")?;
    assert_clone(&rt, b"\xE2\x82", b"\xAC", "print U+20AC\n")?;
    Ok(())
}

// In two pieces, cut at any place, texts make the calls of their characters.
#[test]
fn texts_at_every_cut(rt: HostRuntime) {
    let stream = b"ab\xC3\xA9\x7F\x1B[mx\xE2\x82\xAC\x1BPqz\x7F\x9C\xE2\x82A\xFF\n";
    let want = "print U+0061\nprint U+0062\nprint U+00E9\nprint U+007F\n\
        csi_dispatch [0] - false 6D\nprint U+0078\nprint U+20AC\n\
        hook [0] - false 71\nput 7A\nunhook\nprint U+FFFD\nprint U+0041\nexecute 0A\n";
    for cut in 0..stream.len() + 1 {
        let (first, second) = stream.split_at(cut);
        assert!(rt; lines_of_texts(first, second).as_str() == want);
    }
}

// In two pieces, cut at any place, a log is read as one: Latin-1, a stamp that BEL ends, a broken character, a command.
#[test]
fn logs_at_every_cut(rt: HostRuntime) {
    let stream = b"M\xFCA\x1B_k\xA0\x07B\xE2\x82\xA3\xE2\xBF\xF5\x1B]\xFF\x07\xC3";
    let want = "print U+004D\nprint U+FFFD\nprint U+0041\nesc_dispatch - false 5C\nprint U+0042\n\
        print U+20A3\nprint U+FFFD\nprint U+FFFD\nosc_dispatch true FF\nprint U+FFFD\n";
    for cut in 0..stream.len() + 1 {
        let (first, second) = stream.split_at(cut);
        assert!(rt; lines_of_log(first, second).as_str() == want);
    }
}
