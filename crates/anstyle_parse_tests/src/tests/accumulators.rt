//! Answers of the two decoders to worked bytes of Unicode's Table 3-7, which no clause names.
use anstyle_parse::{AsciiParser, CharAccumulator, DefaultCharAccumulator, Taken};

// The last byte of each row answers the character, and the bytes before it nothing. After
// it the next byte is at the start of a character.
fn is_answered(bytes: &[u8], want: char) -> bool {
    let mut parser = DefaultCharAccumulator::default();
    let mut answer = None;
    for byte in bytes {
        if answer.is_some() {
            return false;
        }
        answer = parser.add(*byte);
    }
    answer == Some(want) && parser.add(b'A') == Some('A')
}

#[test]
fn answers_at_the_last_byte(rt: HostRuntime) {
    let rows: [(&[u8], char); 12] = [
        (b"\x41", 'A'),
        (b"\x80", '\u{FFFD}'),
        (b"\xC2\x80", '\u{80}'),
        (b"\xDF\xBF", '\u{7FF}'),
        (b"\xE0\xA0\x80", '\u{800}'),
        (b"\xEF\xBF\xBD", '\u{FFFD}'),
        (b"\xF0\x90\x80\x80", '\u{10000}'),
        (b"\xF4\x8F\xBF\xBF", '\u{10FFFF}'),
        (b"\xE0\x80", '\u{FFFD}'),
        (b"\xF4\x90", '\u{FFFD}'),
        (b"\xED\xA0", '\u{FFFD}'),
        (b"\xC3\xC3", '\u{FFFD}'),
    ];
    for (bytes, want) in rows {
        assert!(rt; is_answered(bytes, want), "{bytes:?}");
    }
}

// `take` tells a character that its last byte ends from one that it breaks.
#[test]
fn broken_characters_are_told_apart(rt: HostRuntime) {
    let rows: [(&[u8], Taken); 7] = [
        (b"\x41", Taken::Char('A')),
        (b"\x80", Taken::Char('\u{FFFD}')),
        (b"\xC3", Taken::More),
        (b"\xEF\xBF\xBD", Taken::Char('\u{FFFD}')),
        (b"\xC3\xC3", Taken::Broken('\u{FFFD}')),
        (b"\xE0\x80", Taken::Broken('\u{FFFD}')),
        (b"\xF0\x9F\x98\x1B", Taken::Broken('\u{FFFD}')),
    ];
    for (bytes, want) in rows {
        assert!(rt; last_taken(bytes) == want, "{bytes:?}");
    }
}

/// What `take` answers for the last of these bytes.
fn last_taken(bytes: &[u8]) -> Taken {
    let mut parser = DefaultCharAccumulator::default();
    let mut answer = Taken::More;
    for byte in bytes {
        answer = parser.take(*byte);
    }
    answer
}

#[test]
fn ascii_is_answered_at_once(rt: HostRuntime) {
    assert!(rt; AsciiParser.add(b'\0') == Some('\0'));
    assert!(rt; AsciiParser.add(b'\x7F') == Some('\x7F'));
    assert!(rt; AsciiParser.take(b'\x7F') == Taken::Char('\x7F'));
}
