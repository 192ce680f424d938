//! Groups at the limit of fields, and texts of groups, worked by hand: each public call once.
use super::lines::Lines;
use anstyle_parse::{Params, Parser, Utf8Parser};
use arrayvec::ArrayString;
use std::fmt::Write;
use std::test::Fail;

/// The parameters that a new parser hands out last.
fn handed_out(bytes: &[u8]) -> Params {
    let mut parser = Parser::<Utf8Parser>::new();
    let mut lines = Lines::new();
    parser.advance_all(&mut lines, bytes);
    let Lines { params, .. } = lines;
    params
}

/// What Debug writes of them.
fn text_of(params: &Params) -> ArrayString<128> {
    let mut text = ArrayString::new();
    let _ = write!(text, "{params:?}");
    text
}

#[test]
fn default_has_no_group(rt: HostRuntime) {
    let params = Params::default();
    assert!(rt; text_of(&params).as_str() == "[]");
    assert!(rt; params.len() == 0 && params.is_empty());
    let mut groups = params.iter();
    assert!(rt; groups.size_hint() == (0, Some(0)));
    assert!(rt; groups.next().is_none());
    assert!(rt; groups.next().is_none());
}

#[test]
fn hint_is_the_groups_left(rt: HostRuntime) {
    let params = handed_out(b"\x1B[38:2:255:0:255;1m");
    assert!(rt; params.len() == 6 && !params.is_empty());
    let mut groups = (&params).into_iter();
    assert!(rt; groups.size_hint() == (2, Some(2)));
    assert!(rt; groups.next() == Some([38, 2, 255, 0, 255].as_slice()));
    assert!(rt; groups.size_hint() == (1, Some(1)));
    assert!(rt; groups.next() == Some([1].as_slice()));
    assert!(rt; groups.size_hint() == (0, Some(0)));
    assert!(rt; groups.next().is_none());
    assert!(rt; groups.next().is_none());
    assert!(rt; groups.size_hint() == (0, Some(0)));
}

#[test]
fn lone_fields_are_groups_of_their_own(rt: HostRuntime) {
    let params = handed_out(b"\x1B[38;2;;17m");
    let Some((fields, count)) = params.lone_fields() else {
        assert!(rt; false, "none");
        return;
    };
    assert!(rt; fields.get(..count) == Some([38, 2, 0, 17].as_slice()));
    assert!(rt; handed_out(b"\x1B[4:3;1m").lone_fields().is_none());
    let params = Params::default();
    assert!(rt; matches!(params.lone_fields(), Some((_, 0))));
}

// As many fields as are kept, in one group, each in its own, and in two.
#[test]
fn groups_at_the_limit(rt: HostRuntime) {
    let rows: [(&[u8], usize, usize); 3] = [
        (
            b"\x1B[0:0:0:0:0:0:0:0:0:0:0:0:0:0:0:0:0:0:0:0:0:0:0:0:0:0:0:0:0:0:0:0m",
            1,
            32,
        ),
        (b"\x1B[;;;;;;;;;;;;;;;;;;;;;;;;;;;;;;;m", 32, 1),
        (b"\x1B[::::::::::::::::::::::::::::::;m", 2, 31),
    ];
    for (bytes, count, first) in rows {
        let params = handed_out(bytes);
        let mut groups = params.iter();
        assert!(rt;
            params.len() == 32 && groups.size_hint() == (count, Some(count)),
            "{count}"
        );
        assert!(rt; groups.next().map_or(0, |it| it.len()) == first, "{count}");
        for _ in 1..count {
            assert!(rt; groups.next().is_some(), "{count}");
        }
        assert!(rt;
            groups.size_hint() == (0, Some(0)) && groups.next().is_none(),
            "{count}"
        );
    }
}

/// Bytes, and the Debug text of the parameters that a parser hands out. It is what parselog shows of them, as
/// tests/lib/expected.py has it.
const ROWS: [(&[u8], &str); 11] = [
    (b"\x1B[m", "[0]"),
    (b"\x1B[?25h", "[25]"),
    (b"\x1B[4:3;;58:2::1:2:3m", "[4:3;0;58:2:0:1:2:3]"),
    (b"\x1B[65535;65536;1:H", "[65535;65535;1:0]"),
    (b"\x1B[38:2:255:0:255;1m", "[38:2:255:0:255;1]"),
    (
        b"\x1B[;;;;;;;;;;;;;;;;;;;;;;;;;;;;;;;m",
        "[0;0;0;0;0;0;0;0;0;0;0;0;0;0;0;0;0;0;0;0;0;0;0;0;0;0;0;0;0;0;0;0]",
    ),
    (
        b"\x1B[;;;;;;;;;;;;;;;;;;;;;;;;;;;;;;;;m",
        "[0;0;0;0;0;0;0;0;0;0;0;0;0;0;0;0;0;0;0;0;0;0;0;0;0;0;0;0;0;0;0;0]",
    ),
    (b"\x1B[99999m", "[65535]"),
    (b"\x1B[?! h", "[0]"),
    (b"\x1B[4;m", "[4;0]"),
    (b"\x1B[?1049h", "[1049]"),
];

/// The control sequence that says these parameters: ESC, their text without its last byte, and `m`.
fn sequence_of(text: &str) -> ArrayString<128> {
    let mut sequence = ArrayString::new();
    let groups = text.strip_suffix("]").unwrap_or(text);
    let _ = write!(sequence, "\x1B{groups}m");
    sequence
}

// What a parser hands out is handed out again from its Debug text.
#[test]
fn text_is_read_back(rt: HostRuntime) {
    for (bytes, text) in ROWS {
        let again = sequence_of(text);
        assert!(rt;
            text_of(&handed_out(bytes)).as_str() == text,
            "of {bytes:?}"
        );
        assert!(rt;
            text_of(&handed_out(again.as_str().as_bytes())).as_str() == text,
            "of {again:?}"
        );
    }
}

#[test]
fn equal_values(rt: HostRuntime) -> Result<(), Fail> {
    let params = handed_out(b"\x1B[1;2m");
    assert!(rt; params == handed_out(b"\x1B[1;2m"));
    assert!(rt; params == params.clone()?);
    assert!(rt; params != handed_out(b"\x1B[1:2m"));
    assert!(rt; params != handed_out(b"\x1B[1;3m"));
    Ok(())
}
