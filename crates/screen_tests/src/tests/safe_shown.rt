//! Rows of what a screen showed, as safe text, that were worked by hand. (More are rows of tests/lib/safe_rows.py.)
use super::assert_written;
use ansi_screen::Scrollable;
use anstyle_parse::io::{FromRead, FromWrite, Output};
use screen_safe::laws::{of_the_class, read_back, whole};
use screen_safe::{SafeRows, write_safe_shown};
use screen_text::ShownWriter;
use std::alloc::{AllocError, AllocGlobal};
use std::process::Abort;
use std::test::Fail;
use test_streams::Tape;

/// What is read, and what a screen of 9 columns and 3 rows showed of it.
const ROWS: [(&str, &str); 7] = [
    (" 10%\r 50%\r100%\r\n", "100%\n"),
    ("a\u{202E}b\r\nc\r\nd\r\ne", "a<U+202E>b\nc\nd\ne\n"),
    ("12345678<U+0041>\r\n", "12345678<U+003C>U+0041>\n"),
    ("<\r\nU+\r\n<U", "<\nU+\n<U\n"),
    (
        "\u{1F468}\u{200D}\u{1F469}a\u{200D}",
        "\u{1F468}\u{200D}\u{1F469}a<U+200D>\n",
    ),
    ("a\x1B[8mbc\x1B[md\r\n", "a<U+hidden>bc<U+shown>d\n"),
    (
        "\x1B[8m123456789a\x1B[m\r\n",
        "<U+hidden>123456789<U+shown><U+hidden>a<U+shown>\n",
    ),
];

/// What is read is shown as this text.
fn assert_shown(
    rt: &(impl Abort + AllocGlobal),
    given: &str,
    text: &str,
) -> Result<(), AllocError> {
    let screen = Scrollable::new(rt.alloc(), 9, 3)?;
    let mut reader = FromRead::new(Tape::new(given.as_bytes()));
    let writer = FromWrite::new(Vec::new(rt.alloc()));
    let (writer, answer) = write_safe_shown(screen, &mut reader, writer);
    assert_written(rt, (writer.into_inner(), answer), text.as_bytes());
    Ok(())
}

#[test]
fn texts(rt: HostRuntime) -> Result<(), Fail> {
    for (given, text) in ROWS {
        assert_shown(&rt, given, text)?;
    }
    Ok(())
}

#[test]
fn names(rt: HostRuntime) -> Result<(), Fail> {
    let screen = Scrollable::new(rt.alloc(), 9, 3)?;
    let rows = SafeRows::new(Output::new(FromWrite::new(Vec::new(rt.alloc()))));
    let writer = ShownWriter::new(screen, rows);
    laws();
    drop(writer);
    Ok(())
}

// The names of the laws.
fn laws() {
    whole();
    of_the_class();
    read_back();
}
