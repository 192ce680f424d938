//! Rows that were worked by hand; and reads and writes that fail.
use super::{assert_answer, assert_bytes};
use ansi_strip::Stripper;
use ansi_style::{Color, Hue};
use anstyle_parse::PerformText;
use anstyle_parse::canon::{CallWriter, Fault, FromRead, FromWrite, Output, WritingPerformer};
use anstyle_parse::io::perform_texts_to_end;
use safe_text::laws::{marks, of_the_class, read_back, safe_length, safe_stays, safe_utf8, whole};
use safe_text::{MarkingWriter, SafeWriter, is_shown, write_safe};
use std::alloc::Global;
use std::process::Abort;
use std::test::Fail;
use test_streams::Tape;
use without_hidden::WithoutHidden;
use xterm_palette::{bright, named, number_of};

/// What is read, and its safe text. (Many more are rows of tests/lib/safe_rows.py.)
const ROWS: [(&str, &str); 17] = [
    ("a<b\t\n", "a<b\t\n"),
    ("a\r\nb\rc\x07", "a\nb<U+000D>c<U+0007>"),
    ("a\u{202E}b\u{E0041}", "a<U+202E>b<U+E0041>"),
    ("<U+0041><U", "<U+003C>U+0041><U"),
    (
        "\u{1F468}\u{200D}\u{1F469}a\u{200D}",
        "\u{1F468}\u{200D}\u{1F469}a<U+200D>",
    ),
    (
        "\u{94D}\u{200C}\u{E01}\u{200B}\u{E01}",
        "\u{94D}\u{200C}\u{E01}\u{200B}\u{E01}",
    ),
    ("1\u{FE0F}\u{20E3}2\u{FE0E}", "1\u{FE0F}\u{20E3}2<U+FE0E>"),
    // hidden text, its begin and its end: by 28, by 0, by a control, and by the end of the stream
    ("a\x1B[8mb\x1B[28mc", "a<U+hidden>b<U+shown>c"),
    ("\x1B[1;8mb\x1B[31mc\x1B[md", "<U+hidden>bc<U+shown>d"),
    (
        "\x1B[8ma\r\nb\tc\x1B[0m\n",
        "<U+hidden>a<U+shown>\n<U+hidden>b<U+shown>\t<U+hidden>c<U+shown>\n",
    ),
    ("a\x1B[8mb", "a<U+hidden>b<U+shown>"),
    // where no text comes there is no mark
    ("a\x1B[8m\n\x1B[28mb\x1B[8m", "a\nb"),
    // so do colours of text and ground that are one, and not the terminal's own
    (
        "\x1B[30;40ma\x1B[48;2;0;205;0;32mb\x1B[39mc",
        "<U+hidden>ab<U+shown>c",
    ),
    ("\x1B[39;49ma\x1B[31mb\x1B[101mc", "abc"),
    // a colour of which 8 is a part hides nothing
    ("\x1B[38;5;8ma\x1B[38:5:8mb", "ab"),
    // nothing of the stream looks as a mark, nor does what stands on both sides of one
    (
        "<U+hidden>\x1B[8m<\x1B[mU+<U+shown>",
        "<U+003C>U+hidden><U+hidden><<U+shown>U+<U+003C>U+shown>",
    ),
    (
        "\x1B[8m\u{1F468}\u{200D}\x1B[m\u{1F469}",
        "<U+hidden>\u{1F468}<U+200D><U+shown>\u{1F469}",
    ),
];

/// What was written to memory is this.
fn assert_text(rt: &impl Abort, writer: FromWrite<Vec<u8>>, text: &[u8]) {
    assert_bytes(rt, writer.into_inner().as_slice(), text);
}

/// Safe text of a tape is this, and the run answers so.
fn assert_safe(
    rt: &(impl Abort + AllocGlobal),
    tape: Tape<'_>,
    text: &[u8],
    answer: Result<(), Fault>,
) {
    let mut reader = FromRead::new(tape);
    let writer = FromWrite::new(Vec::new(rt.alloc()));
    let (writer, answered) = write_safe(&mut reader, writer);
    assert_text(rt, writer, text);
    assert_answer(rt, answered, answer);
}

/// The rows, of which at most so many bytes come a read.
fn assert_rows(rt: &(impl Abort + AllocGlobal), each: usize) {
    for (given, text) in ROWS {
        let mut tape = Tape::new(given.as_bytes());
        tape.each = each;
        assert_safe(rt, tape, text.as_bytes(), Ok(()));
    }
}

#[test]
fn texts(rt: HostRuntime) -> Result<(), Fail> {
    assert_rows(&rt, usize::MAX);
    Ok(())
}

#[test]
fn texts_that_come_byte_by_byte(rt: HostRuntime) -> Result<(), Fail> {
    assert_rows(&rt, 1);
    Ok(())
}

#[test]
fn what_waits_is_written_where_a_read_fails(rt: HostRuntime) -> Result<(), Fail> {
    let mut tape = Tape::by_byte(b"a\rb");
    tape.fails_at = 3;
    assert_safe(&rt, tape, b"a<U+000D>", Err(Fault::Read));
    Ok(())
}

/// An output over memory.
fn output(alloc: Global) -> Output<FromWrite<Vec<u8>>> {
    Output::new(FromWrite::new(Vec::new(alloc)))
}

/// The texts of these bytes, for this performer.
fn assert_performs<P: PerformText>(rt: &impl Abort, bytes: &[u8], performer: &mut P) {
    let mut reader = FromRead::new(Tape::new(bytes));
    assert_answer(rt, perform_texts_to_end(&mut reader, performer), Ok(()));
}

/// The writer of safe text that marks no hidden text.
fn assert_safe_writer(rt: &(impl Abort + AllocGlobal)) {
    let mut writer = SafeWriter::over(output(rt.alloc()));
    assert_performs(rt, b"a", &mut writer);
}

/// The one that marks it.
fn assert_marking_writer(rt: &(impl Abort + AllocGlobal)) {
    let mut writer = MarkingWriter::over(output(rt.alloc()));
    assert_performs(rt, b"\x1B[8ma", &mut writer);
    let (writer, answer) = writer.into_output().finish();
    assert_text(rt, writer, b"<U+hidden>a<U+shown>");
    assert_answer(rt, answer, Ok(()));
}

/// What of these bytes is not hidden is this, as layout alone, as texts and as characters.
fn assert_without_hidden(rt: &(impl Abort + AllocGlobal), bytes: &[u8], text: &[u8]) {
    let mut performer = WithoutHidden::new(Stripper::over(output(rt.alloc())));
    assert_performs(rt, bytes, &mut performer);
    let _ = performer.performer();
    let (writer, answer) = performer.into_output().finish();
    assert_text(rt, writer, text);
    assert_answer(rt, answer, Ok(()));
}

#[test]
fn without_what_is_hidden(rt: HostRuntime) -> Result<(), Fail> {
    assert_without_hidden(&rt, b"a\x1B[8mb\n\tc\x1B[28md\x1B[8me\x1B[mf", b"a\n\tdf");
    assert_without_hidden(&rt, b"\x1B[30;40ma\x1B[8;28mb", b"ab");
    Ok(())
}

#[test]
fn colours_by_number(rt: HostRuntime) -> Result<(), Fail> {
    assert!(rt; named(Hue::Blue) == 0x0000EE && bright(Hue::Blue) == 0x5C5CFF);
    assert!(rt; number_of(Color::Indexed(12)) == number_of(Color::Bright(Hue::Blue)));
    assert!(rt; number_of(Color::Indexed(67)) == Some(0x5F87AF));
    assert!(rt; number_of(Color::Indexed(255)) == Some(0xEEEEEE));
    assert!(rt; number_of(Color::Direct(1, 2, 3)) == Some(0x010203));
    assert!(rt; number_of(Color::Default).is_none());
    Ok(())
}

#[test]
fn names(rt: HostRuntime) -> Result<(), Fail> {
    assert!(rt; is_shown('a') && is_shown('\t') && !is_shown('\u{202E}') && !is_shown('\r'));
    assert_safe_writer(&rt);
    assert_marking_writer(&rt);
    whole();
    marks();
    of_the_class();
    safe_utf8();
    read_back();
    safe_stays();
    safe_length();
    Ok(())
}
