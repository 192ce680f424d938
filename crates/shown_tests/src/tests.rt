//! Rows that were worked by hand. The same bytes as the programs': tests/screen_library.
use screen_text::ShownSize;
use shown_pieces::{Form, How, ShownLog, form_at, screen_at, size_at};
use std::alloc::Global;
use std::fmt::Debug;
use std::process::Abort;
use std::test::Fail;

/// Two values are the same; else both are shown. (It stands in each crate of tests: a function that may end the process
/// is let stand in tests alone, and no other crate sees those.)
fn assert_same<T: PartialEq + Debug>(rt: &impl Abort, value: &T, wanted: &T) {
    assert_eq!(rt; *value, *wanted);
}

/// A log whose first line says 4 columns and 2 rows.
const LOG: &[u8] = b"[ COLUMNS=\"4\" LINES=\"2\"]\n10%\rabcdef\xff\n<";

/// What is shown of it.
const TEXT: &[u8] = b"[ COLUMNS=\"4\" LINES=\"2\"]\nabcdef\xef\xbf\xbd\n<\n";

/// The log has taken the piece.
fn assert_fed(rt: &impl Abort, log: &mut ShownLog, piece: &[u8]) {
    let is_fed = log.feed(piece);
    assert_same(rt, &is_fed, &true);
}

/// It ends, and this is written.
fn assert_shown(rt: &impl Abort, log: &mut ShownLog, wanted: &[u8]) {
    let has_ended = log.end();
    assert_same(rt, &has_ended, &true);
    assert_same(rt, &log.text(), &wanted);
}

/// A log that goes by the size that it says.
fn begun(alloc: Global, form: Form) -> ShownLog {
    ShownLog::new(alloc, Some(ShownSize::Recorded), How::of(form))
}

#[test]
fn in_pieces(rt: HostRuntime) -> Result<(), Fail> {
    let mut log = begun(rt.alloc(), Form::Text);
    for piece in LOG.chunks(7) {
        assert_fed(&rt, &mut log, piece);
    }
    assert_same(&rt, &log.text(), &b"".as_slice());
    assert_shown(&rt, &mut log, TEXT);
    Ok(())
}

#[test]
fn safe(rt: HostRuntime) -> Result<(), Fail> {
    let mut log = begun(rt.alloc(), form_at(1, 0));
    assert_fed(&rt, &mut log, "a\u{202E}<".as_bytes());
    assert_shown(&rt, &mut log, b"a<U+202E><\n");
    Ok(())
}

#[test]
fn html(rt: HostRuntime) -> Result<(), Fail> {
    let mut log = begun(rt.alloc(), form_at(2, 3));
    assert_fed(&rt, &mut log, b"\x1b[1m<");
    assert_shown(&rt, &mut log, b"<span class=\"ansi-bold\">&lt;</span>\n");
    Ok(())
}

#[test]
fn sizes(rt: HostRuntime) -> Result<(), Fail> {
    assert_same(&rt, &size_at(0, 0), &Some(ShownSize::Recorded));
    assert_same(&rt, &size_at(80, 0), &None);
    assert_same(&rt, &size_at(1, 24), &None);
    let Some(size) = size_at(2, 1) else {
        return Ok(());
    };
    let mut log = ShownLog::new(rt.alloc(), Some(size), How::of(Form::Text));
    assert_fed(&rt, &mut log, b"abc");
    assert_shown(&rt, &mut log, b"abc\n");
    Ok(())
}

/// A log with hidden text, an address and two lines, and how it is written.
const HIDDEN: &[u8] = b"a\x1b[8mb\x1b[28mc\rhttp://a\n\x1b[1m<";

fn assert_written(rt: &impl Abort, alloc: Global, no_screen: u8, how: How, wanted: &[u8]) {
    let Some(size) = screen_at(no_screen, 80, 24) else {
        return;
    };
    let mut log = ShownLog::new(alloc, size, how);
    for piece in HIDDEN.chunks(5) {
        assert_fed(rt, &mut log, piece);
    }
    assert_shown(rt, &mut log, wanted);
}

#[test]
fn without_hidden(rt: HostRuntime) -> Result<(), Fail> {
    let mut how = How::of(Form::Text);
    assert_written(&rt, rt.alloc(), 0, how, b"http://a\n<\n");
    assert_written(&rt, rt.alloc(), 1, how, b"abc\rhttp://a\n<");
    how.no_hidden = true;
    assert_written(&rt, rt.alloc(), 1, how, b"ac\rhttp://a\n<");
    Ok(())
}

#[test]
fn in_lines(rt: HostRuntime) -> Result<(), Fail> {
    let mut how = How::of(form_at(2, 3));
    how.has_urls = true;
    let wanted =
        b"<a rel=\"nofollow noreferrer\" href=\"http://a\" class=\"ansi-link\">http://a</a>\n<span class=\"ansi-bold\">&lt;</span>\n";
    assert_written(&rt, rt.alloc(), 0, how, wanted);
    Ok(())
}
