//! Rows that were worked by hand; tests/programs has more, by `ansi2html`.
use ansi_html::{BlocksWriter, HtmlWriter, LinesWriter, Link, Styling};
use ansi_screen::Scrollable;
use ansi_strip::{Inert, Stripper};
use anstyle_parse::Perform;
use anstyle_parse::io::{
    CallWriter, Fault, FromRead, FromWrite, Output, WritingPerformer, write_calls_by,
};
use html_urls::{Linking, Resumable, begin_link};
use safe_text::MarkingWriter;
use screen_calls::laws::{
    html_of_shown, length_of_shown, read_of_shown, same_styles, same_text, stream,
};
use screen_calls::{CallRows, ShowingFirst};
use screen_html::{LinkTable, begin_link as pay_for_link, end_line};
use screen_text::{ShownSize, ShownWriter};
use std::alloc::{AllocError, Global};
use std::process::Abort;
use std::test::Fail;
use without_hidden::WithoutHidden;

/// What is written into.
type Memory = FromWrite<Vec<u8>>;

/// What a run wrote, and what it answered.
type Ran = (Vec<u8>, Result<(), Fault>);

/// A run that went well wrote this.
fn assert_written(rt: &impl Abort, ran: Ran, wanted: &[u8]) {
    let (text, answer) = ran;
    assert_eq!(rt; (text.as_slice(), answer), (wanted, Ok(())));
}

/// An output into memory.
fn memory(alloc: Global) -> Output<Memory> {
    Output::new(FromWrite::new(Vec::new(alloc)))
}

/// What a performer writes of what a screen of three columns and one row shows of a stream, and then a dot.
fn written<P: Resumable<Memory> + Drop>(
    alloc: Global,
    performer: P,
    stream: &[u8],
) -> Result<Ran, AllocError> {
    let rows = CallRows::new(LinkTable::new(alloc)?, performer);
    let shown = ShownWriter::new(Scrollable::new(alloc, 3, 1)?, rows);
    let mut reader = FromRead::new(stream);
    let (writer, answer) = write_calls_by(shown, &mut reader, b".");
    Ok((writer.into_inner(), answer))
}

// An address over rows, and a line that was written over.
#[test]
fn in_lines(rt: HostRuntime) -> Result<(), Fail> {
    let performer = Linking::new(LinesWriter::new(Styling::Classes, memory(rt.alloc())));
    let ran = written(rt.alloc(), performer, b"http://a.\nx\ry\n")?;
    let wanted = "<span id=\"L1\"><a href=\"#L1\" data-line=\"1\"></a>\
        <a rel=\"nofollow noreferrer\" href=\"http://a\" class=\"ansi-link\">http://a</a>.\n</span>\
        <span id=\"L2\"><a href=\"#L2\" data-line=\"2\"></a>y\n</span>.";
    assert_written(&rt, ran, wanted.as_bytes());
    Ok(())
}

// A wide character with a mark, and a line that is open at the end.
#[test]
fn in_blocks(rt: HostRuntime) -> Result<(), Fail> {
    let performer = BlocksWriter::new(Styling::Classes, false, memory(rt.alloc()));
    let stream = "\x1b[3ma\u{6F22}\u{301}\x1b[mb".as_bytes();
    let ran = written(rt.alloc(), performer, stream)?;
    let wanted =
        "<span data-lines=\"500\"><span class=\"ansi-italic\">a\u{6F22}\u{301}</span>b\n</span>.";
    assert_written(&rt, ran, wanted.as_bytes());
    Ok(())
}

#[test]
fn hidden_text(rt: HostRuntime) -> Result<(), Fail> {
    let performer = WithoutHidden::new(HtmlWriter::new(Styling::Classes, memory(rt.alloc())));
    let ran = written(rt.alloc(), performer, b"a\x1b[8mb\x1b[mc\n")?;
    assert_written(&rt, ran, b"ac\n.");
    Ok(())
}

#[test]
fn hidden_text_of_text(rt: HostRuntime) -> Result<(), Fail> {
    let performer = WithoutHidden::new(Inert::<Stripper<Memory>>::over(memory(rt.alloc())));
    let ran = written(rt.alloc(), performer, b"a\x1b[8mb\x1b[mc\n")?;
    assert_written(&rt, ran, b"ac\n.");
    Ok(())
}

#[test]
fn hidden_text_of_safe_text(rt: HostRuntime) -> Result<(), Fail> {
    let performer = WithoutHidden::new(MarkingWriter::over(memory(rt.alloc())));
    let ran = written(rt.alloc(), performer, b"\x1b[8ma\x1b[28;30;40mb\x1b[m<\n")?;
    assert_written(&rt, ran, b"<U+hidden>b<U+shown><\n.");
    Ok(())
}

/// What is written of an x in a link.
fn linked(alloc: Global, link: &[u8]) -> Ran {
    let mut performer = HtmlWriter::new(Styling::Classes, memory(alloc));
    begin_link(&mut performer, link);
    performer.print('x');
    let (writer, answer) = performer.into_output().finish();
    (writer.into_inner(), answer)
}

// A command has room for twelve separators in a link.
#[test]
fn commands(rt: HostRuntime) {
    let wanted =
        b"<a rel=\"nofollow noreferrer\" href=\"http://a;;;;;;;;;;;;\" class=\"ansi-link\">x</a>";
    assert_written(&rt, linked(rt.alloc(), b"http://a;;;;;;;;;;;;"), wanted);
    assert_written(&rt, linked(rt.alloc(), b"http://a;;;;;;;;;;;;;"), b"x");
}

// No link is kept, and a line feed earns 100 bytes.
#[test]
fn payment(rt: HostRuntime) -> Result<(), Fail> {
    let links = LinkTable::new(rt.alloc())?;
    let (mut last, mut spare) = (Link::none(), 7);
    pay_for_link(&links, 1, &mut last, &mut spare);
    end_line(&links, &mut last, &mut spare);
    assert_eq!(rt; (last.uri(), spare), (b"".as_slice(), 107));
    Ok(())
}

// The names of the laws, and of what tests/programs tries.
#[test]
fn names(rt: HostRuntime) {
    same_text();
    same_styles();
    stream();
    html_of_shown();
    read_of_shown();
    length_of_shown();
    without_hidden::laws::stream();
    without_hidden::laws::twice();
    let _first = ShowingFirst::new(rt.alloc(), ShownSize::Recorded, ());
}
