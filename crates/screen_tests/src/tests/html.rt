//! What a screen showed, as HTML. Streams stand in tests/screen_twin.
use super::{Memory, Ran, assert_written, memory};
use ansi_html::{Scheme, Styling};
use ansi_screen::Scrollable;
use anstyle_parse::io::{Fault, FromRead, FromWrite, write_calls_by};
use screen_html::laws::{blocks, last_links, paid_links, plain_text};
use screen_html::{BlockRows, HtmlRows, LinkMemory, convert_shown};
use screen_text::{ShownWriter, WriteRows};
use std::alloc::{AllocError, Global};
use std::test::Fail;

/// A log in memory, as the page of the crate `screen_html` shows it.
fn shown(alloc: Global, log: &[u8]) -> Result<(Vec<u8>, Result<(), Fault>), AllocError> {
    let mut log = FromRead::new(log);
    let writer = FromWrite::new(Vec::new(alloc));
    let screen = Scrollable::new(alloc, 80, 24)?;
    let links = LinkMemory::new(alloc)?;
    let styling = Styling::Inline(Scheme::Both);
    let (page, ran) = convert_shown(
        screen, links, styling, b"<pre>", &mut log, writer, b"</pre>",
    );
    Ok((page.into_inner(), ran))
}

#[test]
fn a_page(rt: HostRuntime) -> Result<(), Fail> {
    let wanted = b"<pre><span style=\"font-weight:bold;\">done</span>\n</pre>";
    assert_written(&rt, shown(rt.alloc(), b"10%\r\x1b[1mdone\n")?, wanted);
    Ok(())
}

/// A blank screen of three columns and one row, and no links.
fn small(alloc: Global) -> Result<(Scrollable, LinkMemory), AllocError> {
    Ok((Scrollable::new(alloc, 3, 1)?, LinkMemory::new(alloc)?))
}

/// What the rows are that a screen shows of a stream, and then a dot.
fn written<R: WriteRows<Memory> + Drop>(screen: Scrollable, rows: R, stream: &[u8]) -> Ran {
    let mut reader = FromRead::new(stream);
    let (writer, answer) = write_calls_by(ShownWriter::new(screen, rows), &mut reader, b".");
    (writer.into_inner(), answer)
}

/// A stream on the small screen, by classes.
fn written_by_classes(alloc: Global, stream: &[u8]) -> Result<Ran, AllocError> {
    let (screen, links) = small(alloc)?;
    let rows = HtmlRows::new(Styling::Classes, links, memory(alloc));
    Ok(written(screen, rows, stream))
}

/// The same in blocks.
fn written_in_blocks(alloc: Global, stream: &[u8]) -> Result<Ran, AllocError> {
    let (screen, links) = small(alloc)?;
    let rows = BlockRows::new(Styling::Classes, links, memory(alloc));
    Ok(written(screen, rows, stream))
}

// A wide character that wraps, and a mark; no line feed between rows of a line.
#[test]
fn by_classes(rt: HostRuntime) -> Result<(), Fail> {
    let stream = "\x1b[3ma<\u{301}\u{6F22}\x1b[m!".as_bytes();
    let wanted = "<span class=\"ansi-italic\">a&lt;\u{301}\u{6F22}</span>!\n.";
    assert_written(
        &rt,
        written_by_classes(rt.alloc(), stream)?,
        wanted.as_bytes(),
    );
    Ok(())
}

// A line that wraps and is open at the end: the block ends after its line feed.
#[test]
fn in_blocks(rt: HostRuntime) -> Result<(), Fail> {
    let stream = b"a\n\x1b[3mbcdef".as_slice();
    let wanted = b"<span data-lines=\"500\">a\n<span class=\"ansi-italic\">bcdef</span>\n</span>.";
    assert_written(&rt, written_in_blocks(rt.alloc(), stream)?, wanted);
    Ok(())
}

// The names of the laws.
#[test]
fn laws(_rt: HostRuntime) {
    blocks();
    last_links();
    paid_links();
    plain_text();
}
