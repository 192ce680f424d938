//! What a screen shows and what left it as HTML and as lines, and where its links lead to.
use super::{Put, Ran, assert_same, assert_written, fed, memory};
use ansi_html::{Scheme, Styling};
use ansi_screen::TakeRow;
use screen_html::laws::page;
use screen_html::{LinkTable, PageRows};
use screen_pieces::Terminal;
use screen_pieces::laws::lines_are_fragments;
use std::alloc::{AllocError, AllocGlobal, Global};
use std::process::Abort;
use std::test::Fail;

/// A screen of eight columns and two rows with a link, and text in bold.
fn shown(alloc: Global) -> Result<Terminal, AllocError> {
    let text = b"a\x1b]8;;https://b\x1b\\<\x1b]8;;\x1b\\\x1b[1mc";
    Ok(fed(Terminal::new(alloc, 8, 2)?, text))
}

/// What it shows by classes, in 106 bytes of room, which just suffice.
fn by_classes(terminal: &Terminal, alloc: Global) -> Put<106> {
    let mut room = [0; 106];
    let answer = terminal.html(alloc, 3, &mut room);
    (answer, room)
}

/// The same screen, which the row has left: below it stands another one.
fn scrolled(alloc: Global) -> Result<Terminal, AllocError> {
    Ok(fed(Terminal::with_history(alloc, 8, 2, 1, true)?, LEFT))
}

const LEFT: &[u8] = b"a\x1b]8;;https://b\x1b\\<\x1b]8;;\x1b\\\x1b[1mc\x1b[m\r\n\r\nd";

/// What left it by classes, in as much room.
fn left_by_classes(terminal: &Terminal, alloc: Global) -> Put<106> {
    let mut room = [0; 106];
    let answer = terminal.lines_html(alloc, 1, 3, &mut room);
    (answer, room)
}

/// Its lines, in seven bytes of room: those that left, or all.
fn assert_lines(rt: &impl Abort, terminal: &Terminal, which: u8, wanted: Put<7>) {
    let mut room = [0; 7];
    let answer = terminal.lines(which, &mut room);
    assert_same(rt, &(answer, room), &wanted);
}

/// The URI of a link, in nine bytes of room.
fn uri(terminal: &Terminal, number: u32) -> Put<9> {
    let mut room = [0; 9];
    let answer = terminal.link_uri(number, &mut room);
    (answer, room)
}

fn assert_uri(rt: &impl Abort, terminal: &Terminal, number: u32, wanted: Put<9>) {
    assert_same(rt, &uri(terminal, number), &wanted);
}

/// The URI of the first link has nine bytes, for which eight are no room.
fn assert_no_room(rt: &impl Abort, terminal: &Terminal) {
    assert_same(rt, &terminal.link_uri(1, &mut [0; 8]), &Err(9));
}

/// The row that left, without its links, on a light page.
fn without_links(terminal: &Terminal, links: &LinkTable, alloc: Global) -> Ran {
    let mut rows = PageRows::new(Styling::Inline(Scheme::Light), links, memory(alloc));
    if let Some((cells, written)) = terminal.history().row(0) {
        rows.take_row(cells, written);
    }
    let (writer, answer) = rows.into_output().finish();
    (writer.into_inner(), answer)
}

const BY_CLASSES: [u8; 106] =
    *b"a<a rel=\"nofollow noreferrer\" href=\"https://b\" class=\"ansi-link\">&lt;</a>\
    <span class=\"ansi-bold\">c</span>\n";

const WITHOUT_LINKS: &[u8] = b"a&lt;<span style=\"font-weight:bold;\">c</span>\n";

fn assert_by_classes(rt: &impl Abort, written: Put<106>, wanted: [u8; 106]) {
    assert_same(rt, &written, &(Ok(106), wanted));
}

/// What a screen shows by classes.
fn assert_html(rt: &(impl Abort + AllocGlobal), terminal: Terminal) {
    assert_by_classes(rt, by_classes(&terminal, rt.alloc()), BY_CLASSES);
    drop(terminal);
}

/// What left it by classes, and without links; and lines.
fn assert_left(rt: &(impl Abort + AllocGlobal), terminal: Terminal, links: LinkTable) {
    assert_by_classes(rt, left_by_classes(&terminal, rt.alloc()), BY_CLASSES);
    assert_written(
        rt,
        without_links(&terminal, &links, rt.alloc()),
        WITHOUT_LINKS,
    );
    assert_lines(rt, &terminal, 1, (Ok(4), *b"a<c\n\0\0\0"));
    assert_lines(rt, &terminal, 2, (Ok(7), *b"a<c\n\nd\n"));
    drop(links);
    drop(terminal);
}

/// The screen that a row has left, and a table without links.
fn with_no_links(alloc: Global) -> Result<(Terminal, LinkTable), AllocError> {
    Ok((scrolled(alloc)?, LinkTable::new(alloc)?))
}

#[test]
fn html(rt: HostRuntime) -> Result<(), Fail> {
    let terminal = shown(rt.alloc())?;
    assert_html(&rt, terminal);
    Ok(())
}

#[test]
fn lines(rt: HostRuntime) -> Result<(), Fail> {
    let (terminal, links) = with_no_links(rt.alloc())?;
    assert_left(&rt, terminal, links);
    Ok(())
}

/// Where the links of a screen lead to: of the first there is a link, in a copy too, and of the second none.
fn assert_links(rt: &impl Abort, terminal: Terminal, copy: Terminal) {
    assert_uri(rt, &terminal, 1, (Ok(9), *b"https://b"));
    assert_uri(rt, &terminal, 2, (Ok(0), [0; 9]));
    assert_no_room(rt, &terminal);
    assert_uri(rt, &copy, 1, (Ok(9), *b"https://b"));
    drop(copy);
    drop(terminal);
}

/// The screen, and a copy of it.
fn copied(alloc: Global) -> Result<(Terminal, Terminal), AllocError> {
    let terminal = shown(alloc)?;
    let copy = terminal.copy(alloc)?;
    Ok((terminal, copy))
}

#[test]
fn links(rt: HostRuntime) -> Result<(), Fail> {
    let (terminal, copy) = copied(rt.alloc())?;
    assert_links(&rt, terminal, copy);
    Ok(())
}

// The names of the laws.
#[test]
fn laws(_rt: HostRuntime) {
    page();
    lines_are_fragments();
}
