//! Drawings, updates, copies and screens that show the same.
use super::{assert_counts, assert_same, assert_text, fed, feed};
use screen_pieces::Terminal;
use std::alloc::{AllocError, AllocGlobal, Global};
use std::process::Abort;
use std::test::Fail;

/// A screen of four columns and two rows, which keeps two of the rows that leave it, after this stream.
fn shown(alloc: Global, stream: &[u8]) -> Result<Terminal, AllocError> {
    Ok(fed(Terminal::with_history(alloc, 4, 2, 2, true)?, stream))
}

/// Two such screens after these streams.
fn both(alloc: Global, first: &[u8], second: &[u8]) -> Result<(Terminal, Terminal), AllocError> {
    Ok((shown(alloc, first)?, shown(alloc, second)?))
}

/// Feeds what was written to the room, where it was.
fn feed_written(terminal: &mut Terminal, room: &[u8], written: Result<usize, usize>) -> bool {
    match written {
        Ok(count) if count <= room.len() => {
            feed(terminal, &room[..count]);
            true
        }
        _ => false,
    }
}

fn assert_fed(
    rt: &impl Abort,
    terminal: &mut Terminal,
    room: &[u8],
    written: Result<usize, usize>,
) {
    assert_same(rt, &feed_written(terminal, room, written), &true);
}

fn assert_shows_same(rt: &impl Abort, one: &Terminal, other: &Terminal, wanted: bool) {
    assert_same(rt, &one.shows_same(other), &wanted);
}

/// What another screen shows of a drawing, in 400 bytes of room.
fn draw_to(rt: &(impl Abort + AllocGlobal), terminal: &Terminal, other: &mut Terminal) {
    let mut room = [0; 400];
    let written = terminal.draw(rt.alloc(), &mut room);
    assert_fed(rt, other, &room, written);
}

/// A drawing makes a screen that showed another show the same.
fn assert_drawn(rt: &(impl Abort + AllocGlobal), terminal: Terminal, mut other: Terminal) {
    draw_to(rt, &terminal, &mut other);
    assert_shows_same(rt, &other, &terminal, true);
    assert_shows_same(rt, &terminal, &other, true);
    drop(other);
    drop(terminal);
}

// Whatever another screen showed, and has begun, a drawing makes it show the same.
#[test]
fn a_drawing(rt: HostRuntime) -> Result<(), Fail> {
    let before = b"was\r\nhere\x1b]0;begun".as_slice();
    let (terminal, other) = both(rt.alloc(), b"a\x1b[1mb\r\n\x1b[?25lc", before)?;
    assert_drawn(&rt, terminal, other);
    Ok(())
}

/// What leads from one screen to another, in 400 bytes of room.
fn assert_update(
    rt: &(impl Abort + AllocGlobal),
    terminal: &Terminal,
    other: &Terminal,
    wanted: Result<usize, usize>,
) {
    let mut room = [0; 400];
    assert_same(rt, &terminal.update(rt.alloc(), other, &mut room), &wanted);
}

/// Feeds a screen what leads to another.
fn update_to(rt: &(impl Abort + AllocGlobal), terminal: &mut Terminal, other: &Terminal) {
    let mut room = [0; 400];
    let written = terminal.update(rt.alloc(), other, &mut room);
    assert_fed(rt, terminal, &room, written);
}

/// Nothing leads from a screen to one that shows the same; an update leads that one to what is then written, and none
/// leads to the wide one.
fn assert_updated(
    rt: &(impl Abort + AllocGlobal),
    mut terminal: Terminal,
    mut other: Terminal,
    wide: Terminal,
) {
    assert_update(rt, &terminal, &other, Ok(0));
    feed(&mut terminal, b"\x1b[31mc");
    assert_shows_same(rt, &terminal, &other, false);
    update_to(rt, &mut other, &terminal);
    assert_shows_same(rt, &terminal, &other, true);
    assert_update(rt, &terminal, &wide, Err(0));
    drop(wide);
    drop(other);
    drop(terminal);
}

/// Two screens after `ab`, and a blank one of five columns.
fn with_wide(alloc: Global) -> Result<(Terminal, Terminal, Terminal), AllocError> {
    let (terminal, other) = both(alloc, b"ab", b"ab")?;
    Ok((terminal, other, Terminal::new(alloc, 5, 2)?))
}

// Nothing leads to what shows already, and there is no update to a screen of another size.
#[test]
fn updates(rt: HostRuntime) -> Result<(), Fail> {
    let (terminal, other, wide) = with_wide(rt.alloc())?;
    assert_updated(&rt, terminal, other, wide);
    Ok(())
}

/// The kind of the colour in which a screen writes.
fn assert_kind(rt: &impl Abort, terminal: &Terminal, kind: u8) {
    assert_same(rt, &terminal.style().bytes.foreground.kind, &kind);
}

/// A copy of a screen that stands within a sequence, and what each shows of the rest.
fn assert_copied(rt: &impl Abort, mut terminal: Terminal, mut copy: Terminal) {
    assert_shows_same(rt, &copy, &terminal, true);
    assert_counts(rt, &copy, (2, 2));
    feed(&mut copy, b"1mx\r\n");
    feed(&mut terminal, b"1mx");
    assert_text(rt, &copy, (Ok(3), *b"dx\n\0\0\0\0\0"));
    assert_counts(rt, &copy, (2, 3));
    assert_counts(rt, &terminal, (2, 2));
    assert_shows_same(rt, &copy, &terminal, false);
    assert_kind(rt, &copy, 1);
    drop(copy);
    drop(terminal);
}

/// A screen after a stream, and its copy.
fn copied(alloc: Global, stream: &[u8]) -> Result<(Terminal, Terminal), AllocError> {
    let terminal = shown(alloc, stream)?;
    let copy = terminal.copy(alloc)?;
    Ok((terminal, copy))
}

// A copy stands within the sequence too, and each goes on by itself.
#[test]
fn copies(rt: HostRuntime) -> Result<(), Fail> {
    let (terminal, copy) = copied(rt.alloc(), b"a\r\nb\r\nc\r\nd\x1b[3")?;
    assert_copied(&rt, terminal, copy);
    Ok(())
}
