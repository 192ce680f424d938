//! A screen that takes its stream in pieces.
use super::{Put, assert_same, assert_text, feed, reset};
use screen_pieces::{
    CellBytes, ColorBytes, ModeBytes, RESERVED_MODES, StyleBytes, StyleRecord, Terminal,
};
use std::alloc::{AllocError, Global};
use std::process::Abort;
use std::test::Fail;

/// A screen of four columns and three rows after these pieces, as the README of `screen_pieces` shows it.
fn shown(alloc: Global, first: &[u8], second: &[u8]) -> Result<Terminal, AllocError> {
    let mut terminal = Terminal::new(alloc, 4, 3)?;
    terminal.feed(first);
    terminal.feed(second);
    Ok(terminal)
}

/// The character, the part and the kind of the colour of a cell; 9 for none outside.
fn cell(terminal: &Terminal, row: usize, column: usize) -> (u32, u8, u8) {
    match terminal.cell(row, column) {
        Some(
            CellBytes {
                character,
                part,
                style: StyleRecord {
                    bytes: StyleBytes { foreground, .. },
                    ..
                },
                ..
            },
        ) => {
            let ColorBytes { kind, .. } = foreground;
            (character, part, kind)
        }
        None => (0, 9, 0),
    }
}

/// How much room the text of a screen takes, which has seven bytes.
fn text_in_seven(terminal: &Terminal) -> Result<usize, usize> {
    let mut room = [0; 7];
    terminal.text(&mut room)
}

/// The text of a row, in two bytes of room.
fn row_text(terminal: &Terminal, row: usize) -> Put<2> {
    let mut room = [0; 2];
    let answer = terminal.row_text(row, &mut room);
    (answer, room)
}

/// The text of a part of the second row, in five bytes of room.
fn part_text(terminal: &Terminal, start: usize, end: usize) -> Put<5> {
    let mut room = [0; 5];
    let answer = terminal.part_text(1, start, end, &mut room);
    (answer, room)
}

fn assert_text_in_seven(rt: &impl Abort, terminal: &Terminal, wanted: Result<usize, usize>) {
    assert_same(rt, &text_in_seven(terminal), &wanted);
}

fn assert_row_text(rt: &impl Abort, terminal: &Terminal, row: usize, wanted: Put<2>) {
    assert_same(rt, &row_text(terminal, row), &wanted);
}

fn assert_part_text(rt: &impl Abort, terminal: &Terminal, part: (usize, usize), wanted: Put<5>) {
    assert_same(rt, &part_text(terminal, part.0, part.1), &wanted);
}

fn assert_cell(rt: &impl Abort, terminal: &Terminal, place: (usize, usize), wanted: (u32, u8, u8)) {
    assert_same(rt, &cell(terminal, place.0, place.1), &wanted);
}

fn assert_changed(
    rt: &impl Abort,
    terminal: &Terminal,
    row: usize,
    wanted: Option<(usize, usize)>,
) {
    assert_same(rt, &terminal.changed(row), &wanted);
}

/// The text of a screen, and how much room it takes.
fn assert_pieces(rt: &impl Abort, terminal: Terminal) {
    assert_text(rt, &terminal, (Ok(8), *b"hi\n\xE4\xB8\xADx\n"));
    assert_text_in_seven(rt, &terminal, Err(8));
    drop(terminal);
}

// A sequence and a character are cut.
#[test]
fn pieces(rt: HostRuntime) -> Result<(), Fail> {
    assert_pieces(&rt, shown(rt.alloc(), b"\x1b[3", b"1mhi\r\n\xE4\xB8\xADx")?);
    Ok(())
}

/// The text of rows and of parts of one, inside and outside.
fn assert_rows(rt: &impl Abort, terminal: Terminal) {
    assert_row_text(rt, &terminal, 0, (Ok(2), *b"hi"));
    assert_row_text(rt, &terminal, 3, (Err(0), [0, 0]));
    assert_part_text(rt, &terminal, (0, 4), (Ok(5), *b"\xE4\xB8\xADx "));
    assert_part_text(rt, &terminal, (3, 5), (Err(0), [0; 5]));
    drop(terminal);
}

#[test]
fn rows(rt: HostRuntime) -> Result<(), Fail> {
    assert_rows(&rt, shown(rt.alloc(), b"hi\r\n\xE4", b"\xB8\xADx")?);
    Ok(())
}

/// A screen of four columns and three rows whose cursor stands after three columns, in this colour.
fn assert_sized(rt: &impl Abort, terminal: &Terminal, colour: [u8; 3]) {
    assert_same(rt, &terminal.size(), &(4, 3));
    assert_same(rt, &terminal.cursor(), &(0, 3));
    assert_same(rt, &terminal.style().bytes.foreground.values, &colour);
}

/// The cells of a row, and outside; the size, the cursor and the style.
fn assert_cells(rt: &impl Abort, terminal: Terminal) {
    assert_cell(rt, &terminal, (0, 0), (0x68, 1, 2));
    assert_cell(rt, &terminal, (0, 1), (0x4E2D, 2, 2));
    assert_cell(rt, &terminal, (0, 2), (0x20, 3, 2));
    assert_cell(rt, &terminal, (0, 3), (0x20, 0, 0));
    assert_cell(rt, &terminal, (0, 4), (0, 9, 0));
    assert_cell(rt, &terminal, (3, 0), (0, 9, 0));
    assert_sized(rt, &terminal, [4, 0, 0]);
    drop(terminal);
}

#[test]
fn cells(rt: HostRuntime) -> Result<(), Fail> {
    assert_cells(&rt, shown(rt.alloc(), b"\x1b[94", b"mh\xE4\xB8\xAD")?);
    Ok(())
}

fn forget(terminal: &mut Terminal) {
    terminal.forget();
}

/// What has changed, before and after it is forgotten.
fn assert_changes(rt: &impl Abort, mut terminal: Terminal) {
    assert_changed(rt, &terminal, 2, Some((0, 4)));
    forget(&mut terminal);
    feed(&mut terminal, b"\x1b[2;1Hx");
    assert_changed(rt, &terminal, 1, Some((0, 2)));
    assert_changed(rt, &terminal, 3, None);
    assert_text(rt, &terminal, (Ok(5), *b"ab\nx\n\0\0\0"));
    drop(terminal);
}

// Of a new screen all can have changed; then what is written, and a column on each side.
#[test]
fn changes(rt: HostRuntime) -> Result<(), Fail> {
    assert_changes(&rt, shown(rt.alloc(), b"a", b"b")?);
    Ok(())
}

/// Whether a screen shows its cursor, and whether it inserts; no other mode is set.
fn assert_modes(rt: &impl Abort, terminal: &Terminal, wanted: (u8, u8)) {
    let ModeBytes {
        is_cursor_shown,
        inserts,
        reserved,
        ..
    } = terminal.modes();
    assert_same(rt, &(is_cursor_shown, inserts), &wanted);
    assert_same(rt, &reserved, &[0; RESERVED_MODES]);
}

/// What is shown before and after a reset.
fn assert_resets(rt: &impl Abort, mut terminal: Terminal) {
    assert_modes(rt, &terminal, (0, 1));
    reset(&mut terminal);
    feed(&mut terminal, b"1m");
    assert_cell(rt, &terminal, (0, 0), (0x31, 1, 0));
    assert_cell(rt, &terminal, (0, 2), (0x20, 0, 0));
    assert_modes(rt, &terminal, (1, 0));
    drop(terminal);
}

// What was begun before a reset is forgotten.
#[test]
fn resets(rt: HostRuntime) -> Result<(), Fail> {
    assert_resets(&rt, shown(rt.alloc(), b"\x1b[?25l\x1b[4hold", b"\x1b[3")?);
    Ok(())
}
