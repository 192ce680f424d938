//! What the text of a screen does not say: cells with their styles, the cursor. Rows of text stand in
//! tests/screen_twin.
use super::{assert_cursor, assert_same, assert_size, place};
use ansi_screen::laws::{
    clones, contents, determined, enclosed, equality, plain_text, reachable, reset, rewritten,
    rows_leave, show, unread,
};
use ansi_screen::{
    Cell, Charsets, MAX_COLUMNS, MAX_ROWS, MIN_COLUMNS, MIN_ROWS, Marks, Part, Place, Screen,
};
use ansi_style::{Color, Hue, Style};
use anstyle_parse::{Parser, Utf8Parser};
use std::alloc::{AllocError, Global};
use std::process::Abort;
use std::test::Fail;

/// A screen of 8 columns and 4 rows after the bytes, as the README of `ansi_screen` shows it.
fn shown(alloc: Global, bytes: &[u8]) -> Result<Screen, AllocError> {
    let mut screen = Screen::new(alloc, 8, 4)?;
    let mut parser = Parser::<Utf8Parser>::new();
    parser.advance_all(&mut screen, bytes);
    Ok(screen)
}

fn assert_cursor_visible(rt: &impl Abort, screen: &Screen) {
    assert!(rt; screen.is_cursor_visible());
}

fn small(alloc: Global) -> Result<Screen, AllocError> {
    Screen::new(alloc, 2, 1)
}

fn large(alloc: Global) -> Result<Screen, AllocError> {
    Screen::new(alloc, 1000, 2)
}

fn assert_small(rt: &impl Abort, screen: Screen) {
    assert_size(rt, &screen, (2, 1));
    assert_cursor(rt, &screen, place(0, 0));
    assert_cursor_visible(rt, &screen);
    drop(screen);
}

/// A screen of a thousand columns.
fn assert_large(rt: &impl Abort, screen: Screen) {
    assert_size(rt, &screen, (1000, 2));
    drop(screen);
}

#[test]
fn a_new_screen(rt: HostRuntime) -> Result<(), Fail> {
    assert_large(&rt, large(rt.alloc())?);
    assert_small(&rt, small(rt.alloc())?);
    Ok(())
}

/// One column of one character, with no marks.
fn cell(character: char, style: Style, part: Part) -> Cell {
    Cell {
        character,
        marks: Marks::Unmarked,
        style,
        part,
        link: 0,
        goes_on: false,
    }
}

/// A row has this cell in a column.
fn assert_cell(rt: &impl Abort, row: &[Cell], column: usize, wanted: Cell) {
    assert_same(rt, &row.get(column), &Some(&wanted));
}

/// The first row of a screen has this cell in a column.
fn assert_first_row(rt: &impl Abort, screen: &Screen, column: usize, wanted: Cell) {
    assert!(rt; screen.rows() > 0);
    assert_cell(rt, screen.row(0), column, wanted);
}

/// What is erased: the background alone.
fn erased() -> Style {
    Style {
        background: Color::Named(Hue::Blue),
        ..Style::default()
    }
}

fn selected() -> Style {
    Style {
        foreground: Color::Named(Hue::Red),
        bold: true,
        ..erased()
    }
}

/// Two cells with their styles, and one that is erased.
fn assert_styles(rt: &impl Abort, screen: Screen) {
    assert_size(rt, &screen, (8, 4));
    assert_first_row(rt, &screen, 0, cell('a', selected(), Part::Whole));
    assert_first_row(rt, &screen, 1, cell('b', Style::default(), Part::Whole));
    assert_first_row(rt, &screen, 7, cell(' ', erased(), Part::Empty));
    drop(screen);
}

#[test]
fn styles(rt: HostRuntime) -> Result<(), Fail> {
    assert_styles(&rt, shown(rt.alloc(), b"\x1b[1;31;44ma\x1b[K\x1b[0mb")?);
    Ok(())
}

// The names of the laws.
#[test]
fn laws(_rt: HostRuntime) {
    determined();
    reachable();
    contents();
    enclosed();
    plain_text();
    rewritten();
    rows_leave();
    reset();
    unread();
    equality();
    clones();
}

fn least(alloc: Global) -> Result<Screen, AllocError> {
    Screen::new(alloc, MIN_COLUMNS, MIN_ROWS)
}

/// The stream on the least screen.
fn show_least(screen: &mut Screen) {
    show(screen, &[b"a", b"\x1b[1m\x1b(0x", "\u{301}".as_bytes()]);
}

fn bold() -> Style {
    Style {
        bold: true,
        ..Style::default()
    }
}

/// The second cell after it: a line that is drawn, with a mark.
fn marked() -> Cell {
    Cell {
        character: '│',
        marks: Marks::One('\u{301}'),
        style: bold(),
        part: Part::Whole,
        link: 0,
        goes_on: false,
    }
}

/// The cursor after it.
fn after_both() -> Place {
    Place {
        row: 0,
        column: 2,
        style: bold(),
        is_relative: false,
        charsets: Charsets {
            g0_draws: true,
            g1_draws: false,
            uses_g1: false,
        },
    }
}

/// What the stream leads to.
fn assert_least(rt: &impl Abort, mut screen: Screen) {
    show_least(&mut screen);
    assert_size(rt, &screen, (2, 1));
    assert_first_row(rt, &screen, 1, marked());
    assert_cursor(rt, &screen, after_both());
    assert_eq!(rt; (MAX_COLUMNS, MAX_ROWS), (1000, 1000));
    drop(screen);
}

// The names of the screen, and its least and greatest sizes.
#[test]
fn a_screen_shows_a_stream(rt: HostRuntime) -> Result<(), Fail> {
    assert_least(&rt, least(rt.alloc())?);
    Ok(())
}
