//! What a screen says of what has changed, and no more.
use super::{after, assert_same, take};
use ansi_screen::Screen;
use std::alloc::{AllocError, AllocGlobal, Global};
use std::process::Abort;
use std::test::Fail;

/// A blank screen of 8 columns and 4 rows.
fn blank(alloc: Global) -> Result<Screen, AllocError> {
    Screen::new(alloc, 8, 4)
}

fn forget(screen: &mut Screen) {
    screen.forget();
}

/// A screen of 8 columns and 4 rows after the first bytes, which were shown, and the others.
fn changed(alloc: Global, shown: &[u8], bytes: &[u8]) -> Result<Screen, AllocError> {
    let mut screen = after(blank(alloc)?, shown);
    forget(&mut screen);
    take(&mut screen, bytes);
    Ok(screen)
}

/// The columns of a row of a screen of four rows.
fn assert_columns(rt: &impl Abort, screen: &Screen, row: usize, wanted: (usize, usize)) {
    assert!(rt; screen.rows() == 4 && row < 4);
    let (left, right) = screen.changed(row);
    let (first, past) = wanted;
    assert_same(
        rt,
        &(left < right, left, right),
        &(first < past, first, past),
    );
}

fn assert_framed(rt: &impl Abort, screen: &Screen, wanted: bool) {
    assert_same(rt, &screen.is_framed(), &wanted);
}

fn assert_rows(rt: &impl Abort, screen: &Screen, wanted: (usize, usize)) {
    assert_same(rt, &screen.changed_rows(), &wanted);
}

/// The rows, and the columns of each row.
type Changes = ((usize, usize), [(usize, usize); 4]);

/// These rows and columns, and whether the frame is among them.
fn assert_changed(rt: &impl Abort, screen: &Screen, (rows, columns): Changes, is_framed: bool) {
    assert_rows(rt, screen, rows);
    for row in 0..4 {
        assert_columns(rt, screen, row, columns[row]);
    }
    assert_framed(rt, screen, is_framed);
}

const ALL: (usize, usize) = (0, 8);

/// No column, as an empty row is told.
const NONE: (usize, usize) = (1, 1);

const ALL_ROWS: Changes = ((0, 4), [ALL, ALL, ALL, ALL]);

const NO_ROWS: Changes = ((0, 0), [NONE, NONE, NONE, NONE]);

#[test]
fn of_a_new_screen_all_has_changed(rt: HostRuntime) -> Result<(), Fail> {
    let screen = blank(rt.alloc())?;
    assert_changed(&rt, &screen, ALL_ROWS, true);
    drop(screen);
    Ok(())
}

/// What a screen says that showed the first bytes and took the others.
fn assert_says(
    rt: &(impl Abort + AllocGlobal),
    shown: &[u8],
    bytes: &[u8],
    changes: Changes,
    is_framed: bool,
) -> Result<(), AllocError> {
    let screen = changed(rt.alloc(), shown, bytes)?;
    assert_changed(rt, &screen, changes, is_framed);
    drop(screen);
    Ok(())
}

/// These rows and columns, and not the frame.
fn assert_cells(
    rt: &(impl Abort + AllocGlobal),
    shown: &[u8],
    bytes: &[u8],
    rows: (usize, usize),
    columns: [(usize, usize); 4],
) -> Result<(), AllocError> {
    assert_says(rt, shown, bytes, (rows, columns), false)
}

#[test]
fn what_is_shown_has_not(rt: HostRuntime) -> Result<(), Fail> {
    let rows: [(&[u8], &[u8]); 2] = [
        (b"a\r\nb\x1b7\x1b[S", b""),
        (b"a\r\nb", b"\x1b[3;3H\x1b[1m\t\x1b[?25l\x1b8"),
    ];
    for (shown, bytes) in rows {
        assert_says(&rt, shown, bytes, NO_ROWS, false)?;
    }
    Ok(())
}

#[test]
fn what_is_written_has(rt: HostRuntime) -> Result<(), Fail> {
    assert_cells(&rt, b"", b"\x1b[2;3Hx", (1, 2), [NONE, (1, 4), NONE, NONE])?;
    assert_cells(
        &rt,
        b"",
        b"a\x1b[4;8Hb",
        (0, 4),
        [(0, 2), NONE, NONE, (6, 8)],
    )?;
    assert_cells(&rt, b"a\r\nb", b"\r\x1b[K", (1, 2), [NONE, ALL, NONE, NONE])?;
    assert_cells(&rt, b"a\r\nb", b"\x1b[J", (1, 4), [NONE, (0, 8), ALL, ALL])?;
    Ok(())
}

#[test]
fn where_a_row_no_longer_goes_on(rt: HostRuntime) -> Result<(), Fail> {
    assert_cells(
        &rt,
        b"12345678abc",
        b"\r\x1b[K",
        (0, 2),
        [(6, 8), ALL, NONE, NONE],
    )?;
    Ok(())
}

#[test]
fn rows_that_move(rt: HostRuntime) -> Result<(), Fail> {
    assert_says(&rt, b"a", b"\x1b[4;1H\n", ALL_ROWS, false)?;
    assert_cells(
        &rt,
        b"a",
        b"\x1b[3;1H\x1b[L",
        (2, 4),
        [NONE, NONE, ALL, ALL],
    )?;
    Ok(())
}

#[test]
fn the_frame(rt: HostRuntime) -> Result<(), Fail> {
    for bytes in [
        b"\x1b7".as_slice(),
        b"\x1b[2;3r",
        b"\x1bH",
        b"\x1b[3g",
        b"\x1b[!p",
    ] {
        assert_says(&rt, b"a", bytes, NO_ROWS, true)?;
    }
    for bytes in [b"\x1b[?1049h".as_slice(), b"\x1bc"] {
        assert_says(&rt, b"a", bytes, ALL_ROWS, true)?;
    }
    Ok(())
}
