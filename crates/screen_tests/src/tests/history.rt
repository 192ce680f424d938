//! Rows that left a screen.
use super::{Put, assert_counts, assert_same, fed, feed, reset};
use ansi_screen::{Cell, History, Screen};
use anstyle_parse::Perform;
use screen_pieces::laws::{changes_are_told, copies_stand, rows_are_whole};
use screen_pieces::{CellBytes, RESERVED_CELL, RESERVED_STYLE, Terminal};
use std::alloc::{AllocError, AllocGlobal, Global};
use std::process::Abort;
use std::test::Fail;

/// A screen of four columns and two rows, which keeps three of the rows that leave it, after this stream.
fn shown(alloc: Global, stream: &[u8]) -> Result<Terminal, AllocError> {
    Ok(fed(Terminal::with_history(alloc, 4, 2, 3, true)?, stream))
}

/// The text of a row that is kept, in four bytes of room.
fn kept(terminal: &Terminal, number: usize) -> Put<4> {
    let mut room = [0; 4];
    let answer = terminal.history_text(number, &mut room);
    (answer, room)
}

/// The cells of a row that a screen keeps.
fn cells(screen: &Screen, number: usize) -> Option<&[Cell]> {
    let (cells, _) = screen.history()?.row(number)?;
    Some(cells)
}

/// The character of a row's first cell that is kept, and how many cells it has.
fn first(screen: &Screen, number: usize) -> (char, usize) {
    match cells(screen, number) {
        Some([cell, rest @ ..]) => (cell.character, rest.len() + 1),
        _ => (' ', 0),
    }
}

fn assert_first(rt: &impl Abort, screen: &Screen, number: usize, wanted: (char, usize)) {
    assert_same(rt, &first(screen, number), &wanted);
}

fn assert_kept(rt: &impl Abort, terminal: &Terminal, number: usize, wanted: Put<4>) {
    assert_same(rt, &kept(terminal, number), &wanted);
}

/// How many rows are kept, and how many have left.
fn counted(screen: &Screen) -> (usize, usize) {
    let kept: Option<&History> = screen.history();
    match kept {
        Some(history) => history.counts(),
        None => (0, 0),
    }
}

fn assert_counted(rt: &impl Abort, screen: &Screen, wanted: (usize, usize)) {
    assert_same(rt, &counted(screen), &wanted);
}

/// One row is kept, of four cells.
fn assert_one_row(rt: &impl Abort, terminal: Terminal) {
    laws();
    assert_same(rt, &terminal.history().counts(), &(1, 1));
    assert_first(rt, terminal.screen(), 0, ('a', 4));
    assert_first(rt, terminal.screen(), 1, (' ', 0));
    assert_counted(rt, terminal.screen(), (1, 1));
    drop(terminal);
}

// Rows are whole.
#[test]
fn cells_of_rows(rt: HostRuntime) -> Result<(), Fail> {
    assert_one_row(&rt, shown(rt.alloc(), b"a\r\nb\r\nc")?);
    Ok(())
}

// The names of the laws.
fn laws() {
    rows_are_whole();
    copies_stand();
    changes_are_told();
}

/// Of this stream four rows have left. The last of them goes on in the first that shows.
const FOUR_ROWS: &[u8] = b"a\r\nbb\r\n\x1b[1mccc\r\n dddde\r\n";

/// A cell of a room that nothing was put into.
fn blank() -> CellBytes {
    CellBytes::of(ansi_screen::Cell::blank(ansi_style::Style::default()))
}

/// The last three rows of four are kept.
fn assert_last_rows(rt: &impl Abort, terminal: Terminal) {
    assert_counts(rt, &terminal, (3, 4));
    assert_kept(rt, &terminal, 0, (Ok(2), *b"bb\0\0"));
    assert_kept(rt, &terminal, 1, (Ok(3), *b"ccc\0"));
    assert_kept(rt, &terminal, 2, (Ok(4), *b" ddd"));
    assert_kept(rt, &terminal, 3, (Err(0), [0; 4]));
    drop(terminal);
}

#[test]
fn last_rows(rt: HostRuntime) -> Result<(), Fail> {
    assert_last_rows(&rt, shown(rt.alloc(), FOUR_ROWS)?);
    Ok(())
}

/// Whether a row is put into a room.
fn assert_put(
    rt: &impl Abort,
    terminal: &Terminal,
    number: usize,
    room: &mut [CellBytes],
    wanted: bool,
) {
    assert_same(rt, &terminal.put_history_row(number, room), &wanted);
}

/// What is reserved of a cell is 0.
fn assert_reserved(rt: &impl Abort, cell: CellBytes) {
    assert_same(rt, &cell.reserved, &[0; RESERVED_CELL]);
    assert_same(rt, &cell.style.reserved, &[0; RESERVED_STYLE]);
}

/// The second cell of a room is d in bold, and with the fourth the row goes on.
fn assert_goes_on(rt: &impl Abort, room: &[CellBytes; 5]) {
    let told = (room[1].character, room[1].style.bytes.bold, room[3].goes_on);
    assert_same(rt, &told, &(0x64, 1, 1));
    assert_reserved(rt, room[1]);
}

/// The cells of the third row that is kept.
fn assert_last_row(rt: &impl Abort, terminal: Terminal) {
    let mut room = [blank(); 5];
    assert_put(rt, &terminal, 2, &mut room, true);
    assert_goes_on(rt, &room);
    drop(terminal);
}

#[test]
fn cells_of_the_last_row(rt: HostRuntime) -> Result<(), Fail> {
    assert_last_row(&rt, shown(rt.alloc(), FOUR_ROWS)?);
    Ok(())
}

/// There is no room for a row in three cells.
fn assert_no_room(rt: &impl Abort, terminal: &Terminal) {
    let mut room = [blank(); 3];
    assert_put(rt, terminal, 2, &mut room, false);
}

/// There is no fourth row, whatever the room.
fn assert_no_row(rt: &impl Abort, terminal: &Terminal) {
    let mut room = [blank(); 5];
    assert_put(rt, terminal, 3, &mut room, false);
}

// For a row of four cells there is too little room, and a fourth row is not kept.
#[test]
fn no_cells(rt: HostRuntime) -> Result<(), Fail> {
    let terminal = shown(rt.alloc(), FOUR_ROWS)?;
    assert_no_room(&rt, &terminal);
    assert_no_row(&rt, &terminal);
    drop(terminal);
    Ok(())
}

/// Two rows are kept; after a reset none, and then the last of seven.
fn assert_few_rows(rt: &impl Abort, mut terminal: Terminal) {
    assert_counts(rt, &terminal, (2, 2));
    assert_kept(rt, &terminal, 1, (Ok(1), *b"b\0\0\0"));
    reset(&mut terminal);
    assert_counts(rt, &terminal, (0, 0));
    feed(&mut terminal, b"\n\n\n\n\n\n\n\x1b[2;2Hx\x1b[S");
    assert_counts(rt, &terminal, (3, 7));
    assert_kept(rt, &terminal, 2, (Ok(0), [0; 4]));
    feed(&mut terminal, b"\x1b[S");
    assert_kept(rt, &terminal, 2, (Ok(2), *b" x\0\0"));
    drop(terminal);
}

// Fewer have left than there is room for; a reset forgets them.
#[test]
fn few_rows(rt: HostRuntime) -> Result<(), Fail> {
    assert_few_rows(&rt, shown(rt.alloc(), b"a\r\nb\r\nc\r\nd")?);
    Ok(())
}

/// Of two rows that scroll off and of those that ED 2, RIS and ED 0 at the first cell take away the first two alone are
/// kept.
fn assert_scrolled(rt: &impl Abort, terminal: Terminal) {
    assert_counts(rt, &terminal, (2, 2));
    assert_kept(rt, &terminal, 0, (Ok(1), *b"a\0\0\0"));
    assert_kept(rt, &terminal, 1, (Ok(1), *b"d\0\0\0"));
    drop(terminal);
}

// Rows that are erased are not kept, where that is asked for.
#[test]
fn scrolled_rows(rt: HostRuntime) -> Result<(), Fail> {
    let terminal = Terminal::with_history(rt.alloc(), 4, 2, 3, false)?;
    let stream = b"a\r\nb\r\nc\x1b[2J\x1b[Hd\r\ne\r\nf\x1bcg\x1b[H\x1b[J";
    assert_scrolled(&rt, fed(terminal, stream));
    Ok(())
}

/// Rows are counted, and none is kept.
fn assert_no_rows(rt: &impl Abort, mut terminal: Terminal) {
    feed(&mut terminal, b"a\nb\nc\n\x1b[?1049hd\n\n\n\n");
    assert_counts(rt, &terminal, (0, 2));
    assert_kept(rt, &terminal, 0, (Err(0), [0; 4]));
    drop(terminal);
}

// Where none was asked for, rows are counted.
#[test]
fn no_rows(rt: HostRuntime) -> Result<(), Fail> {
    assert_no_rows(&rt, Terminal::new(rt.alloc(), 4, 2)?);
    Ok(())
}

/// A row leaves a screen of four columns and one row that keeps one; its copy keeps it when it is kept no longer.
fn assert_copied(rt: &(impl Abort + AllocGlobal), mut screen: Screen) -> Result<(), AllocError> {
    screen.print('a');
    screen.execute(b'\n');
    let copy = screen.copy(rt.alloc())?;
    screen.clear_history();
    assert_first(rt, &copy, 0, ('a', 4));
    assert_counted(rt, &screen, (0, 0));
    drop((screen, copy));
    Ok(())
}

// A screen keeps rows by itself, and one that is asked for none keeps none.
#[test]
fn kept_by_a_screen(rt: HostRuntime) -> Result<(), Fail> {
    assert_copied(&rt, Screen::with_history(rt.alloc(), 4, 1, 1)?)?;
    assert!(rt; Screen::new(rt.alloc(), 4, 1)?.history().is_none());
    Ok(())
}
