//! All parts of a screen, and the bytes that draw it.
ghost use Rattle.anstyle_parse.specs.Io.Output.{Adds};
ghost use Rattle.anstyle_parse.specs.Stream.Canon.{canon};
ghost use Rattle.ansi_screen.specs.Leaving.{unkept};
ghost use Rattle.ansi_screen.specs.After.{as_shown};
ghost use Rattle.screen_draw.specs.Update.{update_calls};
ghost use Rattle.std.specs.Prelude.{◌≡◌, ◌≤◌, IfOk};

use super::{Memory, after, assert_cursor, assert_same, assert_size, memory, place, take};
use ansi_screen::{Cell, Place, Screen, is_shown};
use anstyle_parse::io::{Fault, FromRead, FromWrite, Output, Sink};
use anstyle_parse::{Parser, Utf8Parser};
use screen_draw::laws::{
    followed, forgets, noted, redrawn, same_text, selected, unchanged, updated,
};
use screen_draw::{Form, draw, show_to_end, update, update_noted, update_to_end};
use std::alloc::{AllocError, AllocGlobal, Global};
use std::process::Abort;
use std::test::Fail;

/// A blank screen of 9 columns and 3 rows.
fn blank(alloc: Global) -> Result<Screen, AllocError> {
    Screen::new(alloc, 9, 3)
}

/// Such a screen after the bytes.
fn shown(alloc: Global, bytes: &[u8]) -> Result<Screen, AllocError> {
    Ok(after(blank(alloc)?, bytes))
}

/// Two such screens after these bytes.
fn both(alloc: Global, first: &[u8], second: &[u8]) -> Result<(Screen, Screen), AllocError> {
    Ok((shown(alloc, first)?, shown(alloc, second)?))
}

/// What leads to other than new parts: x on the main screen, an alternate one with margins, a saved place,
/// one stop, no autowrap, insert mode.
const PARTS: &[u8] = b"x\x1b[?1049h\x1b[2;3r\x1b[2;4H\x1b7\x1b[?7l\x1b[4h\x1b[3g\x1bH\x1b[3;1Hy";

fn assert_margins(rt: &impl Abort, screen: &Screen, wanted: (usize, usize)) {
    assert_same(rt, &screen.margins(), &wanted);
}

fn assert_stops(rt: &impl Abort, screen: &Screen, wanted: &[bool]) {
    assert_same(rt, &screen.stops(), &wanted);
}

fn assert_saved(rt: &impl Abort, screen: &Screen, wanted: Place) {
    assert_same(rt, &screen.saved(), &wanted);
}

fn assert_hidden_saved(rt: &impl Abort, screen: &Screen, wanted: Place) {
    assert_same(rt, &screen.hidden_saved(), &wanted);
}

/// Whether a screen wraps, and whether it inserts.
fn assert_modes(rt: &impl Abort, screen: &Screen, wanted: (bool, bool)) {
    assert_same(rt, &(screen.wraps(), screen.inserts()), &wanted);
}

fn assert_alternate(rt: &impl Abort, screen: &Screen, wanted: bool) {
    assert_same(rt, &screen.is_alternate(), &wanted);
}

/// The only stop that [`PARTS`] leaves.
const STOPS: &[bool] = &[false, false, false, true, false, false, false, false, false];

/// What [`PARTS`] leads to.
fn assert_parts(rt: &impl Abort, screen: &Screen) {
    assert_margins(rt, screen, (1, 3));
    assert_stops(rt, screen, STOPS);
    assert_saved(rt, screen, place(1, 3));
    assert_hidden_saved(rt, screen, place(0, 1));
    assert_alternate(rt, screen, true);
    assert_modes(rt, screen, (false, true));
}

#[test]
fn parts(rt: HostRuntime) -> Result<(), Fail> {
    let screen = shown(rt.alloc(), PARTS)?;
    assert_parts(&rt, &screen);
    drop(screen);
    Ok(())
}

/// A row of nine cells begins with this character, which is no right half.
fn assert_begins(rt: &impl Abort, cells: &[Cell], character: char) {
    assert!(rt; cells.len() == 9);
    assert_same(rt, &cells[0].character, &character);
    assert!(rt; !cells[0].is_right());
}

/// The third row of a screen begins with y, and the first that is hidden with x.
fn assert_rows_begin(rt: &impl Abort, screen: Screen) {
    assert!(rt; screen.rows() == 3 && screen.columns() == 9);
    assert_begins(rt, screen.row(2), 'y');
    assert_begins(rt, screen.hidden_row(0), 'x');
    drop(screen);
}

#[test]
fn cells(rt: HostRuntime) -> Result<(), Fail> {
    assert_rows_begin(&rt, shown(rt.alloc(), PARTS)?);
    Ok(())
}

fn assert_same_cells(rt: &impl Abort, a: &[Cell], b: &[Cell]) {
    assert_same(rt, &a, &b);
}

/// Two screens have the same cells in a row, and in the hidden one of this number.
fn assert_same_row(rt: &impl Abort, a: &Screen, b: &Screen, row: usize) {
    assert!(rt; row < a.rows() && row < b.rows());
    assert_same_cells(rt, a.row(row), b.row(row));
    assert_same_cells(rt, a.hidden_row(row), b.hidden_row(row));
}

/// Two screens have the same cells in each row, and in each that is hidden.
fn assert_same_rows(rt: &impl Abort, a: &Screen, b: &Screen) {
    assert_size(rt, a, (b.columns(), b.rows()));
    for row in 0..a.rows() {
        assert_same_row(rt, a, b, row);
    }
}

#[test]
fn what_is_shown(rt: HostRuntime) {
    assert!(rt; is_shown('\u{ad}') && !is_shown('\u{85}'));
}

fn finished(output: Output<Memory>) -> (Memory, Result<(), Fault>) {
    output.finish()
}

fn assert_ok(rt: &impl Abort, answer: Result<(), Fault>) {
    assert!(rt; answer.is_ok());
}

/// What was written, where no write failed.
fn bytes_of(rt: &impl Abort, output: Output<Memory>) -> Vec<u8> {
    let (sink, answer) = finished(output);
    assert_ok(rt, answer);
    sink.into_inner()
}

/// A screen has the cells and stops of another, and what [`PARTS`] leads to besides.
fn assert_has_parts(rt: &impl Abort, again: &Screen, screen: &Screen) {
    assert_same_rows(rt, again, screen);
    assert_stops(rt, again, screen.stops());
    assert_cursor(rt, again, place(2, 1));
    assert_saved(rt, again, place(1, 3));
    assert_margins(rt, again, (1, 3));
    assert_modes(rt, again, (false, true));
}

/// The bytes were written.
fn assert_bytes(rt: &impl Abort, written: &[u8], wanted: &[u8]) {
    assert_same(rt, &written, &wanted);
}

fn assert_ends(rt: &impl Abort, written: &[u8], end: &[u8]) {
    assert!(rt; written.ends_with(end));
}

/// The bytes that draw a screen.
fn drawing_of(rt: &(impl Abort + AllocGlobal), screen: &Screen) -> Vec<u8> {
    let mut output = memory(rt.alloc());
    draw(screen, &mut output);
    bytes_of(rt, output)
}

/// A screen is drawn on another one.
fn draw_on(rt: &(impl Abort + AllocGlobal), screen: &Screen, again: &mut Screen) {
    let written = drawing_of(rt, screen);
    take(again, written.as_slice());
    drop(written);
}

/// A screen has what one with [`PARTS`] has.
fn assert_again(rt: &impl Abort, again: Screen, screen: Screen) {
    assert_has_parts(rt, &again, &screen);
    drop(again);
    drop(screen);
}

#[test]
fn a_drawing(rt: HostRuntime) -> Result<(), Fail> {
    let (screen, mut again) = both(rt.alloc(), PARTS, b"")?;
    draw_on(&rt, &screen, &mut again);
    assert_again(&rt, again, screen);
    Ok(())
}

/// Writes the update between two screens, which have one size.
fn put_update(rt: &impl Abort, first: &Screen, second: &Screen, output: &mut Output<Memory>) {
    assert!(rt; first.columns() == second.columns() && first.rows() == second.rows());
    update(first, second, output);
}

/// The update between two screens, which have one size.
fn update_between(rt: &(impl Abort + AllocGlobal), first: Screen, second: Screen) -> Vec<u8> {
    let mut output = memory(rt.alloc());
    put_update(rt, &first, &second, &mut output);
    drop(second);
    drop(first);
    bytes_of(rt, output)
}

#[test]
fn an_update_of_a_cell(rt: HostRuntime) -> Result<(), Fail> {
    let (first, second) = both(rt.alloc(), b"abc", b"abX")?;
    let written = update_between(&rt, first, second);
    assert_bytes(&rt, written.as_slice(), b"\x1b[3GX");
    drop(written);
    Ok(())
}

/// What is written of a stream by two screens that are the same.
fn follow(
    rt: &(impl Abort + AllocGlobal),
    stream: &[u8],
    first: &mut Screen,
    last: &mut Screen,
) -> Vec<u8>
    requires { first.old ≡ last.old }
{
    let mut reader = FromRead::new(stream);
    let mut output = Output::new(FromWrite::new(Vec::new(rt.alloc())));
    let read = update_to_end(&mut reader, first, last, &mut output);
    assert!(rt; read.is_ok());
    bytes_of(rt, output)
}

/// What is written of a stream, a drawing of the first screen and updates, and the last screen.
fn updates_of(
    rt: &(impl Abort + AllocGlobal),
    stream: &[u8],
) -> Result<(Vec<u8>, Screen), AllocError> {
    let mut first = Screen::new(rt.alloc(), 9, 3)?;
    let mut last = Screen::new(rt.alloc(), 9, 3)?;
    let written = follow(rt, stream, &mut first, &mut last);
    let answer = (written, last);
    drop(first);
    Ok(answer)
}

/// The bytes lead to a screen's cells and cursor.
fn assert_leads_to(
    rt: &(impl Abort + AllocGlobal),
    written: &[u8],
    last: &Screen,
) -> Result<(), AllocError> {
    let again = shown(rt.alloc(), written)?;
    assert_same_rows(rt, &again, last);
    assert_cursor(rt, &again, last.cursor());
    drop(again);
    Ok(())
}

/// The drawing of a blank screen ends with its modes, and one update comes after it.
#[test]
fn updates_of_a_stream(rt: HostRuntime) -> Result<(), Fail> {
    let (written, last) = updates_of(&rt, b"\x1b[2;2H\x1b[1mX")?;
    assert_ends(&rt, written.as_slice(), b"\x1b[?25h\x1b[2;2H\x1b[0;1mX");
    let answer = assert_leads_to(&rt, written.as_slice(), &last);
    drop(written);
    drop(last);
    Ok(answer?)
}

/// One read is one piece: what a later byte of it writes over is not drawn.
#[test]
fn an_update_for_a_read(rt: HostRuntime) -> Result<(), Fail> {
    let (written, _) = updates_of(&rt, b"X\rY")?;
    assert_ends(&rt, written.as_slice(), b"\x1b[?25hY");
    Ok(())
}

/// Writes what a blank screen shows at the end of a stream.
fn show_stream(
    stream: &[u8],
    screen: &mut Screen,
    form: Form,
    output: &mut Output<Memory>,
) -> Result<(), Fault> {
    let mut reader = FromRead::new(stream);
    show_to_end(&mut reader, screen, form, output)
}

/// What a screen shows at the end of a stream.
fn shown_of(
    rt: &(impl Abort + AllocGlobal),
    stream: &[u8],
    form: Form,
) -> Result<Vec<u8>, AllocError> {
    let mut screen = blank(rt.alloc())?;
    let mut output = memory(rt.alloc());
    assert_ok(rt, show_stream(stream, &mut screen, form, &mut output));
    let answer = bytes_of(rt, output);
    drop(screen);
    Ok(answer)
}

fn assert_begins_with(rt: &impl Abort, written: &[u8], start: &[u8]) {
    assert!(rt; written.starts_with(start));
}

/// Its rows as text; and a drawing, which begins with RIS and shows the same rows again.
#[test]
fn a_screen_at_the_end(rt: HostRuntime) -> Result<(), Fail> {
    let stream = b"ab\x08\x1b[1mX\r\nc".as_slice();
    let text = shown_of(&rt, stream, Form::Text)?;
    assert_bytes(&rt, text.as_slice(), b"aX\nc\n");
    let drawn = shown_of(&rt, stream, Form::Drawing)?;
    assert_begins_with(&rt, drawn.as_slice(), b"\x1bc");
    let again = shown_of(&rt, drawn.as_slice(), Form::Text)?;
    assert_bytes(&rt, again.as_slice(), b"aX\nc\n");
    Ok(())
}

// The names of the laws.
#[test]
fn laws(_rt: HostRuntime) {
    forgets();
    selected();
    redrawn();
    updated();
    unchanged();
    followed();
    noted();
    same_text();
}

/// Writes what a piece of a stream changes, as the page of the crate `screen_draw` shows it. Before and after it both
/// screens are the same, but for the pictures from which on they note what changes, and for rows that left.
fn show_piece<W: Sink>(
    parser: &mut Parser<Utf8Parser>,
    shown: &mut Screen,
    wanted: &mut Screen,
    piece: &[u8],
    output: &mut Output<W>,
)
    requires { as_shown (unkept shown.old) ≡ as_shown (unkept wanted.old) }
    ensures screens { as_shown (unkept shown.new) ≡ as_shown (unkept wanted.new) }
    ensures text { Adds W.Sink (canon (update_calls shown.old.display wanted.new.display)) output.old output.new }
{
    noted();
    // The sizes are within their limits.
    let _ = wanted.columns();
    wanted.forget();
    parser.advance_all(wanted, piece);
    update_noted(shown, wanted, output);
    shown.catch_up(wanted);
}

/// Two blank screens.
fn blank_screens(alloc: Global, columns: usize, rows: usize) -> Result<(Screen, Screen), AllocError>
    requires min_columns { 2 ≤ columns }
    requires max_columns { columns ≤ 1000 }
    requires min_rows { 1 ≤ rows }
    requires max_rows { rows ≤ 1000 }
    ensures { IfOk result (λ screens. as_shown (unkept screens.0) ≡ as_shown (unkept screens.1)) }
{
    Ok((
        Screen::new(alloc, columns, rows)?,
        Screen::new(alloc, columns, rows)?,
    ))
}

/// A screen has one line of five characters, and what a reset leads to.
fn assert_reset(rt: &impl Abort, screen: &Screen) {
    assert_cursor(rt, screen, place(0, 5));
    assert_margins(rt, screen, (0, 3));
    assert_alternate(rt, screen, false);
    assert_modes(rt, screen, (true, false));
}

/// Shows [`PARTS`] and a reset, and what each leads to.
fn show_both(rt: &impl Abort, screen: &mut Screen, wanted: &mut Screen, output: &mut Output<Memory>)
    requires { as_shown (unkept screen.old) ≡ as_shown (unkept wanted.old) }
{
    let mut parser = Parser::<Utf8Parser>::new();
    show_piece(&mut parser, screen, wanted, PARTS, output);
    assert_parts(rt, screen);
    assert_has_parts(rt, screen, wanted);
    show_piece(&mut parser, screen, wanted, b"\x1bcthree", output);
    assert_same_rows(rt, screen, wanted);
    assert_reset(rt, screen);
}

/// A screen becomes one with an alternate screen, and then one without, as the one that notes what it is fed.
#[test]
fn a_screen_that_catches_up(rt: HostRuntime) -> Result<(), Fail> {
    let (mut screen, mut wanted) = blank_screens(rt.alloc(), 9, 3)?;
    let mut output = memory(rt.alloc());
    show_both(&rt, &mut screen, &mut wanted, &mut output);
    drop(output);
    drop(wanted);
    drop(screen);
    Ok(())
}

/// A screen takes all that another one of its size has.
fn copy_to(rt: &impl Abort, screen: &Screen, copy: &mut Screen) {
    assert!(rt; copy.columns() == screen.columns() && copy.rows() == screen.rows());
    copy.copy_from(screen);
}

#[test]
fn a_copy(rt: HostRuntime) -> Result<(), Fail> {
    let (screen, mut copy) = both(rt.alloc(), PARTS, b"")?;
    copy_to(&rt, &screen, &mut copy);
    assert_parts(&rt, &copy);
    assert_again(&rt, copy, screen);
    Ok(())
}

/// The screen takes some bytes, and notes what others change.
fn take_both(screen: &mut Screen, before: &[u8], bytes: &[u8]) {
    take(screen, before);
    screen.forget();
    take(screen, bytes);
}

/// What is noted of a screen after some bytes, and then of others: the columns of a row.
fn noted_of(
    rt: &(impl Abort + AllocGlobal),
    before: &[u8],
    bytes: &[u8],
    row: usize,
) -> Result<(usize, usize), AllocError> {
    let mut screen = blank(rt.alloc())?;
    take_both(&mut screen, before, bytes);
    let answer = columns_of(rt, &screen, row);
    drop(screen);
    Ok(answer)
}

/// The columns of a row that a screen says have changed.
fn columns_of(rt: &impl Abort, screen: &Screen, row: usize) -> (usize, usize) {
    let (first, past) = screen.changed_rows();
    let inside = first <= row && row < past;
    assert!(rt; row < screen.rows());
    assert!(rt; inside || row < first || past <= row);
    if inside { screen.changed(row) } else { (0, 0) }
}

fn assert_noted(rt: &impl Abort, noted: (usize, usize), wanted: (usize, usize)) {
    assert_same(rt, &noted, &wanted);
}

/// The columns that were written and one on each side; none where nothing was.
#[test]
fn what_is_noted(rt: HostRuntime) -> Result<(), Fail> {
    assert_noted(&rt, noted_of(&rt, b"\x1b[2;4H", b"x", 1)?, (2, 5));
    assert_noted(&rt, noted_of(&rt, b"\x1b[2;4H", b"x", 0)?, (0, 0));
    assert_noted(&rt, noted_of(&rt, b"\x1b[2;4H", b"\x1b[2J", 2)?, (0, 9));
    assert_noted(
        &rt,
        noted_of(&rt, b"\x1b[2;4H", b"\x1b[m\x07\x1b[H", 1)?,
        (0, 0),
    );
    Ok(())
}

/// A character, the next one, which stands where the cursor is, in its style, and a bell. `tests/cells` counts what
/// these take on a screen of 20x6.
#[test]
fn updates_of_what_is_noted(rt: HostRuntime) -> Result<(), Fail> {
    let (mut first, mut last) = blank_screens(rt.alloc(), 20, 6)?;
    let mut parser = Parser::<Utf8Parser>::new();
    let mut output = Output::new(FromWrite::new(Vec::new(rt.alloc())));
    let first_piece = b"\x1b[2;2H\x1b[1mX".as_slice();
    show_piece(&mut parser, &mut first, &mut last, first_piece, &mut output);
    show_piece(&mut parser, &mut first, &mut last, b"Y", &mut output);
    show_piece(&mut parser, &mut first, &mut last, b"\x07", &mut output);
    let written = bytes_of(&rt, output);
    assert_bytes(&rt, written.as_slice(), b"\x1b[2;2H\x1b[0;1mXY");
    assert_same_rows(&rt, &first, &last);
    drop(written);
    drop(last);
    drop(first);
    Ok(())
}
