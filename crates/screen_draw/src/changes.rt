//! What differs between two screens in margins, cells, cursor and modes.
ghost use Rattle.std.specs.Prelude.{◌≡◌, ◌<◌, ◌≤◌, ◌∷◌, ◌++◌, [], List, Some, false, ◌+◌, ◌-◌, ◌||◌, not, length, drop, if◌then◌else◌};
ghost use Rattle.screen_draw.specs.Alike.{are_alike};
ghost use Rattle.ansi_screen.specs.Cells.{is_right, cell_at};
ghost use Rattle.ansi_screen.specs.declared.cell.Cell.{Cell};
ghost use Rattle.ansi_style.specs.declared.style.Style.{Style};
ghost use Rattle.ansi_screen.specs.Display.{most_columns, most_rows, IsSized};
ghost use Rattle.ansi_screen.specs.Damage.{KeepsColumns};
ghost use Rattle.screen_draw.specs.Changed.{AreCompared};
ghost use Rattle.screen_draw.specs.Draw.{is_erased, position, select, wrap_calls, last_cell, last_column};
ghost use Rattle.screen_draw.specs.Drawing.{Draws};
ghost use Rattle.screen_draw.specs.Update.{move_calls, erased_run, erased_columns, painted_calls, is_done, change_calls, half_columns, brush_behind, row_calls, brush_after, begun_at, place_behind, rows_calls, wants_wrap, cursor_changes, mode_changes, changes_from, changes_calls};

use crate::alike::{alike_front, are_alike, has_same_margins, lacks_print};
use crate::calls::{put_number, put_position, put_private_mode, put_style};
use crate::cells::{is_erased, put_marked, put_style_change};
use crate::changed::Compared;
use crate::cursors::put_wrap;
use crate::rest::{last_of_row, put_margins_of};
use ansi_screen::{Cell, Part, Place, Screen};
use ansi_style::Style;
use anstyle_parse::io::{Output, Sink};

/// What was drawn so far leaves this to the next cell.
#[derive(Clone, Copy)]
pub(crate) struct Brush {
    /// Where the cursor stands, with the style that is selected.
    pub(crate) place: Place,
    /// How many cells from here on are erased already.
    pub(crate) erased: usize,
}

/// Goes to a place, where the cursor stands elsewhere.
#[tactic(auto, unfolding(crate::specs::Update::move_calls))]
fn put_move<W: Sink>(output: &mut Output<W>, place: Place, row: usize, column: usize)
    requires row { row < most_rows }
    requires column { column ≤ most_columns }
    ensures { Draws W.Sink (move_calls place row column) output.old output.new }
{
    if place.row != row {
        put_position(output, row, column);
    } else if place.column != column {
        put_number(output, column as u16 + 1, b'G');
    }
}

/// How many cells, from the first on, are erased ones of this style.
fn erased_run(style: Style, cells: &[Cell]) -> usize
    ensures run { result ≡ erased_run style cells.now }
    ensures within { result ≤ length cells.now }
{
    for (count, cell) in cells.iter().enumerate() {
        if !is_erased(*cell) || !cell.style.is_same(&style) {
            return count;
        }
    }
    cells.len()
}

/// How many columns are erased at once, where so many cells after the first are to be erased too: one, these, and an
/// old right half after them, which a terminal may keep where its left one is erased.
fn erased_columns(run: usize, olds: &[Cell]) -> usize
    requires { run ≤ length olds.now }
    ensures columns { (style : Style) (cells : List Cell) → run ≡ erased_run style cells
        → result ≡ erased_columns style olds.now cells }
    ensures within { result ≤ length olds.now + 1 }
{
    if run < olds.len() && olds[run].is_right() {
        run + 2
    } else {
        run + 1
    }
}

/// How many columns a character of this part takes.
fn half_columns(part: Part) -> usize
    ensures columns { result ≡ half_columns part }
    ensures few { result ≤ 2 }
{
    match part {
        Part::Left => 2,
        Part::Empty | Part::Whole | Part::Right => 1,
    }
}

/// Erases this cell and all like it that follow at once, or prints it. The answer is how many columns the cursor moves,
/// and how many of the cells that follow are erased.
// Out of line, so that the loop over a row's cells keeps what it compares in registers.
#[inline(never)]
fn put_painted<W: Sink>(
    output: &mut Output<W>,
    cell: Cell,
    olds: &[Cell],
    cells: &[Cell],
) -> (usize, usize)
    requires few { length cells.now < most_columns }
    requires same { length olds.now ≡ length cells.now }
    ensures calls { Draws W.Sink (painted_calls cell olds.now cells.now) output.old output.new }
    ensures columns { result.0 ≡ if is_erased cell then 0 else half_columns cell.part }
    ensures erased { result.1 ≡ if is_erased cell then erased_run cell.style cells.now else 0 }
    ensures few { result.0 ≤ 2 }
{
    if is_erased(cell) {
        let run = erased_run(cell.style, cells);
        put_number(output, erased_columns(run, olds) as u16, b'X');
        (0, run)
    } else {
        put_marked(output, cell);
        (half_columns(cell.part), 0)
    }
}

impl Brush {
    /// The brush with which a row begins.
    fn begun_at(place: Place) -> Brush
        ensures { result ≡ begun_at place }
    {
        Brush { place, erased: 0 }
    }

    /// The brush after a cell that is erased already.
    fn passed(self) -> Brush
        requires { 0 < self.erased }
        ensures { result ≡ record self { erased = self.erased - 1 } }
    {
        Brush {
            erased: self.erased - 1,
            ..self
        }
    }
}

/// Whether a cell that is not erased already is to be drawn: it differs, and is no right half, which comes with its
/// left one.
#[inline(always)]
fn differs(old: &Cell, new: &Cell) -> bool
    ensures { result ≡ not (is_right new.now.part || are_alike old.now new.now) }
{
    !new.is_right() && !are_alike(old, new)
}

/// The cell of a column.
fn cell_in(cells: &[Cell], column: usize) -> &Cell
    requires { column < length cells.now }
    ensures { result.now ≡ cell_at column cells.now }
{
    &cells[column]
}

/// The cells after a column.
fn cells_behind(cells: &[Cell], column: usize) -> &[Cell]
    requires { column < length cells.now }
    ensures { result.now ≡ drop (column + 1) cells.now }
{
    &cells[column + 1..]
}

/// Draws the cell of a column, which is to be drawn. The answer is the brush after it.
fn put_change<W: Sink>(
    output: &mut Output<W>,
    row: usize,
    column: usize,
    brush: Brush,
    olds: &[Cell],
    news: &[Cell],
) -> Brush
    requires row { row < most_rows }
    requires column { column < length news.now }
    requires columns { length news.now ≤ most_columns }
    requires same { length olds.now ≡ length news.now }
    requires differs { is_done brush (cell_at column olds.now) (cell_at column news.now) ≡ false }
    ensures calls { Draws W.Sink (change_calls row column brush (cell_at column olds.now) (cell_at column news.now)
        (drop (column + 1) olds.now) (drop (column + 1) news.now)) output.old output.new }
    ensures brush { result ≡ brush_behind row column brush (cell_at column olds.now) (cell_at column news.now)
        (drop (column + 1) news.now) }
{
    let new = *cell_in(news, column);
    put_move(output, brush.place, row, column);
    put_style_change(output, brush.place.style, new.style);
    let (columns, erased) = put_painted(
        output,
        new,
        cells_behind(olds, column),
        cells_behind(news, column),
    );
    Brush {
        place: Place {
            row,
            column: column + columns,
            style: new.style,
            ..brush.place
        },
        erased,
    }
}

/// Draws the cells of a row that differ, from the first one that does on, where none does before one column and from
/// another one on. The answer is where the cursor stands then.
fn put_row<W: Sink>(
    output: &mut Output<W>,
    row: usize,
    place: Place,
    columns: (usize, usize),
    olds: &[Cell],
    news: &[Cell],
) -> Place
    requires row { row < most_rows }
    requires columns { length news.now ≤ most_columns }
    requires same { length olds.now ≡ length news.now }
    requires order { columns.0 ≤ columns.1 }
    requires within { columns.1 ≤ length news.now }
    requires kept { KeepsColumns columns.0 columns.1 olds.now news.now }
    ensures calls { Draws W.Sink (row_calls row 0 (begun_at place) olds.now news.now) output.old output.new }
    ensures place { result ≡ (brush_after row 0 (begun_at place) olds.now news.now).place }
{
    let mut brush = Brush::begun_at(place);
    let (left, right) = columns;
    let alike = alike_front(&olds[left..right], &news[left..right]);
    for column in left + alike..right {
        if brush.erased > 0 {
            brush = brush.passed();
        } else if differs(cell_in(olds, column), cell_in(news, column)) {
            brush = put_change(output, row, column, brush, olds, news);
        }
    }
    brush.place
}

/// Draws the cells that differ, of those that are compared, from the cursor's place on. The answer is where it stands
/// then.
fn put_rows<W: Sink>(
    output: &mut Output<W>,
    start: Place,
    shown: &Screen,
    wanted: &Screen,
    compared: Compared,
) -> Place
    requires { AreCompared compared shown.now wanted.now }
    ensures calls { Draws W.Sink (rows_calls wanted.now.display.height start shown.now.display wanted.now.display)
        output.old output.new }
    ensures place { result ≡ place_behind wanted.now.display.height start shown.now.display wanted.now.display }
{
    // (for the proof: the sizes are within their limits)
    let _ = wanted.columns();
    let (first, past) = compared.rows(wanted);
    let mut place = start;
    for row in first..past {
        let columns = compared.columns(wanted, row);
        place = put_row(output, row, place, columns, shown.row(row), wanted.row(row));
    }
    place
}

/// Whether a wrap is to be pending and is not.
#[tactic(auto, unfolding(crate::specs::Update::wants_wrap))]
fn wants_wrap(place: Place, wanted: &Screen) -> bool
    ensures wants { result ≡ wants_wrap place wanted.now.display }
    ensures sized { IsSized wanted.now.display }
{
    let cursor = wanted.cursor();
    cursor.column == wanted.columns()
        && !(place.row == cursor.row && place.column == cursor.column && !lacks_print(wanted))
}

/// Prints the last character of the cursor's row once more, so that a wrap is pending.
fn put_pending<W: Sink>(output: &mut Output<W>, wanted: &Screen)
    ensures { Draws W.Sink (position wanted.now.display.cursor.row (last_column wanted.now.display)
        ∷ (wrap_calls (Some (last_cell wanted.now.display)) ++ select wanted.now.display.cursor.style ∷ []))
        output.old output.new }
{
    let cursor = wanted.cursor();
    let (last, column) = last_of_row(wanted);
    put_position(output, cursor.row, column);
    put_wrap(output, Some(last));
    put_style(output, cursor.style);
}

/// Goes where the cursor is wanted, in its style.
fn put_cursor_changes<W: Sink>(output: &mut Output<W>, place: Place, wanted: &Screen)
    ensures { Draws W.Sink (cursor_changes place wanted.now.display) output.old output.new }
{
    let cursor = wanted.cursor();
    if wants_wrap(place, wanted) {
        put_pending(output, wanted);
    } else {
        put_move(output, place, cursor.row, cursor.column);
        put_style_change(output, place.style, cursor.style);
    }
}

/// Sets a private mode or resets it, where it is not as wanted.
fn put_mode_change<W: Sink>(output: &mut Output<W>, mode: u16, old: bool, new: bool)
    ensures { Draws W.Sink (mode_changes mode old new) output.old output.new }
{
    if old != new {
        put_private_mode(output, mode, new);
    }
}

/// Draws what differs in cells, cursor, DECAWM and DECTCEM, where the cursor stands at a place.
fn put_changes_from<W: Sink>(
    output: &mut Output<W>,
    start: Place,
    shown: &Screen,
    wanted: &Screen,
    compared: Compared,
)
    requires { AreCompared compared shown.now wanted.now }
    ensures { Draws W.Sink (changes_from start shown.now.display wanted.now.display) output.old output.new }
{
    let place = put_rows(output, start, shown, wanted, compared);
    put_cursor_changes(output, place, wanted);
    put_mode_change(output, 7, shown.wraps(), wanted.wraps());
    put_mode_change(
        output,
        25,
        shown.is_cursor_visible(),
        wanted.is_cursor_visible(),
    );
}

/// The place where DECSTBM leads the cursor.
fn at_home(place: Place) -> Place
    ensures { result ≡ record place { row = 0; column = 0 } }
{
    Place {
        row: 0,
        column: 0,
        ..place
    }
}

/// Draws what differs in margins, cells, cursor, DECAWM and DECTCEM.
pub(crate) fn put_changes<W: Sink>(
    output: &mut Output<W>,
    shown: &Screen,
    wanted: &Screen,
    compared: Compared,
)
    requires { AreCompared compared shown.now wanted.now }
    ensures { Draws W.Sink (changes_calls shown.now.display wanted.now.display) output.old output.new }
{
    if has_same_margins(shown, wanted) {
        put_changes_from(output, shown.cursor(), shown, wanted, compared);
    } else {
        put_margins_of(output, wanted);
        let home = at_home(shown.cursor());
        put_changes_from(output, home, shown, wanted, compared);
    }
}
