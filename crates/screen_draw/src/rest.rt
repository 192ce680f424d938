//! What is drawn after the cells: tabs, margins, the cursor, modes.
ghost use Rattle.std.specs.Prelude.{◌≡◌, ◌+◌, ◌<◌, ◌≤◌, ◌∷◌, [], length};
ghost use Rattle.ansi_screen.specs.Display.{most_columns, most_rows, IsSized};
ghost use Rattle.screen_draw.specs.Draw.{sequence, escape, stop_calls, stops_calls, is_last_wide, last_cell, last_column, cursor_calls, modes_calls, margins_calls, rest_calls};
ghost use Rattle.screen_draw.specs.Drawing.{Draws};

use crate::calls::{
    put_escape, put_number, put_numbers, put_plain, put_private_mode, set_or_reset,
};
use crate::cursors::put_place;
use ansi_screen::{Cell, Screen};
use anstyle_parse::io::{Output, Sink};

/// How far the stops of a new screen are from each other.
pub(crate) const STOPS_EACH: usize = 8;

/// Sets a stop at a column.
pub(crate) fn put_set_stop<W: Sink>(output: &mut Output<W>, column: usize)
    requires { column < most_columns }
    ensures { Draws W.Sink (sequence ((column + 1) ∷ []) 0x47 ∷ escape 0x48 ∷ []) output.old output.new }
{
    put_number(output, column as u16 + 1, b'G');
    put_escape(output, b'H');
}

/// Clears the stop at a column.
pub(crate) fn put_clear_stop<W: Sink>(output: &mut Output<W>, column: usize)
    requires { column < most_columns }
    ensures { Draws W.Sink (sequence ((column + 1) ∷ []) 0x47 ∷ sequence (0 ∷ []) 0x67 ∷ []) output.old output.new }
{
    put_number(output, column as u16 + 1, b'G');
    put_number(output, 0, b'g');
}

/// Sets or clears a stop that is not as on a new screen.
fn put_stop<W: Sink>(output: &mut Output<W>, column: usize, stops: bool)
    requires { column < most_columns }
    ensures { Draws W.Sink (stop_calls column stops) output.old output.new }
{
    match (stops, column % STOPS_EACH == 0) {
        (true, false) => put_set_stop(output, column),
        (false, true) => put_clear_stop(output, column),
        (true, true) | (false, false) => {}
    }
}

/// Sets and clears stops.
fn put_stops<W: Sink>(output: &mut Output<W>, stops: &[bool])
    requires { length stops.now ≤ most_columns }
    ensures { Draws W.Sink (stops_calls 0 stops.now) output.old output.new }
{
    for (column, stops) in stops.iter().enumerate() {
        put_stop(output, column, *stops);
    }
}

/// The cell with the last character of the cursor's row, and its column.
pub(crate) fn last_of_row(screen: &Screen) -> (Cell, usize)
    ensures cell { result.0 ≡ last_cell screen.now.display }
    ensures column { result.1 ≡ last_column screen.now.display }
    ensures sized { IsSized screen.now.display }
{
    let columns = screen.columns();
    let cells = screen.row(screen.cursor().row);
    let last = cells[columns - 1];
    if last.is_right() {
        (cells[columns - 2], columns - 2)
    } else {
        (last, columns - 1)
    }
}

/// Goes to the cursor's place.
fn put_cursor<W: Sink>(output: &mut Output<W>, screen: &Screen)
    ensures { Draws W.Sink (cursor_calls screen.now.display) output.old output.new }
{
    let cursor = screen.cursor();
    let (top, _bottom) = screen.margins();
    if cursor.column == screen.columns() {
        let (last, column) = last_of_row(screen);
        put_place(output, top, column, Some(last), cursor);
    } else {
        put_place(output, top, cursor.column, None, cursor);
    }
}

/// DECAWM, IRM, DECTCEM.
fn put_modes<W: Sink>(output: &mut Output<W>, screen: &Screen)
    ensures { Draws W.Sink (modes_calls screen.now.display) output.old output.new }
{
    put_private_mode(output, 7, screen.wraps());
    put_number(output, 4, set_or_reset(screen.inserts()));
    put_private_mode(output, 25, screen.is_cursor_visible());
}

/// DECSTBM.
fn put_margins<W: Sink>(output: &mut Output<W>, top: usize, bottom: usize)
    requires top { top < most_rows }
    requires bottom { bottom ≤ most_rows }
    ensures { Draws W.Sink (sequence ((top + 1) ∷ bottom ∷ []) 0x72 ∷ []) output.old output.new }
{
    put_numbers(output, top as u16 + 1, bottom as u16, b'r');
}

/// DECSTBM of a screen.
pub(crate) fn put_margins_of<W: Sink>(output: &mut Output<W>, screen: &Screen)
    ensures { Draws W.Sink (margins_calls screen.now.display) output.old output.new }
{
    let (top, bottom) = screen.margins();
    put_margins(output, top, bottom);
}

/// Tabs, margins, the cursor, modes.
pub(crate) fn put_rest<W: Sink>(output: &mut Output<W>, screen: &Screen)
    ensures { Draws W.Sink (rest_calls screen.now.display) output.old output.new }
{
    put_plain(output);
    put_stops(output, screen.stops());
    put_margins_of(output, screen);
    put_cursor(output, screen);
    put_modes(output, screen);
}
