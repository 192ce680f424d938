//! Places of the cursor, and a screen with what it has saved.
ghost use Rattle.std.specs.Prelude.{◌≡◌, ◌<◌, ◌≤◌, ◌+◌, ◌-◌, if◌then◌else◌};
ghost use Rattle.ansi_screen.specs.Display.{most_columns, most_rows};
ghost use Rattle.screen_draw.specs.Buffers.{cells_of, saved_of};
ghost use Rattle.screen_draw.specs.Draw.{wrap_calls, place_calls, space_if, saved_calls, screen_calls};
ghost use Rattle.screen_draw.specs.Drawing.{Draws};

use crate::buffer::Buffer;
use crate::calls::{
    put_charsets, put_escape, put_number, put_origin, put_plain, put_position, put_style,
};
use crate::cells::{put_cells, put_marked};
use ansi_screen::{Cell, Place, Screen};
use ansi_style::Style;
use anstyle_parse::io::{Output, Sink};

/// Prints the cell that leaves a wrap pending.
pub(crate) fn put_wrap<W: Sink>(output: &mut Output<W>, last: Option<Cell>)
    ensures { Draws W.Sink (wrap_calls last) output.old output.new }
{
    if let Some(cell) = last {
        put_style(output, cell.style);
        put_marked(output, cell);
    }
}

/// What a place's row is counted from.
fn rows_above(place: Place, top: usize) -> usize
    ensures { result ≡ if place.is_relative then top else 0 }
{
    if place.is_relative { top } else { 0 }
}

/// Goes to the row of a place and to `column`; in origin mode the sequence counts the row from `top`. Prints `last`
/// there, if there is one. Selects the place's origin mode, character sets and style.
pub(crate) fn put_place<W: Sink>(
    output: &mut Output<W>,
    top: usize,
    column: usize,
    last: Option<Cell>,
    place: Place,
)
    requires row { place.row < most_rows }
    requires column { column < most_columns }
    ensures { Draws W.Sink (place_calls top column last place) output.old output.new }
{
    put_origin(output, place.is_relative);
    let row = place.row.saturating_sub(rows_above(place, top));
    put_position(output, row, column);
    put_wrap(output, last);
    put_charsets(output, place.charsets);
    put_style(output, place.style);
}

/// A space, where a wrap is pending.
fn space_if(is_pending: bool) -> Option<Cell>
    ensures { result ≡ space_if is_pending }
{
    if is_pending {
        Some(Cell::blank(Style::default()))
    } else {
        None
    }
}

/// Goes to the place and saves it.
fn put_saved<W: Sink>(output: &mut Output<W>, width: usize, saved: Place)
    requires some { 0 < width }
    requires columns { width ≤ most_columns }
    requires row { saved.row < most_rows }
    ensures { Draws W.Sink (saved_calls width saved) output.old output.new }
{
    put_plain(output);
    let last = space_if(saved.column == width);
    put_place(output, 0, saved.column.min(width - 1), last, saved);
    put_escape(output, b'7');
}

/// Draws what is saved in a buffer, and its cells.
pub(crate) fn put_screen<W: Sink>(output: &mut Output<W>, screen: &Screen, buffer: Buffer)
    ensures { Draws W.Sink (screen_calls screen.now.display.width (saved_of buffer screen.now.display)
        (cells_of buffer screen.now.display)) output.old output.new }
{
    put_saved(output, screen.columns(), buffer.saved(screen));
    put_plain(output);
    put_number(output, 2, b'J');
    put_cells(output, screen, buffer);
}
