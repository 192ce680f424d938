//! Which rows are drawn, and their cells.
ghost use Rattle.std.specs.Prelude.{◌≡◌, ◌≤◌, ◌<◌, ◌+◌, [], length, slice_index_or};
ghost use Rattle.anstyle_parse.specs.Io.Output.{Adds};
ghost use Rattle.ansi_screen.specs.Display.{row_cells};
ghost use Rattle.ansi_screen.specs.Leaving.{kept_rows};
ghost use Rattle.screen_svg.specs.Xml.{xml};
ghost use Rattle.screen_svg.specs.Picture.{all_of, least_count, shown_count, all_shown, left_cells, drawn_cells, rows_events};

use crate::drawing::Extent;
use crate::page::cursor_cell;
use crate::runs::put_row;
use ansi_html::Scheme;
use ansi_screen::{Cell, LeftOut, Screen};
use anstyle_parse::io::{Output, Sink};
use screen_html::LinkTable;

/// How many of the rows that left are drawn at most.
pub const MOST_ABOVE: usize = 1000;

/// All rows of a screen.
pub(crate) fn all_of(screen: &Screen) -> Extent
    ensures extent { result ≡ all_of screen.now.display }
    ensures above { result.above ≤ 1000 }
    ensures count { result.count ≤ screen.now.display.height }
{
    Extent {
        above: 0,
        count: screen.rows(),
    }
}

/// How many rows that left a screen keeps.
fn count_kept(screen: &Screen) -> usize
    ensures { result ≡ length (kept_rows screen.now.history) }
{
    match screen.history() {
        None => 0,
        Some(history) => history.counts().0,
    }
}

/// How many rows of a screen are drawn at least.
fn least_count(screen: &Screen, cursor: bool) -> usize
    ensures count { result ≡ least_count cursor screen.now.display }
    ensures within { result ≤ screen.now.display.height }
{
    // (for the proof: it is within its sizes)
    let _ = screen.rows();
    let (row, _) = cursor_cell(screen);
    if cursor && screen.is_cursor_visible() {
        row + 1
    } else {
        1
    }
}

/// How many rows of a screen are drawn: up to the last in which something was printed, and so many at least.
fn shown_count(screen: &Screen, least: usize) -> usize
    requires { least ≤ screen.now.display.height }
    ensures count { result ≡ shown_count least screen.now.display }
    ensures within { result ≤ screen.now.display.height }
{
    let used = screen.used_rows(LeftOut::Unprinted);
    if used < least { least } else { used }
}

/// The rows that a screen showed, of those that left it the last.
pub(crate) fn all_shown(screen: &Screen, cursor: bool) -> Extent
    ensures extent { result ≡ all_shown cursor screen.now }
    ensures above { result.above ≤ 1000 }
    ensures count { result.count ≤ screen.now.display.height }
{
    let least = least_count(screen, cursor);
    Extent {
        above: count_kept(screen).min(MOST_ABOVE),
        count: shown_count(screen, least),
    }
}

/// The cells of a row that left, counted from the first that is kept.
fn kept_row(screen: &Screen, number: usize) -> &[Cell]
    ensures { result.now ≡ slice_index_or (kept_rows screen.now.history) number [] }
{
    match screen.history() {
        None => &[],
        Some(history) => match history.row(number) {
            None => &[],
            Some((cells, _)) => cells,
        },
    }
}

/// The cells of a row that left, of which so many are drawn.
fn left_cells(screen: &Screen, above: usize, row: usize) -> &[Cell]
    requires within { row < above }
    requires few { above ≤ 1000 }
    ensures cells { result.now ≡ left_cells above screen.now row }
    ensures few { length result.now ≤ 1000 }
{
    let columns = screen.columns();
    let first = count_kept(screen).saturating_sub(above);
    let cells = kept_row(screen, first + row);
    &cells[..cells.len().min(columns)]
}

/// The cells of a row, of which so many left.
fn drawn_cells(screen: &Screen, above: usize, row: usize) -> &[Cell]
    requires above { above ≤ 1000 }
    requires within { row < above + screen.now.display.height }
    ensures cells { result.now ≡ drawn_cells above screen.now row }
    ensures few { length result.now ≤ 1000 }
{
    // (for the proof: it is within its sizes)
    let _ = screen.rows();
    if row < above {
        left_cells(screen, above, row)
    } else {
        screen.row(row - above)
    }
}

/// Writes rows.
pub(crate) fn put_rows<W: Sink>(
    output: &mut Output<W>,
    scheme: Scheme,
    links: &LinkTable,
    extent: Extent,
    screen: &Screen,
)
    requires above { extent.above ≤ 1000 }
    requires count { extent.count ≤ screen.now.display.height }
    requires rows { extent.above + extent.count ≤ 2000 }
    ensures { Adds W.Sink (xml (rows_events scheme links.now.places extent.above (extent.above + extent.count)
        screen.now)) output.old output.new }
{
    for row in 0..extent.above + extent.count {
        put_row(
            output,
            scheme,
            links,
            row,
            drawn_cells(screen, extent.above, row),
        );
    }
}
