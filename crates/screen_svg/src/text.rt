//! The text of runs.
ghost use Rattle.std.specs.List.{flat_map};
ghost use Rattle.anstyle_parse.specs.Io.Output.{Adds};
ghost use Rattle.ansi_html.specs.Html.{escaped_text};
ghost use Rattle.screen_svg.specs.Characters.{cell_text, marks_text};

use crate::characters::put_allowed;
use ansi_screen::{Cell, Marks};
use anstyle_parse::io::{Output, Sink};

/// Writes marks.
fn put_marks<W: Sink>(output: &mut Output<W>, marks: Marks)
    ensures { Adds W.Sink (escaped_text (marks_text marks)) output.old output.new }
{
    match marks {
        Marks::Unmarked => {}
        Marks::One(first) => put_allowed(output, first),
        Marks::Two(first, second) => {
            put_allowed(output, first);
            put_allowed(output, second);
        }
    }
}

/// Writes the character of a cell, unless it is a right half, and its marks.
pub(crate) fn put_cell<W: Sink>(output: &mut Output<W>, cell: Cell)
    ensures { Adds W.Sink (escaped_text (cell_text cell)) output.old output.new }
{
    if !cell.is_right() {
        put_allowed(output, cell.character);
        put_marks(output, cell.marks);
    }
}

/// Writes the text of cells.
pub(crate) fn put_cells<W: Sink>(output: &mut Output<W>, cells: &[Cell])
    ensures { Adds W.Sink (escaped_text (flat_map cell_text cells.now)) output.old output.new }
{
    let mut rest = cells;
    'rest: while let Some((first, further)) = rest.split_first() {
        put_cell(output, *first);
        rest = further;
    }
}
