//! The cells of a screen.
ghost use Rattle.std.specs.Prelude.{◌≡◌, ◌<◌, ◌≤◌, ◌*◌, ◌/◌, ◌+◌, ◌∷◌, ◌++◌, [], length};
ghost use Rattle.anstyle_parse.specs.Stream.Call.{print};
ghost use Rattle.ansi_screen.specs.Display.{most_columns, most_rows};
ghost use Rattle.screen_draw.specs.Buffers.{cells_of};
ghost use Rattle.screen_draw.specs.Draw.{drawn_character, marks_calls, character_calls, is_erased, is_fresh, first_pen, pen_behind, pen_after, style_calls, there_calls, shown_calls, place_cell_calls, cell_calls, cells_calls};
ghost use Rattle.screen_draw.specs.Drawing.{Draws};

use crate::buffer::Buffer;
use crate::calls::{put_number, put_position, put_style};
use ansi_screen::{Cell, Marks, Part, Screen, is_shown};
use ansi_style::Style;
use anstyle_parse::io::{Output, Sink};

/// What was drawn so far leaves this to the next cell.
#[derive(Clone, Copy)]
pub(crate) struct Pen {
    /// The cursor stands where the next cell is drawn, if that is in the same row.
    pub(crate) is_there: bool,
    /// The style that is selected.
    pub(crate) style: Style,
}

impl Pen {
    /// A plain one that stands elsewhere.
    fn new() -> Pen
        ensures { result ≡ first_pen }
    {
        Pen {
            is_there: false,
            style: Style::default(),
        }
    }
}

/// Whether the cell is as erasing leaves it.
#[tactic(auto, unfolding(crate::specs::Draw::is_erased))]
pub(crate) fn is_erased(cell: Cell) -> bool
    ensures { result ≡ is_erased cell }
{
    matches!(cell.part, Part::Empty)
        && matches!(cell.marks, Marks::Unmarked)
        && cell.style.is_same(&Cell::blank(cell.style).style)
}

/// Whether the cell is as on a new screen.
#[tactic(auto, unfolding(crate::specs::Draw::is_fresh))]
fn is_fresh(cell: &Cell) -> bool
    ensures { result ≡ is_fresh cell.now }
{
    is_erased(*cell) && cell.style.is_same(&Style::default())
}

/// The character; a space for one that shows nothing.
#[tactic(auto, unfolding(crate::specs::Draw::drawn_character))]
fn drawn_character(c: char) -> char
    ensures { result ≡ drawn_character c }
{
    if is_shown(c) { c } else { ' ' }
}

/// Prints a character.
fn put_character<W: Sink>(output: &mut Output<W>, c: char)
    ensures { Draws W.Sink (print (drawn_character c) ∷ []) output.old output.new }
{
    output.put_char(drawn_character(c));
}

/// Prints marks.
fn put_marks<W: Sink>(output: &mut Output<W>, marks: Marks)
    ensures { Draws W.Sink (marks_calls marks) output.old output.new }
{
    match marks {
        Marks::Unmarked => {}
        Marks::One(first) => put_character(output, first),
        Marks::Two(first, second) => {
            put_character(output, first);
            put_character(output, second);
        }
    }
}

/// Prints the cell's character, and its marks.
pub(crate) fn put_marked<W: Sink>(output: &mut Output<W>, cell: Cell)
    ensures { Draws W.Sink (character_calls cell) output.old output.new }
{
    put_character(output, cell.character);
    put_marks(output, cell.marks);
}

/// Selects the style, where it is another.
pub(crate) fn put_style_change<W: Sink>(output: &mut Output<W>, selected: Style, wanted: Style)
    ensures { Draws W.Sink (style_calls selected wanted) output.old output.new }
{
    if !selected.is_same(&wanted) {
        put_style(output, wanted);
    }
}

/// Goes to the place, where it begins a row or the cursor stands elsewhere.
fn put_there<W: Sink>(output: &mut Output<W>, width: usize, place: usize, pen: Pen)
    requires some { 0 < width }
    requires columns { width ≤ most_columns }
    requires rows { place / width < most_rows }
    ensures { Draws W.Sink (there_calls width place pen) output.old output.new }
{
    if !pen.is_there || place % width == 0 {
        put_position(output, place / width, place % width);
    }
}

/// Erases one cell, or prints it.
fn put_shown<W: Sink>(output: &mut Output<W>, cell: Cell)
    ensures { Draws W.Sink (shown_calls cell) output.old output.new }
{
    if is_erased(cell) {
        put_number(output, 1, b'X');
    } else {
        put_marked(output, cell);
    }
}

/// Goes to a place, selects the style and shows the cell.
fn put_drawn<W: Sink>(output: &mut Output<W>, width: usize, place: usize, pen: Pen, cell: Cell)
    requires some { 0 < width }
    requires columns { width ≤ most_columns }
    requires rows { place / width < most_rows }
    ensures { Draws W.Sink (place_cell_calls width place pen cell) output.old output.new }
{
    put_there(output, width, place, pen);
    put_style_change(output, pen.style, cell.style);
    put_shown(output, cell);
}

/// Draws the cell at a place. The answer is the pen after it.
#[tactic(auto, unfolding(crate::specs::Draw::cell_calls, crate::specs::Draw::pen_behind))]
fn put_cell<W: Sink>(
    output: &mut Output<W>,
    width: usize,
    place: usize,
    pen: Pen,
    cell: &Cell,
) -> Pen
    requires some { 0 < width }
    requires columns { width ≤ most_columns }
    requires rows { place / width < most_rows }
    ensures calls { Draws W.Sink (cell_calls width place pen cell.now) output.old output.new }
    ensures pen { result ≡ pen_behind cell.now pen }
{
    if is_fresh(cell) {
        Pen {
            is_there: false,
            ..pen
        }
    } else if cell.is_right() {
        pen
    } else {
        put_drawn(output, width, place, pen, *cell);
        Pen {
            is_there: !is_erased(*cell),
            style: cell.style,
        }
    }
}

/// Draws the cells of a row from the place on where it begins, on a screen that is blank. The answer is the pen after
/// them.
fn put_row<W: Sink>(
    output: &mut Output<W>,
    start: usize,
    width: usize,
    pen: Pen,
    cells: &[Cell],
) -> Pen
    requires some { 0 < width }
    requires columns { width ≤ most_columns }
    requires rows { start + length cells.now ≤ most_rows * width }
    ensures calls { Draws W.Sink (cells_calls width start pen cells.now) output.old output.new }
    ensures pen { result ≡ pen_after pen cells.now }
{
    let mut pen = pen;
    for (column, cell) in cells.iter().enumerate() {
        pen = put_cell(output, width, start + column, pen, cell);
    }
    pen
}

/// Draws the cells of a buffer, row by row, on a screen that is blank.
pub(crate) fn put_cells<W: Sink>(output: &mut Output<W>, screen: &Screen, buffer: Buffer)
    ensures { Draws W.Sink (cells_calls screen.now.display.width 0 first_pen (cells_of buffer screen.now.display))
        output.old output.new }
{
    let width = screen.columns();
    let mut pen = Pen::new();
    for row in 0..screen.rows() {
        pen = put_row(output, row * width, width, pen, buffer.row(screen, row));
    }
}
