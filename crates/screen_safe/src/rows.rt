//! Rows as safe text.
ghost use Rattle.std.specs.Prelude.{◌≤◌, false, length};
ghost use Rattle.ansi_screen.specs.Grid.{IsBlankFrom};
ghost use Rattle.safe_text.specs.Marks.{mark_between};
ghost use Rattle.safe_text.specs.Writer.{Takes};
ghost use Rattle.screen_safe.specs.Characters.{marks_of, cell_characters, cells_marked, row_marked};

use ansi_screen::{Cell, LeftOut, Marks, TakeCommand, TakeRow, goes_on, used_of_written};
use anstyle_parse::io::{CallWriter, Output, Sink, WritingPerformer};
use safe_text::{SafeWriter, is_unseen};
use screen_text::WriteRows;

/// Hands marks on.
fn take_marks<W: Sink>(writer: &mut SafeWriter<W>, marks: Marks)
    ensures { Takes W.Sink writer.old (marks_of marks) writer.new }
{
    match marks {
        Marks::Unmarked => {}
        Marks::One(first) => writer.take(first),
        Marks::Two(first, second) => {
            writer.take(first);
            writer.take(second);
        }
    }
}

/// Hands the character of a cell on, unless it is a right half, and its marks.
fn take_cell<W: Sink>(writer: &mut SafeWriter<W>, cell: Cell)
    ensures { Takes W.Sink writer.old (cell_characters cell) writer.new }
{
    if !cell.is_right() {
        writer.take(cell.character);
        take_marks(writer, cell.marks);
    }
}

/// Marks that text is hidden that comes next, or that it is not, where it was otherwise before.
#[inline]
fn take_mark<W: Sink>(writer: &mut SafeWriter<W>, before: bool, hidden: bool)
    ensures { Takes W.Sink writer.old (mark_between before hidden) writer.new }
{
    if hidden != before {
        writer.mark(hidden);
    }
}

/// The same of cells, one after another, with marks where hidden text begins and ends.
fn take_cells<W: Sink>(writer: &mut SafeWriter<W>, cells: &[Cell])
    ensures { Takes W.Sink writer.old (cells_marked false cells.now) writer.new }
{
    let mut is_hidden = false;
    let mut rest = cells;
    'rest: while let Some((first, further)) = rest.split_first() {
        let hidden = is_unseen(&first.style);
        take_mark(writer, is_hidden, hidden);
        is_hidden = hidden;
        take_cell(writer, *first);
        rest = further;
    }
    take_mark(writer, is_hidden, false);
}

/// The characters of a row, without the cells at its end where nothing was printed; with a line feed, unless it goes
/// on. Those from `written` on are plain blanks, and are not looked at.
fn take_characters<W: Sink>(writer: &mut SafeWriter<W>, row: &[Cell], written: usize)
    requires within { written ≤ length row.now }
    requires rest { IsBlankFrom written row.now }
    ensures { Takes W.Sink writer.old (row_marked row.now) writer.new }
{
    let end = used_of_written(row, written, LeftOut::Unprinted);
    take_cells(writer, &row[..end]);
    if !goes_on(row) {
        writer.take('\n');
    }
}

/// Writes rows as safe text: a row that goes on and the next one as one line.
#[derive(Drop)]
pub struct SafeRows<W> {
    writer: SafeWriter<W>,
    /// The last row goes on.
    is_open: bool,
}

impl<W: Sink> SafeRows<W> {
    ghost use Rattle.std.specs.Prelude.{◌≡◌, [], false};
    ghost use Rattle.screen_safe.specs.Writer.{output_of, standing_of, standing_after};

    /// One that writes to this output, and has taken no row.
    pub fn new(output: Output<W>) -> SafeRows<W>
        ensures output { output_of result ≡ output }
        ensures new { standing_of result ≡ standing_after [] false }
    {
        SafeRows {
            writer: SafeWriter::over(output),
            is_open: false,
        }
    }
}

impl<W: Sink> TakeRow for SafeRows<W> {
    ghost use Rattle.screen_safe.specs.Writer.{TakesRow, PassesOn};

    ghost takes = { TakesRow W.Sink };

    ghost passes_on = { PassesOn W.Sink };

    fn take_row(&mut self, row: &[Cell], written: usize) {
        take_characters(&mut self.writer, row, written);
        self.is_open = goes_on(row);
    }

    fn pass_on(&mut self) {
        self.writer.pass_on();
    }
}

/// A command changes nothing.
impl<W: Sink> TakeCommand for SafeRows<W> {
    ghost use Rattle.screen_safe.specs.Writer.{TakesCommand};

    ghost takes_command = { TakesCommand W.Sink };

    fn take_command(&mut self, _link: u32, _parts: &[&[u8]]) {}
}

/// At the end it ends the last line, where the last row goes on, and writes what still waits.
impl<W: Sink> WriteRows<W> for SafeRows<W> {
    ghost use Rattle.screen_safe.specs.Writer.{Between, output_of, standing_of, row_safe, after_row, after_command, closing_safe};

    ghost output_in = { output_of };

    ghost Standing = { Between };

    ghost standing_in = { standing_of };

    ghost row_text = { row_safe };

    ghost after_row = { after_row };

    ghost closing = { closing_safe };

    ghost after_command = { after_command };

    fn output(&self) -> &Output<W> {
        self.writer.output()
    }

    fn into_output(self) -> Output<W> {
        let SafeRows {
            mut writer,
            is_open,
        } = self;
        if is_open {
            writer.take('\n');
        }
        writer.into_output()
    }

    ghost writes_row = { λ old row new taken. taken };

    ghost writes_command = { λ old link parts new taken. taken };

    ghost writes_nothing = { λ old new passed. passed };
}
