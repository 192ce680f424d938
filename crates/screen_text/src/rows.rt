//! Rows as lines of text, and what writes rows.
ghost use Rattle.std.specs.Prelude.{◌≡◌, ◌≤◌, ℕ, List, length};
ghost use Rattle.anstyle_parse.specs.declared.io.output.Output.{Output as AnOutput};
ghost use Rattle.anstyle_parse.specs.Io.Output.{Adds};
ghost use Rattle.ansi_screen.specs.declared.cell.Cell.{Cell as ACell};
ghost use Rattle.ansi_screen.specs.Grid.{IsBlankFrom};
ghost use Rattle.screen_text.specs.Lines.{row_text, closing};
ghost use Rattle.screen_text.specs.Rows.{WritesRow, WritesCommand, WritesNothing};

use ansi_screen::{Cell, LeftOut, TakeCommand, TakeRow, goes_on, put_cells, used_of_written};
use anstyle_parse::io::{Output, Sink};

/// Takes rows, and writes each to an output as it comes.
pub trait WriteRows<W: Sink>: TakeCommand {
    // The output that it writes to.
    ghost output_in: { Self → AnOutput W };
    // Where it stands between two rows,
    ghost Standing: { Type 0 };

    ghost standing_in: { Self → Standing };
    // what it writes of a row from there, where that leads, and what it writes at the end.
    ghost row_text: { Standing → List ACell → List ℕ };

    ghost after_row: { Standing → List ACell → Standing };

    ghost closing: { Standing → List ℕ };

    // An operating system command leads on without a text.
    ghost after_command: { Standing → ℕ → List (List ℕ) → Standing };

    /// The output that it writes to.
    fn output(&self) -> &Output<W>
        ensures { result.now ≡ output_in self.now };

    /// Ends what the last row left open, and hands the output back.
    fn into_output(self) -> Output<W>
        ensures { Adds W.Sink (closing (standing_in self)) (output_in self) result };

    // By a row that it takes it writes this text; by a command, or by handing on what it holds back, none.
    ghost writes_row: { (old : Self) (row : List ACell) (new : Self) → Self.takes old row new
        → WritesRow W.Sink output_in standing_in row_text after_row old row new };

    ghost writes_command: { (old : Self) (link : ℕ) (parts : List (List ℕ)) (new : Self)
        → Self.takes_command old link parts new
        → WritesCommand W.Sink output_in standing_in after_command old link parts new };

    ghost writes_nothing: { (old new : Self) → Self.passes_on old new
        → WritesNothing W.Sink output_in standing_in old new };
}

/// Writes a row, without the cells at its end where nothing was printed; with a line feed, unless
/// it goes on. Those from `written` on are plain blanks, and are not looked at.
fn put_row<W: Sink>(output: &mut Output<W>, row: &[Cell], written: usize)
    requires within { written ≤ length row.now }
    requires rest { IsBlankFrom written row.now }
    ensures { Adds W.Sink (row_text row.now) output.old output.new }
{
    let end = used_of_written(row, written, LeftOut::Unprinted);
    put_cells(output, &row[..end]);
    if !goes_on(row) {
        output.put_byte(b'\n');
    }
}

/// Writes rows as text: a row that goes on and the next one as one line.
#[derive(Drop)]
pub struct TextRows<W> {
    output: Output<W>,
    /// The last row goes on.
    is_open: bool,
}

impl<W: Sink> TextRows<W> {
    ghost use Rattle.std.specs.Prelude.{false};
    ghost use Rattle.screen_text.specs.Lines.{output_of, is_open};

    /// One that writes to this output, and has taken no row.
    pub fn new(output: Output<W>) -> TextRows<W>
        ensures output { output_of result ≡ output }
        ensures closed { is_open result ≡ false }
    {
        TextRows {
            output,
            is_open: false,
        }
    }
}

impl<W: Sink> TakeRow for TextRows<W> {
    ghost use Rattle.screen_text.specs.Lines.{TakesRow, PassesOn};

    ghost takes = { TakesRow W.Sink };

    ghost passes_on = { PassesOn W.Sink };

    fn take_row(&mut self, row: &[Cell], written: usize) {
        put_row(&mut self.output, row, written);
        self.is_open = goes_on(row);
    }

    fn pass_on(&mut self) {
        self.output.pass_on();
    }
}

/// A command changes nothing.
impl<W: Sink> TakeCommand for TextRows<W> {
    ghost use Rattle.screen_text.specs.Lines.{TakesCommand};

    ghost takes_command = { TakesCommand W.Sink };

    fn take_command(&mut self, _link: u32, _parts: &[&[u8]]) {}
}

/// At the end it ends the last line, where the last row goes on.
impl<W: Sink> WriteRows<W> for TextRows<W> {
    ghost use Rattle.std.specs.Prelude.{Bool};
    ghost use Rattle.screen_text.specs.Lines.{output_of, is_open, row_text_at, after_row, after_command};

    ghost output_in = { output_of };

    ghost Standing = { Bool };

    ghost standing_in = { is_open };

    ghost row_text = { row_text_at };

    ghost after_row = { after_row };

    ghost closing = { closing };

    ghost after_command = { after_command };

    fn output(&self) -> &Output<W> {
        &self.output
    }

    fn into_output(self) -> Output<W> {
        let TextRows {
            mut output,
            is_open,
        } = self;
        if is_open {
            output.put_byte(b'\n');
        }
        output
    }

    ghost writes_row = { λ old row new taken. taken };

    ghost writes_command = { λ old link parts new taken. taken };

    ghost writes_nothing = { λ old new passed. passed };
}
