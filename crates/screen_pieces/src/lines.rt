//! Rows that left a screen and rows that show, as lines: a row that goes on and the next one are one line.
ghost use Rattle.std.specs.Prelude.{◌≡◌, ◌≤◌};
ghost use Rattle.ansi_screen.specs.Edits.{swapped};
ghost use Rattle.ansi_screen.specs.Leaving.{TakesRows};
ghost use Rattle.ansi_screen.specs.Text.{printed_count, printed_rows};
ghost use Rattle.screen_text.specs.Lines.{showing};

use crate::terminal::Terminal;
use crate::text::TextWriter;
use ansi_screen::{History, LeftOut, Screen, TakeRow, used};

/// Hands the rows on that left, of those that are kept.
fn hand_on_left<R: TakeRow>(history: &History, taker: &mut R)
    ensures { TakesRows R.takes taker.old history.now.rows taker.new }
{
    let (count, _) = history.counts();
    for number in 0..count {
        if let Some((cells, written)) = history.row(number) {
            taker.take_row(cells, written);
        }
    }
}

/// Hands the rows on that show, up to the last in which something was printed.
fn hand_on_printed<R: TakeRow>(screen: &Screen, taker: &mut R)
    ensures { TakesRows R.takes taker.old (printed_rows screen.now.display) taker.new }
{
    let count = screen.used_rows(LeftOut::Unprinted);
    for row in 0..count {
        taker.take_row(screen.row(row), screen.written(row));
    }
}

/// How many rows of the screen that is hidden come up to the last in which something was printed.
fn hidden_count(screen: &Screen) -> usize
    ensures used { result ≡ printed_count (swapped screen.now.display) }
    ensures within { result ≤ screen.now.display.height }
{
    let mut end = 0;
    for row in 0..screen.rows() {
        if used(screen.hidden_row(row), LeftOut::Unprinted) > 0 {
            end = row + 1;
        }
    }
    end
}

/// Hands the rows on of the screen that is hidden, up to the last in which something was printed.
fn hand_on_hidden<R: TakeRow>(screen: &Screen, taker: &mut R)
    ensures { TakesRows R.takes taker.old (printed_rows (swapped screen.now.display)) taker.new }
{
    let count = hidden_count(screen);
    for row in 0..count {
        let cells = screen.hidden_row(row);
        taker.take_row(cells, cells.len());
    }
}

/// Hands the rows on that show at the end of a stream: where the alternate screen does, those of the main one first.
fn hand_on_showing<R: TakeRow>(screen: &Screen, taker: &mut R)
    ensures { TakesRows R.takes taker.old (showing screen.now.display) taker.new }
{
    if screen.is_alternate() {
        hand_on_hidden(screen, taker);
    }
    hand_on_printed(screen, taker);
}

impl Terminal {
    ghost use Rattle.std.specs.Prelude.{IfOk, IfErr, false};
    ghost use Rattle.screen_pieces.specs.Text.{Puts, HasText, LacksRoom};
    ghost use Rattle.screen_pieces.specs.Rows.{rows_numbered, lines_of};

    /// Hands rows on, by a number: 1 for those that left, of which it keeps the last; 2 for these and then those that
    /// show, and where the alternate screen does, those of the main one between them; and any other for those that show.
    /// Of a screen they are those up to the last in which something was printed.
    pub(crate) fn hand_on<R: TakeRow>(&self, which: u8, taker: &mut R)
        ensures { TakesRows R.takes taker.old (rows_numbered which self.now) taker.new }
    {
        match which {
            1 => hand_on_left(self.history(), taker),
            2 => {
                hand_on_left(self.history(), taker);
                hand_on_showing(self.screen(), taker);
            }
            _ => hand_on_printed(self.screen(), taker),
        }
    }

    /// Puts them as lines of text.
    fn put_lines(&self, which: u8, writer: &mut TextWriter)
        requires closed { writer.old.is_open ≡ false }
        ensures { Puts (lines_of which self.now) writer.old writer.new }
    {
        self.hand_on(which, writer);
        writer.put_end();
    }

    /// Writes rows, by a number, as lines of text to the front of the room, and answers how many bytes these have: each
    /// row up to the last cell in which something was printed, and a row that goes on and the next one as one line. 1 is
    /// for the rows that left, of which it keeps the last; 2 for these and then those that show, and where the
    /// alternate screen does, those of the main one between them; any other number for those that show. `Err` has how
    /// many bytes there are, which the room has not; then what stands in the room does not count.
    pub fn lines(&self, which: u8, room: &mut [u8]) -> Result<usize, usize>
        ensures text { IfOk result (HasText (lines_of which self.now) room.old room.new) }
        ensures refused { IfErr result (LacksRoom (lines_of which self.now) room.old) }
    {
        let mut writer = TextWriter::new(room);
        self.put_lines(which, &mut writer);
        writer.answer()
    }
}
