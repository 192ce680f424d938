//! What a screen shows, as plain records and as text.
ghost use Rattle.std.specs.Prelude.{◌≡◌, ◌<◌, ◌≤◌, ◌⊎◌, length, replicate, IfOk, IfErr, IfSome, IfNone};
ghost use Rattle.std.specs.Bool.{OnTrue, OnFalse};
ghost use Rattle.ansi_screen.specs.Text.{row_text, text_of};
ghost use Rattle.ansi_style.specs.Bytes.{style_of};
ghost use Rattle.screen_pieces.specs.Text.{HasText, LacksRoom, IsNotRead, text_of_row, text_of_part, LacksRow, LacksPart, LacksCell};
ghost use Rattle.screen_pieces.specs.History.{kept_row, text_of_kept, LacksKept};

use crate::cell::{CellBytes, put_cell, put_cells, put_plain};
use crate::modes::ModeBytes;
use crate::style::StyleRecord;
use crate::terminal::Terminal;
use crate::text::TextWriter;
use ansi_screen::Cell;
use ansi_style::bytes::StyleBytes;

/// Writes the text of cells without the blanks at their end.
fn put_text(cells: &[Cell], room: &mut [u8]) -> Result<usize, usize>
    ensures text { IfOk result (HasText (row_text cells.now) room.old room.new) }
    ensures refused { IfErr result (LacksRoom (row_text cells.now) room.old) }
{
    let mut writer = TextWriter::new(room);
    writer.put_row(cells);
    writer.answer()
}

impl Terminal {
    ghost use Rattle.screen_pieces.specs.Terminal.{display_of, history_of, asked_of, HasCell, HasRow, HasKeptRow};
    ghost use Rattle.screen_pieces.specs.Modes.{HasModes};
    ghost use Rattle.screen_pieces.specs.Terminal.{CanHaveChanged};

    /// How many columns and rows it has.
    pub fn size(&self) -> (usize, usize)
        ensures columns { result.0 ≡ (display_of self.now).width }
        ensures rows { result.1 ≡ (display_of self.now).height }
    {
        (self.screen().columns(), self.screen().rows())
    }

    /// The row and the column of the cursor, counted from 0. The column is the number of columns where the last one was
    /// printed and a wrap is pending.
    pub fn cursor(&self) -> (usize, usize)
        ensures row { result.0 ≡ (display_of self.now).cursor.row }
        ensures column { result.1 ≡ (display_of self.now).cursor.column }
    {
        let place = self.screen().cursor();
        (place.row, place.column)
    }

    /// The style of what comes next.
    pub fn style(&self) -> StyleRecord
        ensures style { style_of result.bytes ≡ (display_of self.now).cursor.style }
        ensures reserved { result.reserved ≡ replicate 8 0 }
    {
        StyleRecord::of(StyleBytes::of(self.screen().cursor().style))
    }

    /// Its modes, and what was asked for.
    pub fn modes(&self) -> ModeBytes
        ensures { HasModes result (display_of self.now) (asked_of self.now) }
    {
        ModeBytes::of(self.screen(), self.asked())
    }

    /// The cell of a row and a column, counted from 0; `None` outside of the screen.
    pub fn cell(&self, row: usize, column: usize) -> Option<CellBytes>
        ensures none { IfNone result (((display_of self.now).height ≤ row) ⊎ ((display_of self.now).width ≤ column)) }
        ensures cell { IfSome result (λ bytes. HasCell row column bytes self.now) }
    {
        if self.screen().rows() <= row || self.screen().columns() <= column {
            return None;
        }
        let cells = self.screen().row(row);
        Some(CellBytes::of(cells[column]))
    }

    /// Writes the cell of a row and a column, counted from 0; false outside of the screen, and nothing is written.
    pub fn put_cell(&self, row: usize, column: usize, room: &mut CellBytes) -> bool
        ensures cell { OnTrue result (HasCell row column room.new self.now) }
        ensures refused { OnFalse result (room.new ≡ room.old) }
        ensures lacking { OnFalse result (LacksCell row column (display_of self.now)) }
    {
        if self.screen().rows() <= row || self.screen().columns() <= column {
            return false;
        }
        put_cell(&self.screen().row(row)[column], room);
        true
    }

    /// Writes the cell as [`Terminal::put_cell`] does, where that is soon done: where it has no marks, the terminal's
    /// own background, and a foreground that has a number at most. False anywhere else, and nothing is written.
    #[inline(always)]
    pub fn put_plain_cell(&self, row: usize, column: usize, room: &mut CellBytes) -> bool
        ensures cell { OnTrue result (HasCell row column room.new self.now) }
        ensures refused { OnFalse result (room.new ≡ room.old) }
    {
        if self.screen().rows() <= row || self.screen().columns() <= column {
            return false;
        }
        put_plain(&self.screen().row(row)[column], room)
    }

    /// Writes the cells of a row, counted from 0, to the front of the room; false, where there is no such row or
    /// the room has fewer cells than the screen columns, and nothing is written.
    pub fn put_row(&self, row: usize, room: &mut [CellBytes]) -> bool
        ensures row { OnTrue result (HasRow row room.old room.new self.now) }
        ensures refused { OnFalse result (room.new ≡ room.old) }
        ensures lacking { OnFalse result
            (LacksRow row (display_of self.now) ⊎ (length room.old < (display_of self.now).width)) }
    {
        if self.screen().rows() <= row || room.len() < self.screen().columns() {
            return false;
        }
        put_cells(self.screen().row(row), room);
        true
    }

    /// The columns of a row, counted from 0, that can have changed since that was last forgotten, or since the screen
    /// was made, and then all: from the first answer up to the second. They are those that were written, and one on
    /// each side. `None` where there is no such row.
    pub fn changed(&self, row: usize) -> Option<(usize, usize)>
        ensures none { IfNone result ((display_of self.now).height ≤ row) }
        ensures columns { IfSome result (λ columns. CanHaveChanged row columns.0 columns.1 self.now) }
    {
        if self.screen().rows() <= row {
            return None;
        }
        Some(self.screen().changed(row))
    }

    /// Writes the text of a row, counted from 0, without the blanks at its end to the front of the room, and answers
    /// how many bytes it has. `Err` has 0 where there is no such row, and else how many bytes the text has, which the
    /// room has not; then what stands in the room does not count.
    pub fn row_text(&self, row: usize, room: &mut [u8]) -> Result<usize, usize>
        ensures text { IfOk result (HasText (text_of_row row (display_of self.now)) room.old room.new) }
        ensures refused { IfErr result
            (IsNotRead (LacksRow row (display_of self.now)) (text_of_row row (display_of self.now)) room.old) }
    {
        if self.screen().rows() <= row {
            return Err(0);
        }
        put_text(self.screen().row(row), room)
    }

    /// The same with the cells of a row from the column `start` up to the column `end`, blanks too. `Err` also has 0
    /// where there are no such columns.
    pub fn part_text(
        &self,
        row: usize,
        start: usize,
        end: usize,
        room: &mut [u8],
    ) -> Result<usize, usize>
        ensures text { IfOk result (HasText (text_of_part row start end (display_of self.now)) room.old room.new) }
        ensures refused { IfErr result (IsNotRead (LacksPart row start end (display_of self.now))
            (text_of_part row start end (display_of self.now)) room.old) }
    {
        if self.screen().rows() <= row || end < start || self.screen().columns() < end {
            return Err(0);
        }
        let mut writer = TextWriter::new(room);
        writer.put_cells(&self.screen().row(row)[start..end]);
        writer.answer()
    }

    /// The same with all of the screen: each row without the blanks at its end, and a line feed, without the blank rows
    /// at the end.
    pub fn text(&self, room: &mut [u8]) -> Result<usize, usize>
        ensures text { IfOk result (HasText (text_of (display_of self.now)) room.old room.new) }
        ensures refused { IfErr result (LacksRoom (text_of (display_of self.now)) room.old) }
    {
        let mut writer = TextWriter::new(room);
        writer.put_screen(self.screen());
        writer.answer()
    }

    /// How many of the rows that left it are kept, and how many have left in all.
    pub fn history_counts(&self) -> (usize, usize)
        ensures kept { result.0 ≡ length (history_of self.now).rows }
        ensures left { result.1 ≡ (history_of self.now).left }
    {
        self.history().counts()
    }

    /// As [`Terminal::put_row`], of a row that left: of those that are kept the oldest is the first, 0.
    pub fn put_history_row(&self, number: usize, room: &mut [CellBytes]) -> bool
        ensures row { OnTrue result (HasKeptRow number room.old room.new (history_of self.now)) }
        ensures refused { OnFalse result (room.new ≡ room.old) }
        ensures lacking { OnFalse result (LacksKept number (history_of self.now)
            ⊎ (length room.old < length (kept_row number (history_of self.now)))) }
    {
        match self.history_row(number) {
            None => false,
            Some(cells) => {
                if room.len() < cells.len() {
                    return false;
                }
                put_cells(cells, room);
                true
            }
        }
    }

    /// The cells of a row that left, of those that are kept.
    fn history_row(&self, number: usize) -> Option<&[Cell]>
        ensures none { IfNone result (length (history_of self.now).rows ≤ number) }
        ensures within { IfSome result (λ cells. number < length (history_of self.now).rows) }
        ensures cells { IfSome result (λ cells. cells.now ≡ kept_row number (history_of self.now)) }
    {
        let (cells, _) = self.history().row(number)?;
        Some(cells)
    }

    /// As [`Terminal::row_text`], of a row that left.
    pub fn history_text(&self, number: usize, room: &mut [u8]) -> Result<usize, usize>
        ensures text { IfOk result (HasText (text_of_kept number (history_of self.now)) room.old room.new) }
        ensures refused { IfErr result (IsNotRead (LacksKept number (history_of self.now))
            (text_of_kept number (history_of self.now)) room.old) }
    {
        match self.history_row(number) {
            None => Err(0),
            Some(cells) => put_text(cells, room),
        }
    }
}
