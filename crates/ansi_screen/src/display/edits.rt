//! Edits of cells.
ghost use Rattle.std.specs.Prelude.{◌≡◌, ◌+◌, ◌*◌, ◌<◌, ◌≤◌, length, min};
ghost use Rattle.ansi_screen.specs.Cells.{going_on, within, erased, deleted, inserted};
ghost use Rattle.ansi_screen.specs.Display.{here, row_start, row_end};
ghost use Rattle.ansi_screen.specs.Moves.{settled};
ghost use Rattle.ansi_screen.specs.History.{with_left};
ghost use Rattle.ansi_screen.specs.State.{changed, stepped};
ghost use Rattle.ansi_screen.specs.Text.{first_rows, printed_rows};
ghost use Rattle.ansi_screen.specs.Edits.{with_cells, space, erased_cells, row_goes_on, row_going_on, row_above_ended, erases_all, erases_from_row, erases_first, erased_part, erased_display, erased_line, erased_characters, deleted_characters, inserted_characters, rows_up, rows_down, swapped, scrolled_up, scrolled_down, inserted_lines, deleted_lines, index, reverse_index};

use super::Display;
use crate::runs::goes_on;
use crate::text::LeftOut;

/// The number of ED that erases all of a screen, wherever the cursor is.
const ALL: u16 = 2;

impl Display {
    /// Where the first cell of the cursor's row is erased, the row above no longer goes on in it.
    fn end_row_above(&mut self, is_begun_anew: bool)
        ensures { self.new ≡ changed (row_above_ended is_begun_anew) self.old }
    {
        let row = self.cursor.row;
        if is_begun_anew && 0 < row {
            self.set_row_goes_on(row - 1, false);
        }
    }

    /// Whether ED erases the first cell of the cursor's row, and leaves the row above.
    #[tactic(auto, unfolding(crate::specs::Edits::erases_from_row))]
    fn erases_from_row(&self, kind: u16) -> bool
        ensures { result ≡ erases_from_row kind self.now.display }
    {
        kind == 0 && self.cursor.column == 0
    }

    /// Whether ED erases all of the screen, from its first cell on.
    #[tactic(auto, unfolding(crate::specs::Edits::erases_all))]
    fn erases_all(&self, kind: u16) -> bool
        ensures { result ≡ erases_all kind self.now.display }
    {
        kind == ALL || (kind == 0 && (self.cursor.row == 0 && self.cursor.column == 0))
    }

    /// ED
    pub(super) fn erase_display(&mut self, kind: u16)
        requires { self.old.display.cursor.column < self.old.display.width }
        ensures { self.new ≡ stepped (erased_display kind) self.old }
    {
        if self.erases_all(kind) && !self.is_alternate {
            self.hand_out_printed();
        }
        self.erase_in_place(kind);
    }

    /// The same, where the rows that are kept have left.
    fn erase_in_place(&mut self, kind: u16)
        requires { self.old.display.cursor.column < self.old.display.width }
        ensures { self.new ≡ changed (λ d. erased_part kind 0 (length d.cells)
            (row_above_ended (erases_from_row kind d) d)) self.old }
    {
        let is_begun_anew = self.erases_from_row(kind);
        self.end_row_above(is_begun_anew);
        self.erase_part_of_display(kind);
    }

    /// The rows up to the last in which something was printed leave, where some are kept: all is to be erased then.
    #[tactic(auto, using(crate::proofs::LeftLemmas::left_none))]
    pub(super) fn hand_out_printed(&mut self)
        ensures left { self.new ≡ record self.old {
          display = with_cells self.new.display.cells self.old.display;
          history = with_left (printed_rows self.old.display) self.old.history;
        } }
        ensures length { length self.new.display.cells ≡ length self.old.display.cells }
    {
        if self.history.is_some() {
            let count = self.used_rows(LeftOut::Unprinted);
            self.hand_out(count);
        }
    }

    /// The first rows leave, and are kept; blank ones take their places.
    fn hand_out(&mut self, count: usize)
        requires { count ≤ self.old.display.height }
        ensures left { self.new ≡ record self.old {
          display = with_cells self.new.display.cells self.old.display;
          history = with_left (first_rows count self.old.display) self.old.history;
        } }
        ensures length { length self.new.display.cells ≡ length self.old.display.cells }
    {
        let style = self.cursor.style;
        // (for the proof: the cells fill the rows, now and after the change below)
        let _ = self.cells.width();
        self.damage.note_rows(0, count);
        self.cells.leave(count, style, &mut self.history);
        let _ = self.cells.width();
    }

    /// The cells of the main and of the alternate screen change places; all else stays.
    pub(crate) fn swap_screens(&mut self)
        ensures { self.new ≡ changed swapped self.old }
    {
        self.damage.note_all();
        self.hidden.swap(&mut self.cells);
    }

    /// The same, where the row above ends.
    #[tactic(auto, unfolding(crate::specs::Edits::erased_part))]
    fn erase_part_of_display(&mut self, kind: u16)
        requires { self.old.display.cursor.column < self.old.display.width }
        ensures { self.new ≡ changed (λ d. erased_part kind 0 (length d.cells) d) self.old }
    {
        match kind {
            0 => self.erase_from_cursor(),
            1 => self.erase_to_cursor(),
            _ => self.erase_all(),
        }
    }

    /// From the cursor to the end of the screen.
    fn erase_from_cursor(&mut self)
        requires { self.old.display.cursor.column < self.old.display.width }
        ensures { self.new ≡ changed (λ d. erased_cells (here d) (length d.cells) d) self.old }
    {
        let (row, column) = (self.cursor.row, self.cursor.column);
        // (for the proof as well: no row begins with a right half)
        let width = self.cells.width();
        let height = self.cells.height();
        self.erase_columns(column, width);
        self.clear_rows(row + 1, height);
    }

    /// From the beginning of the screen to the cursor, and there.
    fn erase_to_cursor(&mut self)
        requires { self.old.display.cursor.column < self.old.display.width }
        ensures { self.new ≡ changed (λ d. erased_cells 0 (here d + 1) d) self.old }
    {
        let (row, column) = (self.cursor.row, self.cursor.column);
        // (for the proof: no row begins with a right half)
        let _ = self.cells.width();
        self.erase_columns(0, column + 1);
        self.clear_rows(0, row);
    }

    /// All of the screen.
    fn erase_all(&mut self)
        ensures { self.new ≡ changed (λ d. erased_cells 0 (length d.cells) d) self.old }
    {
        let style = self.cursor.style;
        // (for the proof: the cells fill the rows, now and after the change below)
        let _ = self.cells.width();
        let height = self.cells.height();
        self.damage.note_rows(0, height);
        self.cells.erase_all(style);
        let _ = self.cells.width();
    }

    /// The rows from `first` up to `last` are blank.
    fn clear_rows(&mut self, first: usize, last: usize)
        requires order { first ≤ last }
        requires within { last ≤ self.old.display.height }
        ensures { self.new ≡ changed (λ d.
            with_cells (within (first * d.width) (last * d.width) (erased (space d)) d.cells) d) self.old }
    {
        let style = self.cursor.style;
        // (for the proof: the cells fill the rows, now and after the change below)
        let _ = self.cells.width();
        self.damage.note_rows(first, last);
        self.cells.fill_rows(first, last, style);
        let _ = self.cells.width();
    }

    /// From a column of the cursor's row up to another.
    fn erase_columns(&mut self, start: usize, end: usize)
        requires start { start < self.old.display.width }
        requires order { start ≤ end }
        requires within { end ≤ self.old.display.width }
        ensures { self.new ≡ changed (λ d. erased_cells (row_start d + start) (row_start d + end) d) self.old }
    {
        let row = self.cursor.row;
        let style = self.cursor.style;
        // (for the proof: no row begins with a right half)
        let _ = self.cells.width();
        self.damage.note(row, start, end);
        self.cells.erase(row, start, end, style);
        // (for the proof: the cells fill the rows)
        let _ = self.cells.width();
    }

    /// Whether EL erases the first cell of the cursor's row.
    #[tactic(auto, unfolding(crate::specs::Edits::erases_first))]
    fn erases_first(&self, kind: u16) -> bool
        ensures { result ≡ erases_first kind self.now.display }
    {
        kind != 0 || self.cursor.column == 0
    }

    /// EL
    #[tactic(auto, unfolding(crate::specs::Edits::erased_line))]
    pub(super) fn erase_line(&mut self, kind: u16)
        requires { self.old.display.cursor.column < self.old.display.width }
        ensures { self.new ≡ changed (erased_line kind) self.old }
    {
        let erases_first = self.erases_first(kind);
        self.end_row_above(erases_first);
        self.erase_part_of_row(kind);
    }

    /// The same, where the row above ends.
    #[tactic(auto, unfolding(crate::specs::Edits::erased_part))]
    fn erase_part_of_row(&mut self, kind: u16)
        requires { self.old.display.cursor.column < self.old.display.width }
        ensures { self.new ≡ changed (λ d. erased_part kind (row_start d) (row_end d) d) self.old }
    {
        let column = self.cursor.column;
        let width = self.cells.width();
        match kind {
            0 => self.erase_columns(column, width),
            1 => self.erase_columns(0, column + 1),
            _ => self.erase_columns(0, width),
        }
    }

    /// ECH
    #[tactic(auto, unfolding(crate::specs::Edits::erased_characters))]
    pub(super) fn erase_characters(&mut self, count: u16)
        requires { self.old.display.cursor.column < self.old.display.width }
        ensures { self.new ≡ changed (erased_characters count) self.old }
    {
        let column = self.cursor.column;
        let end = self.cells.width().min(column + usize::from(count));
        self.erase_columns(column, end);
    }

    /// Whether the cursor's row goes on in the next.
    pub(super) fn goes_on(&self) -> bool
        ensures { result ≡ row_goes_on self.now.display }
    {
        goes_on(self.row(self.cursor.row))
    }

    /// Says whether the cursor's row goes on in the next.
    pub(super) fn set_goes_on(&mut self, on: bool)
        ensures { self.new ≡ changed (row_going_on on) self.old }
    {
        let row = self.cursor.row;
        self.set_row_goes_on(row, on);
    }

    /// Says whether a row goes on in the next. Mostly it is so already.
    fn set_row_goes_on(&mut self, row: usize, on: bool)
        requires { row < self.old.display.height }
        ensures { self.new ≡ changed (λ d. with_cells (going_on on (row * d.width + d.width) d.cells) d) self.old }
    {
        // (for the proof as well: no row begins with a right half)
        let width = self.cells.width();
        if self.cells.set_goes_on(row, on) {
            self.damage.note(row, width - 1, width);
        }
    }

    /// DCH
    #[tactic(auto, unfolding(crate::specs::Edits::deleted_characters))]
    pub(super) fn delete_characters(&mut self, count: u16)
        requires { self.old.display.cursor.column < self.old.display.width }
        ensures { self.new ≡ changed (deleted_characters count) self.old }
    {
        self.set_goes_on(false);
        self.delete_cells(usize::from(count));
    }

    /// The same, where the row ends.
    fn delete_cells(&mut self, count: usize)
        requires { self.old.display.cursor.column < self.old.display.width }
        ensures { self.new ≡ changed (λ d. with_cells (deleted count (here d) (row_end d) (space d) d.cells) d)
            self.old }
    {
        let (row, column) = (self.cursor.row, self.cursor.column);
        let style = self.cursor.style;
        // (for the proof as well: no row begins with a right half)
        let width = self.cells.width();
        self.damage.note(row, column, width);
        self.cells.delete(row, column, count, style);
        // (for the proof: the cells fill the rows)
        let _ = self.cells.width();
    }

    /// ICH
    #[tactic(auto, unfolding(crate::specs::Edits::inserted_characters))]
    pub(super) fn insert_characters(&mut self, count: u16)
        requires { self.old.display.cursor.column < self.old.display.width }
        ensures cells { self.new ≡ changed (inserted_characters count) self.old }
        ensures width { self.new.display.width ≡ self.old.display.width }
        ensures cursor { self.new.display.cursor ≡ self.old.display.cursor }
    {
        self.set_goes_on(false);
        self.insert_cells(usize::from(count));
    }

    /// The same, where the row ends.
    pub(super) fn insert_cells(&mut self, count: usize)
        requires { self.old.display.cursor.column < self.old.display.width }
        ensures { self.new ≡ changed (λ d. with_cells (inserted count (here d) (row_end d) (space d) d.cells) d)
            self.old }
    {
        let (row, column) = (self.cursor.row, self.cursor.column);
        let style = self.cursor.style;
        // (for the proof as well: no row begins with a right half)
        let width = self.cells.width();
        self.damage.note(row, column, width);
        self.cells.insert(row, column, count, style);
        // (for the proof: the cells fill the rows)
        let _ = self.cells.width();
    }

    /// The rows from `first` up to `last` move up.
    #[tactic(auto, unfolding(crate::specs::Edits::rows_up))]
    fn rows_up(&mut self, count: u16, first: usize, last: usize)
        requires order { first ≤ last }
        requires within { last ≤ self.old.display.height }
        ensures { self.new ≡ changed (rows_up count first last) self.old }
    {
        let style = self.cursor.style;
        // (for the proof: the cells fill the rows, now and after the change below)
        let _ = self.cells.width();
        self.damage.note_rows(first, last);
        self.cells.move_back(first, last, usize::from(count), style);
        let _ = self.cells.width();
    }

    /// The rows from `first` up to `last` move down.
    #[tactic(auto, unfolding(crate::specs::Edits::rows_down))]
    fn rows_down(&mut self, count: u16, first: usize, last: usize)
        requires order { first ≤ last }
        requires within { last ≤ self.old.display.height }
        ensures { self.new ≡ changed (rows_down count first last) self.old }
    {
        let style = self.cursor.style;
        // (for the proof: the cells fill the rows, now and after the change below)
        let _ = self.cells.width();
        self.damage.note_rows(first, last);
        self.cells.move_on(first, last, usize::from(count), style);
        let _ = self.cells.width();
    }

    /// SU
    #[tactic(auto, unfolding(crate::specs::Edits::left_by_scroll))]
    pub(super) fn scroll_up(&mut self, count: u16)
        ensures { self.new ≡ stepped (scrolled_up count) self.old }
    {
        let (top, bottom) = (self.top, self.bottom);
        if top == 0 && !self.is_alternate {
            self.rows_out(count);
        } else {
            self.rows_up(count, top, bottom);
        }
    }

    /// The rows within the margins move up, and those that leave at the top are kept.
    #[tactic(auto, unfolding(crate::specs::Edits::rows_up))]
    fn rows_out(&mut self, count: u16)
        ensures { self.new ≡ record self.old {
          display = rows_up count 0 self.old.display.bottom self.old.display;
          history = with_left (first_rows (min count self.old.display.bottom) self.old.display) self.old.history;
        } }
    {
        let style = self.cursor.style;
        let bottom = self.bottom;
        // (for the proof: the cells fill the rows, now and after the change below)
        let _ = self.cells.width();
        self.damage.note_rows(0, bottom);
        self.cells
            .scroll_out(bottom, usize::from(count), style, &mut self.history);
        let _ = self.cells.width();
    }

    /// SD
    pub(super) fn scroll_down(&mut self, count: u16)
        ensures { self.new ≡ changed (scrolled_down count) self.old }
    {
        let (top, bottom) = (self.top, self.bottom);
        self.rows_down(count, top, bottom);
    }

    /// IL
    #[tactic(auto, unfolding(crate::specs::Edits::inserted_lines))]
    pub(super) fn insert_lines(&mut self, count: u16)
        ensures { self.new ≡ changed (inserted_lines count) self.old }
    {
        let (row, bottom) = (self.cursor.row, self.bottom);
        if self.top <= row && row < bottom {
            self.rows_down(count, row, bottom);
            self.to_column(0);
        }
    }

    /// DL
    #[tactic(auto, unfolding(crate::specs::Edits::deleted_lines))]
    pub(super) fn delete_lines(&mut self, count: u16)
        ensures { self.new ≡ changed (deleted_lines count) self.old }
    {
        let (row, bottom) = (self.cursor.row, self.bottom);
        if self.top <= row && row < bottom {
            self.rows_up(count, row, bottom);
            self.to_column(0);
        }
    }

    /// IND
    #[tactic(auto, unfolding(crate::specs::Edits::index))]
    pub(super) fn index(&mut self)
        ensures { self.new ≡ stepped index self.old }
    {
        let next = self.cursor.row + 1;
        if next == self.bottom {
            self.scroll_up(1);
        } else {
            self.to_row(next);
        }
    }

    /// RI
    #[tactic(auto, unfolding(crate::specs::Edits::reverse_index))]
    pub(super) fn reverse_index(&mut self)
        ensures { self.new ≡ changed reverse_index self.old }
    {
        let row = self.cursor.row;
        if row == self.top {
            self.scroll_down(1);
        } else {
            self.to_row(row.saturating_sub(1));
        }
    }
}
