//! Moves of the cursor, and tabs.
ghost use Rattle.std.specs.Prelude.{◌≡◌, ◌+◌, ◌-◌, ◌<◌, min};
ghost use Rattle.std.specs.Fn.{iterate};
ghost use Rattle.ansi_screen.specs.State.{changed};
ghost use Rattle.ansi_screen.specs.Moves.{to_row, to_column, settled, up, down, to_line, line_of, to_position, tabbed, tabbed_back, with_stop, cleared_stops, column_of};

use super::Display;
use crate::tabs::{columns_before_stop, stop_before};

impl Display {
    /// To a row, at most the last.
    pub(super) fn to_row(&mut self, row: usize)
        ensures { self.new ≡ changed (to_row row) self.old }
    {
        self.cursor.row = row.min(self.cells.height() - 1);
    }

    /// To a column, at most the last.
    pub(super) fn to_column(&mut self, column: usize)
        ensures column { self.new ≡ changed (to_column column) self.old }
        ensures settled { self.new.display.cursor.column < self.new.display.width }
    {
        self.cursor.column = column.min(self.cells.width() - 1);
    }

    /// No wrap is pending any more.
    pub(super) fn settle(&mut self)
        ensures settled { self.new ≡ changed settled self.old }
        ensures column { self.new.display.cursor.column < self.new.display.width }
    {
        let column = self.cursor.column;
        self.to_column(column);
    }

    /// CUU
    pub(super) fn up(&mut self, count: u16)
        ensures { self.new ≡ changed (up count) self.old }
    {
        let row = self.cursor.row;
        let target = row.saturating_sub(usize::from(count));
        let top = self.top;
        if row < top {
            self.to_row(target);
        } else {
            self.to_row(top.max(target));
        }
    }

    /// CUD
    pub(super) fn down(&mut self, count: u16)
        ensures { self.new ≡ changed (down count) self.old }
    {
        let row = self.cursor.row;
        let target = row + usize::from(count);
        let bottom = self.bottom;
        if row < bottom {
            self.to_row(target.min(bottom - 1));
        } else {
            self.to_row(target);
        }
    }

    /// CUF
    pub(super) fn forward(&mut self, count: u16)
        ensures { self.new ≡ changed (to_column (self.old.display.cursor.column + count)) self.old }
    {
        let column = self.cursor.column + usize::from(count);
        self.to_column(column);
    }

    /// CUB
    pub(super) fn back(&mut self, count: u16)
        ensures { self.new ≡ changed (to_column (self.old.display.cursor.column - count)) self.old }
    {
        let column = self.cursor.column.saturating_sub(usize::from(count));
        self.to_column(column);
    }

    /// VPA
    pub(super) fn to_line(&mut self, line: u16)
        ensures { self.new ≡ changed (to_line line) self.old }
    {
        let line = usize::from(line);
        if self.cursor.is_relative {
            let row = (self.top + line).min(self.bottom - 1);
            self.to_row(row);
        } else {
            self.to_row(line);
        }
    }

    /// VPR
    pub(super) fn lines_forward(&mut self, count: u16)
        ensures { self.new ≡ changed (λ d. to_line (line_of d + count) d) self.old }
    {
        let target = self.cursor.row + usize::from(count);
        if self.cursor.is_relative {
            let row = target
                .max(self.top + usize::from(count))
                .min(self.bottom - 1);
            self.to_row(row);
        } else {
            self.to_row(target);
        }
    }

    /// CUP
    pub(super) fn to_position(&mut self, line: u16, column: u16)
        ensures { self.new ≡ changed (to_position line column) self.old }
    {
        self.to_line(line);
        self.to_column(usize::from(column));
    }

    /// HT
    #[tactic(auto, unfolding(crate::specs::Moves::tabbed))]
    pub(super) fn tab(&mut self)
        ensures { self.new ≡ changed tabbed self.old }
    {
        let column = self.cursor.column;
        if column < self.cells.width() {
            let rest = &self.tabs.as_slice()[column + 1..];
            let next = column + 1 + columns_before_stop(rest);
            self.to_column(next);
        }
    }

    /// CHT
    pub(super) fn tab_times(&mut self, count: u16)
        ensures { self.new ≡ changed (iterate tabbed (min count self.old.display.width)) self.old }
    {
        let count = usize::from(count).min(self.cells.width());
        for _done in 0..count {
            self.tab();
        }
    }

    /// To the last stop before the cursor, or to the first column.
    #[tactic(auto, unfolding(crate::specs::Moves::tabbed_back))]
    fn tab_back_once(&mut self)
        ensures { self.new ≡ changed tabbed_back self.old }
    {
        let column = stop_before(self.tabs.as_slice(), self.cursor.column);
        self.to_column(column);
    }

    /// CBT
    pub(super) fn tab_back(&mut self, count: u16)
        ensures { self.new ≡ changed (iterate tabbed_back (min count self.old.display.width)) self.old }
    {
        let count = usize::from(count).min(self.cells.width());
        for _done in 0..count {
            self.tab_back_once();
        }
    }

    /// A stop at the cursor's column, or none.
    pub(super) fn set_stop(&mut self, stops: bool)
        ensures { self.new ≡ changed (with_stop stops) self.old }
    {
        let column = self.cursor.column.min(self.cells.width() - 1);
        self.damage.note_frame();
        self.tabs[column] = stops;
    }

    /// TBC
    pub(super) fn clear_stops(&mut self, kind: u16)
        ensures { self.new ≡ changed (cleared_stops kind) self.old }
    {
        match kind {
            0 => self.set_stop(false),
            3 => {
                self.damage.note_frame();
                self.tabs.as_mut_slice().fill(false);
            }
            _ => {}
        }
    }
}
