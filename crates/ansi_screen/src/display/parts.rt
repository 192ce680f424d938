//! Reads the rest of a display: the hidden screen, saved cursors, margins, tabs and modes.
ghost use Rattle.std.specs.Prelude.{◌≡◌, ◌<◌, ◌*◌, ◌-◌, length, take, drop};
ghost use Rattle.ansi_screen.specs.Display.{IsSized};

use crate::cell::Cell;
use crate::display::Display;
use crate::place::Place;

impl Display {
    /// The cells of a row of the screen that is hidden, counted from 0.
    pub(crate) fn hidden_row(&self, row: usize) -> &[Cell]
        requires { row < self.now.display.height }
        ensures cells { result.now
            ≡ take self.now.display.width (drop (row * self.now.display.width) self.now.display.hidden) }
        ensures columns { length result.now ≡ self.now.display.width }
    {
        self.hidden.row(row)
    }

    /// What DECSC saved on the screen that shows.
    pub(crate) fn saved(&self) -> Place
        ensures { result ≡ self.now.display.saved }
    {
        self.saved
    }

    /// While the alternate screen shows, what is saved on the main one.
    pub(crate) fn hidden_saved(&self) -> Place
        ensures { result ≡ self.now.display.hidden_saved }
    {
        self.hidden_saved
    }

    /// The margins: the row of the upper one, and the row after the lower one.
    pub(crate) fn margins(&self) -> (usize, usize)
        ensures top { result.0 ≡ self.now.display.top }
        ensures bottom { result.1 ≡ self.now.display.bottom }
        ensures sized { IsSized self.now.display }
    {
        (self.top, self.bottom)
    }

    /// For each column, whether a tab stops there.
    pub(crate) fn stops(&self) -> &[bool]
        ensures stops { result.now ≡ self.now.display.tabs }
        ensures sized { IsSized self.now.display }
    {
        self.tabs.as_slice()
    }

    /// DECAWM: a character after the last column goes to the next row.
    pub(crate) fn wraps(&self) -> bool
        ensures { result ≡ self.now.display.wraps }
    {
        self.wraps
    }

    /// IRM: the rest of a row makes room for a character.
    pub(crate) fn inserts(&self) -> bool
        ensures { result ≡ self.now.display.inserts }
    {
        self.inserts
    }

    /// Whether the alternate screen shows.
    pub(crate) fn is_alternate(&self) -> bool
        ensures { result ≡ self.now.display.is_alternate }
    {
        self.is_alternate
    }
}
