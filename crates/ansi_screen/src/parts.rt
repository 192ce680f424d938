//! All of a screen, as a program reads it that draws it elsewhere.
ghost use Rattle.std.specs.Prelude.{◌≡◌, ◌<◌, ◌*◌, length, take, drop};
ghost use Rattle.ansi_screen.specs.Display.{IsSized};

use crate::cell::Cell;
use crate::place::Place;
use crate::screen::Screen;

impl Screen {
    /// The cells of a row, counted from 0, of the screen that is hidden: of the main one, while the alternate one
    /// shows; else blanks.
    pub fn hidden_row(&self, row: usize) -> &[Cell]
        requires { row < self.now.display.height }
        ensures cells { result.now
            ≡ take self.now.display.width (drop (row * self.now.display.width) self.now.display.hidden) }
        ensures columns { length result.now ≡ self.now.display.width }
    {
        self.display().hidden_row(row)
    }

    /// What DECSC saved on the screen that shows.
    pub fn saved(&self) -> Place
        ensures { result ≡ self.now.display.saved }
    {
        self.display().saved()
    }

    /// While the alternate screen shows, what is saved on the main one.
    pub fn hidden_saved(&self) -> Place
        ensures { result ≡ self.now.display.hidden_saved }
    {
        self.display().hidden_saved()
    }

    /// The margins (DECSTBM), counted from 0: the row of the upper one, and the row after the lower one.
    pub fn margins(&self) -> (usize, usize)
        ensures top { result.0 ≡ self.now.display.top }
        ensures bottom { result.1 ≡ self.now.display.bottom }
        ensures sized { IsSized self.now.display }
    {
        self.display().margins()
    }

    /// For each column, whether a tab stops there.
    pub fn stops(&self) -> &[bool]
        ensures stops { result.now ≡ self.now.display.tabs }
        ensures sized { IsSized self.now.display }
    {
        self.display().stops()
    }

    /// DECAWM: a character after the last column goes to the next row.
    pub fn wraps(&self) -> bool
        ensures { result ≡ self.now.display.wraps }
    {
        self.display().wraps()
    }

    /// IRM: the rest of a row makes room for a character.
    pub fn inserts(&self) -> bool
        ensures { result ≡ self.now.display.inserts }
    {
        self.display().inserts()
    }

    /// Whether the alternate screen shows.
    pub fn is_alternate(&self) -> bool
        ensures { result ≡ self.now.display.is_alternate }
    {
        self.display().is_alternate()
    }
}
