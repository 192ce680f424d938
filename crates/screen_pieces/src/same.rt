//! Whether two screens show the same.
ghost use Rattle.std.specs.Prelude.{◌≡◌, ◌<◌, ℕ, Decides};
ghost use Rattle.ansi_screen.specs.Display.{row_cells};
ghost use Rattle.screen_pieces.specs.Same.{AreSamePlaces, HaveSameModes, ShowSame};

use crate::terminal::Terminal;
use ansi_screen::{Cell, Place, Screen};

/// Whether both rows have the same cells.
fn are_same(a: &[Cell], b: &[Cell]) -> bool
    ensures { Decides result (a.now ≡ b.now) }
{
    ansi_screen::laws::equality();
    a == b
}

/// Whether each row of the one has the cells of the other's.
fn have_same_rows(a: &Screen, b: &Screen) -> bool
    requires { a.now.display.height ≡ b.now.display.height }
    ensures { Decides result ((row : ℕ) → row < a.now.display.height
        → row_cells row a.now.display ≡ row_cells row b.now.display) }
{
    for row in 0..a.rows() {
        if !are_same(a.row(row), b.row(row)) {
            return false;
        }
    }
    true
}

/// Whether both are in one place, with one style and origin mode.
fn are_same_places(a: Place, b: Place) -> bool
    ensures { Decides result (AreSamePlaces a b) }
{
    if a.row != b.row || a.column != b.column || a.is_relative != b.is_relative {
        return false;
    }
    ansi_style::laws::equality();
    a.style == b.style
}

/// Whether the modes are the same.
fn have_same_modes(a: &Screen, b: &Screen) -> bool
    ensures { Decides result (HaveSameModes a.now.display b.now.display) }
{
    a.is_cursor_visible() == b.is_cursor_visible()
        && a.is_alternate() == b.is_alternate()
        && a.wraps() == b.wraps()
        && a.inserts() == b.inserts()
}

impl Terminal {
    ghost use Rattle.screen_pieces.specs.Terminal.{display_of};

    /// Whether it shows what the other one shows: as many columns and rows, the same cells, the cursor, with the style
    /// of what comes next, and modes.
    pub fn shows_same(&self, other: &Terminal) -> bool
        ensures { Decides result (ShowSame (display_of self.now) (display_of other.now)) }
    {
        let (a, b) = (self.screen(), other.screen());
        a.columns() == b.columns()
            && a.rows() == b.rows()
            && are_same_places(a.cursor(), b.cursor())
            && have_same_modes(a, b)
            && have_same_rows(a, b)
    }
}
