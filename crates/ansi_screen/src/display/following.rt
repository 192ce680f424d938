//! What can have changed of a display, and one that becomes as another is.
ghost use Rattle.std.specs.Prelude.{◌≡◌, ◌<◌, ◌≤◌, ◌⊎◌, ℕ, false};
ghost use Rattle.ansi_screen.specs.Display.{picture, row_cells};
ghost use Rattle.ansi_screen.specs.State.{as_shown, shown_cells};
ghost use Rattle.ansi_screen.specs.Following.{following, IsShownOf, HasSizeOf, with_cells_of, with_cursor_of, with_frame_of};

use crate::display::Display;

impl Display {
    ghost use Rattle.ansi_screen.specs.Damage.{KeepsColumns};

    /// Forgets what can have changed: as it is now, it counts as shown.
    pub(crate) fn forget(&mut self)
        ensures { self.new ≡ as_shown self.old }
    {
        let places = (self.saved, self.hidden_saved);
        let margins = (self.top, self.bottom);
        let (cells, hidden, tabs) = (&self.cells, &self.hidden, &self.tabs);
        let (damage, is_alternate) = (&mut self.damage, self.is_alternate);
        self.shown = damage.forget(cells, hidden, tabs, places, margins, is_alternate);
    }

    /// The rows outside which no cell can have changed: from the first answer up to the second.
    pub(crate) fn changed_rows(&self) -> (usize, usize)
        ensures order { result.0 ≤ result.1 }
        ensures within { result.1 ≤ self.now.display.height }
        ensures kept { (row : ℕ) → row < self.now.display.height → (row < result.0) ⊎ (result.1 ≤ row)
            → row_cells row self.now.display ≡ shown_cells row self.now }
    {
        // (for the proof: the cells fill the rows)
        let _ = self.cells.width();
        self.damage.rows()
    }

    /// The columns of a row that can have changed: from the first answer up to the second.
    pub(crate) fn changed(&self, row: usize) -> (usize, usize)
        requires { row < self.now.display.height }
        ensures order { result.0 ≤ result.1 }
        ensures within { result.1 ≤ self.now.display.width }
        ensures kept { KeepsColumns result.0 result.1 (shown_cells row self.now)
            (row_cells row self.now.display) }
    {
        let width = self.cells.width();
        self.damage.columns(row, width)
    }

    /// Whether margins, tabs, what is saved or the alternate screen can have changed.
    pub(crate) fn is_framed(&self) -> bool
        ensures { result ≡ false → (picture self.now.display).frame ≡ self.now.shown.frame }
    {
        self.damage.is_framed()
    }

    /// Becomes as another one is, from which it differs in no more than can have changed of that.
    pub(crate) fn catch_up(&mut self, other: &Display)
        requires { IsShownOf other.now self.old }
        ensures { self.new ≡ following other.now self.old }
    {
        self.copy_changed(other);
        if other.is_framed() {
            self.copy_frame(other);
        }
        self.forget();
    }

    /// Becomes as another one of its size is.
    pub(crate) fn copy_from(&mut self, other: &Display)
        requires { HasSizeOf other.now.display self.old.display }
        ensures { self.new ≡ following other.now self.old }
    {
        self.copy_all(other);
        self.copy_frame(other);
        self.forget();
    }

    /// The cells that can have changed, the cursor, modes and links, and what REP repeats, become as those of another
    /// one are.
    fn copy_changed(&mut self, other: &Display)
        requires { IsShownOf other.now self.old }
        ensures shown { self.new ≡ record self.old {
          display = with_cells_of other.now.display self.old.display;
          last = other.now.last;
        } }
    {
        self.damage.note_all();
        self.cells.copy_changed(&other.cells, &other.damage);
        // (for the proof: the cells fill the rows)
        let _ = self.cells.width();
        self.copy_cursor(other);
    }

    /// All cells, the cursor, modes and links, and what REP repeats, become as those of another one are.
    fn copy_all(&mut self, other: &Display)
        requires { HasSizeOf other.now.display self.old.display }
        ensures shown { self.new ≡ record self.old {
          display = with_cells_of other.now.display self.old.display;
          last = other.now.last;
        } }
    {
        self.damage.note_all();
        self.cells.copy_all(&other.cells);
        // (for the proof: the cells fill the rows)
        let _ = self.cells.width();
        self.copy_cursor(other);
    }

    /// The cursor, modes and links, and what REP repeats, become as those of another one are.
    fn copy_cursor(&mut self, other: &Display)
        requires width { self.old.display.width ≡ other.now.display.width }
        requires height { self.old.display.height ≡ other.now.display.height }
        ensures { self.new ≡ record self.old {
          display = with_cursor_of other.now.display self.old.display;
          last = other.now.last;
        } }
    {
        self.cursor = other.cursor;
        self.wraps = other.wraps;
        self.inserts = other.inserts;
        self.is_visible = other.is_visible;
        self.links = other.links;
        self.link = other.link;
        self.printed = other.printed;
    }

    /// Margins, tabs, what is saved and the alternate screen with what it covers become as those of another one are.
    fn copy_frame(&mut self, other: &Display)
        requires width { self.old.display.width ≡ other.now.display.width }
        requires height { self.old.display.height ≡ other.now.display.height }
        ensures { self.new ≡ record self.old { display = with_frame_of other.now.display self.old.display } }
    {
        self.damage.note_all();
        self.saved = other.saved;
        self.top = other.top;
        self.bottom = other.bottom;
        self.tabs
            .as_mut_slice()
            .copy_from_slice(other.tabs.as_slice());
        self.is_alternate = other.is_alternate;
        self.hidden.copy_all(&other.hidden);
        self.hidden_saved = other.hidden_saved;
    }
}
