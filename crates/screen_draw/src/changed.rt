//! What an update compares of two screens.
ghost use Rattle.std.specs.Prelude.{◌≡◌, ◌<◌, ◌≤◌, ◌⊎◌, ℕ, false};
ghost use Rattle.ansi_screen.specs.Display.{row_cells};
ghost use Rattle.ansi_screen.specs.State.{State};
ghost use Rattle.ansi_screen.specs.Damage.{KeepsColumns};
ghost use Rattle.screen_draw.specs.Changed.{AreCompared, KeepsFrame};

use ansi_screen::Screen;

/// All of both; or only what the wanted one has noted, where that is all in which it differs from what is shown.
#[derive(Clone, Copy)]
pub(crate) enum Compared {
    All,
    Noted,
}

impl Compared {
    /// The rows that are compared: from the first answer up to the second.
    pub(crate) fn rows(self, wanted: &Screen) -> (usize, usize)
        ensures order { result.0 ≤ result.1 }
        ensures within { result.1 ≤ wanted.now.display.height }
        ensures others { (shown : State) (row : ℕ) → AreCompared self shown wanted.now
            → row < wanted.now.display.height → (row < result.0) ⊎ (result.1 ≤ row)
            → row_cells row wanted.now.display ≡ row_cells row shown.display }
    {
        match self {
            Compared::All => (0, wanted.rows()),
            Compared::Noted => wanted.changed_rows(),
        }
    }

    /// The columns of a row that are compared: from the first answer up to the second.
    pub(crate) fn columns(self, wanted: &Screen, row: usize) -> (usize, usize)
        requires { row < wanted.now.display.height }
        ensures order { result.0 ≤ result.1 }
        ensures within { result.1 ≤ wanted.now.display.width }
        ensures kept { (shown : State) → AreCompared self shown wanted.now
            → KeepsColumns result.0 result.1 (row_cells row shown.display) (row_cells row wanted.now.display) }
    {
        match self {
            Compared::All => (0, wanted.columns()),
            Compared::Noted => wanted.changed(row),
        }
    }

    /// Whether saved places, tabs and the alternate screen are compared.
    pub(crate) fn has_frame(self, wanted: &Screen) -> bool
        ensures { (shown : State) → AreCompared self shown wanted.now → result ≡ false
            → KeepsFrame shown.display wanted.now.display }
    {
        match self {
            Compared::All => true,
            Compared::Noted => wanted.is_framed(),
        }
    }
}
