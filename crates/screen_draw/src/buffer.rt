//! The two buffers of a screen.
ghost use Rattle.std.specs.Prelude.{◌≡◌, ◌<◌, ◌*◌, length, take, drop};
ghost use Rattle.ansi_screen.specs.Display.{IsSized};
ghost use Rattle.screen_draw.specs.Buffers.{cells_of, saved_of};

use ansi_screen::{Cell, Place, Screen};

/// Of the two buffers of a screen one is shown. The other one is hidden: while the alternate screen shows, it is the
/// main one.
#[derive(Clone, Copy)]
pub(crate) enum Buffer {
    Shown,
    Hidden,
}

impl Buffer {
    /// The cells of a row, counted from 0.
    pub(crate) fn row(self, screen: &Screen, row: usize) -> &[Cell]
        requires { row < screen.now.display.height }
        ensures cells { result.now ≡ take screen.now.display.width
            (drop (row * screen.now.display.width) (cells_of self screen.now.display)) }
        ensures columns { length result.now ≡ screen.now.display.width }
    {
        match self {
            Buffer::Shown => screen.row(row),
            Buffer::Hidden => screen.hidden_row(row),
        }
    }

    /// What DECSC saved there.
    pub(crate) fn saved(self, screen: &Screen) -> Place
        ensures { result ≡ saved_of self screen.now.display }
    {
        match self {
            Buffer::Shown => screen.saved(),
            Buffer::Hidden => screen.hidden_saved(),
        }
    }
}
