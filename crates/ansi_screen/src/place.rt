//! A place of the cursor, and what is kept with it.
use ansi_style::Style;

/// The character sets: whether G0 and G1 are the line drawing set, in which lower case letters
/// are lines, and which of the two is used.
#[derive(Debug, Clone, Copy, PartialEq, Eq)]
pub struct Charsets {
    pub g0_draws: bool,
    pub g1_draws: bool,
    /// Between SO and SI.
    pub uses_g1: bool,
}

/// Where the cursor is, and what DECSC saves with it.
#[derive(Debug, Clone, Copy, PartialEq, Eq)]
pub struct Place {
    /// From 0 on.
    pub row: usize,
    /// From 0 on; the screen's width, where its last column was printed and a wrap is pending.
    pub column: usize,
    /// The style of what comes next.
    pub style: Style,
    /// Origin mode (DECOM): sequences count lines from the upper margin. `row` counts from the screen's first row.
    pub is_relative: bool,
    pub charsets: Charsets,
}

impl Charsets {
    ghost use Rattle.std.specs.Prelude.{◌≡◌};
    ghost use Rattle.ansi_screen.specs.Display.{letters};
    ghost use Rattle.ansi_screen.specs.Print.{draws};

    /// Letters in both sets, and G0 is used.
    pub(crate) fn letters() -> Charsets
        ensures { result ≡ letters }
    {
        Charsets {
            g0_draws: false,
            g1_draws: false,
            uses_g1: false,
        }
    }

    /// Whether the set that is used is the line drawing set.
    pub(crate) fn draws(&self) -> bool
        ensures { result ≡ draws self.now }
    {
        if self.uses_g1 {
            self.g1_draws
        } else {
            self.g0_draws
        }
    }
}

impl Place {
    ghost use Rattle.std.specs.Prelude.{◌≡◌};
    ghost use Rattle.ansi_screen.specs.Display.{home};

    /// The top left, plain.
    pub fn home() -> Place
        ensures { result ≡ home }
    {
        Place {
            row: 0,
            column: 0,
            style: Style::default(),
            is_relative: false,
            charsets: Charsets::letters(),
        }
    }
}
