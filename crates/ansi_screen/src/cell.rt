//! What one place of a screen shows.
ghost use Rattle.std.specs.Prelude.{true, ◌≡◌};

use ansi_style::Style;

/// How much of a character a cell shows: a wide one stands in two cells.
#[derive(Debug, Clone, Copy, PartialEq, Eq)]
pub enum Part {
    /// Nothing was printed there, or what was is erased: its character is a space.
    Empty,
    Whole,
    /// The left half, which has the character.
    Left,
    /// The right half, whose character is a space.
    Right,
}

/// The characters of no column that came after a cell's own: at most two are kept.
#[derive(Debug, Clone, Copy, PartialEq, Eq)]
pub enum Marks {
    Unmarked,
    One(char),
    Two(char, char),
}

impl Marks {
    ghost use Rattle.ansi_screen.specs.Cells.{one_more};

    /// With one more, where there is room.
    fn with(self, mark: char) -> Marks
        ensures { result ≡ one_more mark self }
    {
        match self {
            Marks::Unmarked => Marks::One(mark),
            Marks::One(first) => Marks::Two(first, mark),
            Marks::Two(first, second) => Marks::Two(first, second),
        }
    }
}

/// A place of the screen: a character with its marks, its style and its link.
#[derive(Debug, Clone, Copy, PartialEq, Eq)]
pub struct Cell {
    pub character: char,
    /// The number of the link (OSC 8) in which it was printed; 0 for none.
    pub link: u32,
    pub marks: Marks,
    pub style: Style,
    pub part: Part,
    /// In the last cell of a row: autowrap went on from it to the next row, so that both are one line.
    pub goes_on: bool,
}

impl Cell {
    ghost use Rattle.ansi_style.specs.Style.{plain};
    ghost use Rattle.ansi_screen.specs.declared.cell.Part.TheVariants.{Empty, Whole};
    ghost use Rattle.ansi_screen.specs.Cells.{plain_cell, printed_cell, blank, emptied, is_right, with_mark};

    /// A character alone, in a link or in none.
    pub(crate) fn printed(character: char, style: Style, link: u32, part: Part) -> Cell
        ensures { result ≡ printed_cell character style link part }
    {
        Cell {
            character,
            link,
            marks: Marks::Unmarked,
            style,
            part,
            goes_on: false,
        }
    }

    /// A space where nothing was printed.
    fn unprinted(style: Style) -> Cell
        ensures { result ≡ plain_cell 0x20 style Empty }
    {
        Cell::printed(' ', style, 0, Part::Empty)
    }

    /// A space in the background of the style, in nothing else of it and in no link.
    pub fn blank(style: Style) -> Cell
        ensures { result ≡ blank style }
    {
        let mut plain = Style::default();
        plain.background = style.background;
        Cell::unprinted(plain)
    }

    /// Whether it is the right half of a wide character.
    pub fn is_right(self) -> bool
        ensures { result ≡ is_right self.part }
    {
        matches!(self.part, Part::Right)
    }

    /// What is left of a half: a space in its own style, in no link.
    pub(crate) fn emptied(self) -> Cell
        ensures { result ≡ emptied self }
    {
        Cell::unprinted(self.style)
    }

    /// A plain blank becomes a character: there is less to write than of a new cell, and in the plain style and in no
    /// link, which it has as a blank, less still.
    #[inline(always)]
    pub(crate) fn print(&mut self, character: char, style: Style, link: u32, is_plain: bool)
        requires blank { self.old ≡ blank plain }
        requires plain { is_plain ≡ true → (style ≡ plain) × (link ≡ 0) }
        ensures { self.new ≡ printed_cell character style link Whole }
    {
        self.character = character;
        if !is_plain {
            self.link = link;
            self.style = style;
        }
        self.part = Part::Whole;
    }

    /// With one mark more, where there is room.
    pub(crate) fn with_mark(self, mark: char) -> Cell
        ensures { result ≡ with_mark mark self }
    {
        Cell {
            marks: self.marks.with(mark),
            ..self
        }
    }
}
