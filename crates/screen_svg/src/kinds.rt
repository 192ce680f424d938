//! Which cells can stand in one element.
ghost use Rattle.std.specs.Prelude.{◌≡◌};
ghost use Rattle.screen_svg.specs.Runs.{is_single, is_lined, is_shaped, are_of_a_kind};

use crate::shapes::shape_of;
use ansi_screen::{Cell, Marks};
use ansi_style::{Style, Underline};

/// Whether it is a cell of one column whose text is one byte.
fn is_single(cell: &Cell) -> bool
    ensures { result ≡ is_single cell.now }
{
    cell.character.is_ascii() && !cell.is_right() && matches!(cell.marks, Marks::Unmarked)
}

/// Whether a style has a line under, over or through its text.
fn is_lined(style: &Style) -> bool
    ensures { result ≡ is_lined style.now }
{
    !matches!(style.underline, Underline::Off) || style.overlined || style.struck_out
}

/// Whether it is a cell that is drawn as a shape.
#[tactic(auto, unfolding(crate::specs::Runs::is_shaped))]
pub(crate) fn is_shaped(cell: &Cell) -> bool
    ensures { result ≡ is_shaped cell.now }
{
    !shape_of(cell.character).is_empty()
        && !cell.is_right()
        && matches!(cell.marks, Marks::Unmarked)
        && !is_lined(&cell.style)
}

/// Whether the characters of two cells can stand in one element.
pub(crate) fn are_of_a_kind(first: &Cell, cell: &Cell) -> bool
    ensures { result ≡ are_of_a_kind first.now cell.now }
{
    is_single(first) && is_single(cell) || is_shaped(first) && is_shaped(cell)
}
