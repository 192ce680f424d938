//! Whether cells have one style and one link.
ghost use Rattle.std.specs.Prelude.{◌≡◌, IsTrue};
ghost use Rattle.std.specs.Int.{from_le_bytes, w64};
ghost use Rattle.screen_html.specs.Attributes.{attributes_of};

use ansi_screen::Cell;
use ansi_style::{Color, Style};

/// The attributes of a style that it has or has not, each as a byte of one number: so they are read and compared at
/// once, where `==` of styles asks for one after another.
#[inline(always)]
fn attributes(style: &Style) -> u64
    ensures { result ≡ from_le_bytes w64 (attributes_of style.now) }
{
    u64::from_le_bytes([
        style.bold as u8,
        style.dim as u8,
        style.italic as u8,
        style.blink as u8,
        style.reverse as u8,
        style.hidden as u8,
        style.struck_out as u8,
        style.overlined as u8,
    ])
}

/// Whether two colours are the same. Most are the default one.
#[inline(always)]
fn are_same_colors(color: Color, other: Color) -> bool
    ensures { IsTrue result → color ≡ other }
{
    if matches!(other, Color::Default) {
        matches!(color, Color::Default)
    } else {
        color == other
    }
}

/// Whether what makes up two styles is the same.
#[inline(always)]
fn are_same_styles(style: &Style, other: &Style) -> bool
    ensures attributes { IsTrue result
        → from_le_bytes w64 (attributes_of style.now) ≡ from_le_bytes w64 (attributes_of other.now) }
    ensures underline { IsTrue result → style.now.underline ≡ other.now.underline }
    ensures foreground { IsTrue result → style.now.foreground ≡ other.now.foreground }
    ensures background { IsTrue result → style.now.background ≡ other.now.background }
{
    attributes(style) == attributes(other)
        && style.underline == other.underline
        && are_same_colors(style.foreground, other.foreground)
        && are_same_colors(style.background, other.background)
}

/// Whether a cell has the link and the style of another one.
#[inline(always)]
pub(crate) fn is_alike(cell: &Cell, other: &Cell) -> bool
    ensures link { IsTrue result → cell.now.link ≡ other.now.link }
    ensures style { IsTrue result → cell.now.style ≡ other.now.style }
{
    cell.link == other.link && are_same_styles(&cell.style, &other.style)
}
