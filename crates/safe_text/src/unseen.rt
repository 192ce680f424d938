//! Styles in which text is drawn and not seen.
ghost use Rattle.std.specs.Prelude.{◌≡◌};
ghost use Rattle.safe_text.specs.Unseen.{is_one_color, is_unseen};

use ansi_style::{Color, Style};
use xterm_palette::number_of;

/// Whether both colours have one number in xterm's palette.
fn is_one_color(one: Color, other: Color) -> bool
    ensures { result ≡ is_one_color one other }
{
    match (number_of(one), number_of(other)) {
        (Some(first), Some(second)) => first == second,
        _ => false,
    }
}

/// Whether text has the colour of its ground. Most stands on the terminal's own.
#[inline(always)]
#[tactic(auto, unfolding(xterm_palette::specs::Palette::number_of))]
fn is_on_itself(style: &Style) -> bool
    ensures { result ≡ is_one_color style.now.foreground style.now.background }
{
    match style.background {
        Color::Default => false,
        ground => is_one_color(style.foreground, ground),
    }
}

/// Whether text of this style is not seen where it is drawn: Select Graphic Rendition hides it (8), or it has the colour
/// of its ground, as xterm's palette has both.
///
/// Nobody tells the terminal's own colours, so one of them is like no other. Reverse video makes no difference, nor do
/// bold and dim text: they leave a colour what it is, as `ansi_html` draws it. Colours that are near are two.
#[inline]
#[tactic(auto, unfolding(crate::specs::Unseen::is_unseen))]
pub fn is_unseen(style: &Style) -> bool
    ensures { result ≡ is_unseen style.now }
{
    style.hidden || is_on_itself(style)
}
