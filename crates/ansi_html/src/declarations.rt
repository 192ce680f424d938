//! The declarations of a style alone, for who writes them into an element of its own, as one of SVG.
ghost use Rattle.std.specs.Prelude.{◌≡◌};
ghost use Rattle.anstyle_parse.specs.Io.Output.{Adds};
ghost use Rattle.ansi_html.specs.Css.{colors_css, css, on_reversed, on_chosen, ground_css, has_ground};

use crate::contrast::Rgb;
use crate::css::{
    colors_of, is_chosen, put_declared, put_on_page, put_others, put_reversed_ground,
    put_reversed_text, text_on,
};
use crate::palette::shades_of;
use crate::scheme::Scheme;
use ansi_style::{Color, Style};
use anstyle_parse::io::{Output, Sink};

/// A text on a ground of the page's own text, and that ground.
fn put_on_reversed<W: Sink>(output: &mut Output<W>, scheme: Scheme, dim: bool, text: Color)
    ensures { Adds W.Sink (on_reversed scheme dim text) output.old output.new }
{
    put_reversed_text(output, scheme, dim, text);
    put_reversed_ground(output, scheme);
}

/// A text on a ground that is chosen.
fn put_on_chosen<W: Sink>(output: &mut Output<W>, dim: bool, text: Color, behind: Rgb)
    ensures { Adds W.Sink (on_chosen dim text behind) output.old output.new }
{
    put_declared(output, b"color:", text_on(dim, text, behind));
    put_declared(output, b"background-color:", behind);
}

/// The colours of a style, where any is selected.
#[tactic(auto, unfolding(crate::specs::Css::colors_css))]
fn put_colors<W: Sink>(output: &mut Output<W>, scheme: Scheme, style: &Style)
    ensures { Adds W.Sink (colors_css scheme style.now) output.old output.new }
{
    let (text, behind) = colors_of(*style);
    if is_chosen(behind) {
        put_on_chosen(output, style.dim, text, shades_of(behind).fixed);
    } else if style.reverse {
        put_on_reversed(output, scheme, style.dim, text);
    } else if is_chosen(text) | style.dim {
        put_on_page(output, scheme, style.dim, text);
    }
}

/// Writes the declarations of a style for the pages of a scheme, those that its attribute `style` has in the HTML: of
/// the plain style there are none.
pub fn put_declarations<W: Sink>(output: &mut Output<W>, scheme: Scheme, style: &Style)
    ensures { Adds W.Sink (css scheme style.now) output.old output.new }
{
    put_colors(output, scheme, style);
    put_others(output, style);
}

/// Whether a style has a ground of its own: one that is selected, or the page's text colour, where it is reversed.
pub fn has_ground(style: &Style) -> bool
    ensures { result ≡ has_ground style.now }
{
    let (_, behind) = colors_of(*style);
    is_chosen(behind) || style.reverse
}

/// Writes the ground of a style as the colour of a shape behind its text: the one that is selected, and else
/// `color:inherit;`, the colour of the page's text.
pub fn put_ground<W: Sink>(output: &mut Output<W>, style: &Style)
    ensures { Adds W.Sink (ground_css style.now) output.old output.new }
{
    let (_, behind) = colors_of(*style);
    if is_chosen(behind) {
        put_declared(output, b"color:", shades_of(behind).fixed);
    } else {
        output.put(b"color:inherit;");
    }
}
