//! The tags of spans by declarations: what begins one, and its colours, are put together and written at once.
ghost use Rattle.std.specs.Prelude.{◌≡◌, ◌++◌, codes};
ghost use Rattle.anstyle_parse.specs.Io.Output.{Adds};
ghost use Rattle.ansi_html.specs.Css.{declared as declared_color, themed, on_page, reversed_text, reversed_ground, on_reversed, text_on, on_chosen, colors_css, others_css, css};
ghost use Rattle.ansi_html.specs.Tags.{digits};
ghost use Rattle.ansi_html.specs.declared.contrast.Rgb.{Rgb as AnRgb};
ghost use Rattle.ansi_html.specs.declared.scheme.Scheme.TheVariants.{Both as OnBoth};

use crate::contrast::Rgb;
use crate::css::{colors_of, is_chosen, put_others, put_reversed_ground, text_on};
use crate::digits::{digits, page_digits};
use crate::palette::shades_of;
use crate::scheme::Scheme;
use ansi_style::{Color, Style};
use anstyle_parse::io::{Output, Sink};

/// What begins a tag, and a colour. It is out of line, so that the compiler does not make one write of unknown length
/// of this and the next.
#[inline(never)]
fn put_with_color<W: Sink>(output: &mut Output<W>, color: &[u8; 6])
    ensures { (one : AnRgb) → color.now ≡ digits one
        → Adds W.Sink (codes "<span style=\"" ++ declared_color (codes "color:") one) output.old output.new }
{
    let mut tag = *b"<span style=\"color:#rrggbb;";
    tag[20..26].copy_from_slice(color);
    output.put(&tag);
}

/// What begins a tag, a colour for light pages and one for dark ones.
#[inline(never)]
fn put_with_both<W: Sink>(output: &mut Output<W>, light: &[u8; 6], dark: &[u8; 6])
    ensures { (one other : AnRgb) → light.now ≡ digits one → dark.now ≡ digits other
        → Adds W.Sink (codes "<span style=\"" ++ themed OnBoth (codes "color:") one other) output.old output.new }
{
    let mut tag = *b"<span style=\"color:#rrggbb;color:light-dark(#rrggbb,#rrggbb);";
    tag[53..59].copy_from_slice(dark);
    tag[45..51].copy_from_slice(light);
    tag[20..26].copy_from_slice(light);
    output.put(&tag);
}

/// What begins a tag, a text and the ground that is chosen for it.
#[inline(always)]
fn put_with_ground<W: Sink>(output: &mut Output<W>, text: &[u8; 6], behind: &[u8; 6])
    ensures { (one other : AnRgb) → text.now ≡ digits one → behind.now ≡ digits other
        → Adds W.Sink (codes "<span style=\"" ++ (declared_color (codes "color:") one
        ++ declared_color (codes "background-color:") other)) output.old output.new }
{
    let mut tag = *b"<span style=\"color:#rrggbb;background-color:#rrggbb;";
    tag[45..51].copy_from_slice(behind);
    tag[20..26].copy_from_slice(text);
    output.put(&tag);
}

/// What begins a tag, and a colour for the pages of the scheme.
#[inline(always)]
fn put_themed<W: Sink>(output: &mut Output<W>, scheme: Scheme, light: &[u8; 6], dark: &[u8; 6])
    ensures { (one other : AnRgb) → light.now ≡ digits one → dark.now ≡ digits other
        → Adds W.Sink (codes "<span style=\"" ++ themed scheme (codes "color:") one other) output.old output.new }
{
    match scheme {
        Scheme::Light => put_with_color(output, light),
        Scheme::Dark => put_with_color(output, dark),
        Scheme::Both => put_with_both(output, light, dark),
    }
}

/// A text on the page's ground.
#[inline(always)]
fn put_on_page<W: Sink>(output: &mut Output<W>, scheme: Scheme, dim: bool, text: Color)
    ensures { Adds W.Sink (codes "<span style=\"" ++ on_page scheme dim text) output.old output.new }
{
    let colors = page_digits(dim, text);
    put_themed(output, scheme, &colors.light, &colors.dark);
}

/// A text on a ground of the page's own text, and that ground.
#[inline(never)]
fn put_on_reversed<W: Sink>(output: &mut Output<W>, scheme: Scheme, dim: bool, text: Color)
    ensures { Adds W.Sink (codes "<span style=\"" ++ on_reversed scheme dim text) output.old output.new }
{
    let colors = page_digits(dim, text);
    put_themed(output, scheme, &colors.dark, &colors.light);
    put_reversed_ground(output, scheme);
}

/// A text on a ground that is chosen.
#[inline(never)]
fn put_on_chosen<W: Sink>(output: &mut Output<W>, dim: bool, text: Color, behind: Rgb)
    ensures { Adds W.Sink (codes "<span style=\"" ++ on_chosen dim text behind) output.old output.new }
{
    let color = digits(text_on(dim, text, behind));
    put_with_ground(output, &color, &digits(behind));
}

/// The beginning of a tag with the colours of a style, where any is selected.
#[inline(always)]
#[tactic(auto, unfolding(crate::specs::Css::colors_css))]
fn put_colors<W: Sink>(output: &mut Output<W>, scheme: Scheme, style: &Style)
    ensures { Adds W.Sink (codes "<span style=\"" ++ colors_css scheme style.now) output.old output.new }
{
    let (text, behind) = colors_of(*style);
    if is_chosen(behind) {
        put_on_chosen(output, style.dim, text, shades_of(behind).fixed);
    } else if style.reverse {
        put_on_reversed(output, scheme, style.dim, text);
    } else if is_chosen(text) | style.dim {
        put_on_page(output, scheme, style.dim, text);
    } else {
        output.put(b"<span style=\"");
    }
}

/// The tag of a span whose attribute has the declarations of a style.
#[inline(always)]
pub(crate) fn put_tag<W: Sink>(output: &mut Output<W>, scheme: Scheme, style: &Style)
    ensures { Adds W.Sink (codes "<span style=\"" ++ (css scheme style.now ++ codes "\">")) output.old output.new }
{
    put_colors(output, scheme, style);
    put_others(output, style);
    output.put(b"\">");
}
