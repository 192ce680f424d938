//! A style as CSS declarations.
ghost use Rattle.std.specs.Prelude.{◌≡◌, ◌<◌, ◌++◌, ◌∷◌, ◌||◌, [], codes};
ghost use Rattle.anstyle_parse.specs.Io.Output.{Adds};
ghost use Rattle.ansi_html.specs.Palette.{hex};
ghost use Rattle.ansi_html.specs.Css.{declared as declared_color, light_dark, themed, is_chosen, text_of, behind_of, on_page, reversed_text, reversed_ground, color_on, text_on, text_if, is_underlined, lines_css, underline_css, others_css};
ghost use Rattle.ansi_html.specs.Classes.{underline_word};
ghost use Rattle.ansi_html.specs.Tags.{rare_css};
ghost use Rattle.ansi_html.specs.Html.{is_plain};

use crate::contrast::{BLACK, Rgb, WHITE};
use crate::digits::digits;
use crate::palette::{dark_text, light_text, shades_of};
use crate::scheme::Scheme;
use ansi_style::{Color, Style, Underline};
use anstyle_parse::io::{Output, Sink};

/// Red, green and blue in hexadecimal, and the byte that ends them.
fn put_hex<W: Sink>(output: &mut Output<W>, color: Rgb, end: u8)
    ensures { Adds W.Sink (hex color ++ (end ∷ [])) output.old output.new }
{
    let [a, b, c, d, e, f] = digits(color);
    output.put(&[b'#', a, b, c, d, e, f, end]);
}

/// A property with a colour.
pub(crate) fn put_declared<W: Sink>(output: &mut Output<W>, property: &[u8], color: Rgb)
    ensures { Adds W.Sink (declared_color property.now color) output.old output.new }
{
    output.put(property);
    put_hex(output, color, b';');
}

/// The same with a colour for light pages and one for dark ones.
fn put_light_dark<W: Sink>(output: &mut Output<W>, property: &[u8], light: Rgb, dark: Rgb)
    ensures { Adds W.Sink (light_dark property.now light dark) output.old output.new }
{
    output.put(property);
    output.put(b"light-dark(");
    put_hex(output, light, b',');
    put_hex(output, dark, b')');
    output.put(b";");
}

/// The same for the pages of the scheme.
fn put_themed<W: Sink>(
    output: &mut Output<W>,
    scheme: Scheme,
    property: &[u8],
    light: Rgb,
    dark: Rgb,
)
    ensures { Adds W.Sink (themed scheme property.now light dark) output.old output.new }
{
    match scheme {
        Scheme::Light => put_declared(output, property, light),
        Scheme::Dark => put_declared(output, property, dark),
        Scheme::Both => {
            put_declared(output, property, light);
            put_light_dark(output, property, light, dark);
        }
    }
}

/// Whether a colour is not the default.
#[inline(always)]
pub(crate) fn is_chosen(color: Color) -> bool
    ensures { result ≡ is_chosen color }
{
    !matches!(color, Color::Default)
}

/// The colour of the text, and that of its ground: reversed, each is the other. Each is chosen by itself, which takes
/// fewer instructions than one choice of both.
#[inline(always)]
pub(crate) fn colors_of(style: Style) -> (Color, Color)
    ensures text { result.0 ≡ text_of style }
    ensures behind { result.1 ≡ behind_of style }
{
    let (front, back) = (style.foreground, style.background);
    let text = if style.reverse { back } else { front };
    let behind = if style.reverse { front } else { back };
    (text, behind)
}

/// A text on the page's ground.
#[inline(always)]
pub(crate) fn put_on_page<W: Sink>(output: &mut Output<W>, scheme: Scheme, dim: bool, text: Color)
    ensures { Adds W.Sink (on_page scheme dim text) output.old output.new }
{
    let shades = shades_of(text);
    let light = light_text(dim, shades);
    put_themed(output, scheme, b"color:", light, dark_text(dim, shades));
}

/// A text on a ground of the page's own text.
pub(crate) fn put_reversed_text<W: Sink>(
    output: &mut Output<W>,
    scheme: Scheme,
    dim: bool,
    text: Color,
)
    ensures { Adds W.Sink (reversed_text scheme dim text) output.old output.new }
{
    let shades = shades_of(text);
    let dark = dark_text(dim, shades);
    put_themed(output, scheme, b"color:", dark, light_text(dim, shades));
}

/// A ground of the page's own text: white on dark pages, and black on light ones.
pub(crate) fn put_reversed_ground<W: Sink>(output: &mut Output<W>, scheme: Scheme)
    ensures { Adds W.Sink (reversed_ground scheme) output.old output.new }
{
    put_themed(output, scheme, b"background-color:", BLACK, WHITE);
}

/// What is written on a ground that is chosen: white or black where no colour is chosen for it.
fn color_on(text: Color, behind: Rgb) -> Rgb
    ensures { result ≡ color_on text behind }
{
    if is_chosen(text) {
        shades_of(text).fixed
    } else {
        behind.ink()
    }
}

/// The same; of a dim text its mixture with the ground, where that can be read there.
#[inline(always)]
pub(crate) fn text_on(dim: bool, text: Color, behind: Rgb) -> Rgb
    ensures { result ≡ text_on dim text behind }
{
    let color = color_on(text, behind);
    if dim { color.dim_on(behind) } else { color }
}

/// The text, where it is wanted.
pub(crate) fn put_if<W: Sink>(output: &mut Output<W>, wanted: bool, text: &[u8])
    ensures { Adds W.Sink (text_if wanted text.now) output.old output.new }
{
    if wanted {
        output.put(text);
    }
}

/// Whether there is any underline.
#[inline(always)]
pub(crate) fn is_underlined(underline: Underline) -> bool
    ensures { result ≡ is_underlined underline }
{
    !matches!(underline, Underline::Off)
}

/// Whether a style is the plain one: by its fields, the first of which mostly says that it is not.
#[inline(always)]
pub(crate) fn is_plain(style: &Style) -> bool
    ensures { result ≡ is_plain style.now }
{
    !is_styled(style)
}

/// Whether any colour is chosen, or anything else set.
#[inline(always)]
fn is_styled(style: &Style) -> bool
    ensures { result ≡ (is_chosen style.now.foreground || (is_chosen style.now.background
        || (is_underlined style.now.underline || (style.now.bold || (style.now.dim || (style.now.italic
        || (style.now.blink || (style.now.reverse || (style.now.hidden
        || (style.now.struck_out || style.now.overlined)))))))))) }
{
    is_chosen(style.foreground)
        || is_chosen(style.background)
        || is_underlined(style.underline)
        || has_attribute(style)
}

/// Whether any attribute is set. None is mostly, and so all are asked for at once.
#[inline(always)]
fn has_attribute(style: &Style) -> bool
    ensures { result ≡ (style.now.bold || (style.now.dim || (style.now.italic || (style.now.blink
        || (style.now.reverse || (style.now.hidden || (style.now.struck_out || style.now.overlined))))))) }
{
    style.bold
        | (style.dim
            | (style.italic
                | (style.blink
                    | (style.reverse | (style.hidden | (style.struck_out | style.overlined))))))
}

/// Whether there is any line.
#[inline(always)]
pub(crate) fn has_line(underlined: bool, overlined: bool, struck_out: bool, blink: bool) -> bool
    ensures { result ≡ (underlined || (overlined || (struck_out || blink))) }
{
    underlined || overlined || struck_out || blink
}

/// The lines by their names, where there is one.
#[inline(always)]
pub(crate) fn put_lines<W: Sink>(
    output: &mut Output<W>,
    underlined: bool,
    overlined: bool,
    struck_out: bool,
    blink: bool,
)
    ensures { Adds W.Sink (lines_css underlined overlined struck_out blink) output.old output.new }
{
    if has_line(underlined, overlined, struck_out, blink) {
        output.put(b"text-decoration-line:");
        put_if(output, underlined, b" underline");
        put_if(output, overlined, b" overline");
        put_if(output, struck_out, b" line-through");
        put_if(output, blink, b" blink");
        output.put(b";");
    }
}

/// How an underline is drawn, in a word; that of a single one has none.
pub(crate) fn underline_word(underline: Underline) -> &'static [u8]
    ensures { result.now ≡ underline_word underline }
{
    match underline {
        Underline::Off | Underline::Single => b"",
        Underline::Double => b"double",
        Underline::Curly => b"wavy",
        Underline::Dotted => b"dotted",
        Underline::Dashed => b"dashed",
    }
}

/// The declaration of that word, where there is one.
pub(crate) fn put_drawn<W: Sink>(output: &mut Output<W>, underline: Underline)
    ensures { Adds W.Sink (underline_css underline) output.old output.new }
{
    let word = underline_word(underline);
    if !word.is_empty() {
        output.put(b"text-decoration-style:");
        output.put(word);
        output.put(b";");
    }
}

/// The declarations of what is no colour. Most of it is rare, and asked for at once.
#[inline(always)]
pub(crate) fn put_others<W: Sink>(output: &mut Output<W>, style: &Style)
    ensures { Adds W.Sink (others_css style.now) output.old output.new }
{
    put_if(output, style.bold, b"font-weight:bold;");
    if has_rare(style) {
        put_rare(output, style);
    }
}

/// Whether it is set in italics, has a line or is hidden.
#[inline(always)]
fn has_rare(style: &Style) -> bool
    ensures { result ≡ (style.now.italic || (is_underlined style.now.underline || (style.now.overlined
        || (style.now.struck_out || (style.now.blink || style.now.hidden))))) }
{
    style.italic
        | (is_underlined(style.underline)
            | (style.overlined | (style.struck_out | (style.blink | style.hidden))))
}

/// The declarations of these.
#[inline(never)]
fn put_rare<W: Sink>(output: &mut Output<W>, style: &Style)
    ensures { Adds W.Sink (rare_css style.now) output.old output.new }
{
    put_if(output, style.italic, b"font-style:italic;");
    put_lines(
        output,
        is_underlined(style.underline),
        style.overlined,
        style.struck_out,
        style.blink,
    );
    put_drawn(output, style.underline);
    put_if(output, style.hidden, b"visibility:hidden;");
}
