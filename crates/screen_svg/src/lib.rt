//! What a screen shows, as a picture: an SVG, whose text is text.
#![tactic(auto)]

ghost use Rattle.std.specs.Prelude.{◌≡◌, ◌≤◌, false};
ghost use Rattle.anstyle_parse.specs.Io.Output.{Adds};
ghost use Rattle.ansi_style.specs.declared.style.Style.{Style as AStyle};
ghost use Rattle.ansi_html.specs.declared.scheme.Scheme.{Scheme as AScheme};
ghost use Rattle.ansi_html.specs.Css.{selects_both, colors_css};
ghost use Rattle.ansi_html.specs.Grammar.{AreReadable};
ghost use Rattle.screen_svg.specs.Picture.{all_of, all_shown, svg};

mod characters;
mod drawing;
mod elements;
mod kinds;
pub mod laws;
mod page;
mod rows;
mod runs;
mod shapes;
mod tags;
mod text;

use ansi_screen::Screen;
use anstyle_parse::io::{Output, Sink};
pub use drawing::Drawing;
use drawing::Extent;
use page::{put_cursor, put_head};
pub use rows::MOST_ABOVE;
use rows::{all_of, all_shown, put_rows};
use screen_html::LinkTable;
use tags::put_end;

/// The fonts that a picture asks for where no other is wanted.
pub const FONT: &str = "'DejaVu Sans Mono', Menlo, Consolas, 'Liberation Mono', monospace";

/// Writes these rows.
fn write_rows<W: Sink>(
    screen: &Screen,
    links: &LinkTable,
    drawing: Drawing,
    title: &str,
    font: &str,
    extent: Extent,
    output: Output<W>,
) -> Output<W>
    requires above { extent.above ≤ 1000 }
    requires count { extent.count ≤ screen.now.display.height }
    ensures { Adds W.Sink (svg drawing title.now font.now links.now extent screen.now) output result }
{
    let mut output = output;
    // (for the proof: it is within its sizes)
    let _ = screen.rows();
    let rows = extent.above + extent.count;
    put_head(&mut output, drawing, title, font, screen.columns(), rows);
    put_rows(&mut output, drawing.scheme, links, extent, screen);
    put_cursor(&mut output, drawing.cursor, extent.above, screen);
    put_end(&mut output, b"svg");
    output
}

/// Writes what a screen shows as a picture, an SVG (Scalable Vector Graphics 2): all its rows and columns, and no more.
///
/// A cell is 10 units wide and 20 high, and pixels, where nothing else is asked for. Each run of cells of equal style and
/// link, with one character of ASCII each, is one `<text>` at its column, whose `textLength` spreads it over its columns;
/// any other character is one alone, a wide one over two columns. Line drawing and blocks (U+2500 to U+259F, but for the
/// shades) are shapes of a `<path>`, so that they join, and a `<text>` that is not painted, unless they are underlined,
/// overlined or struck out. A style is said as in the HTML of [`ansi_html::convert`], and a ground is a `<rect>` behind its
/// cells. Where nothing was printed, and in hidden cells (SGR 8), there is no text. A text with a link (OSC 8) that the
/// table keeps stands in `<a href="…">`. The cursor is a frame, where one is wanted and the screen shows it. `title` is
/// the picture's `<title>`, and stands in the bar of a window; an empty one is none. `font` is the value of
/// `font-family`, as [`FONT`]. A character that XML may not have is written as U+FFFD.
pub fn write_svg<W: Sink>(
    screen: &Screen,
    links: &LinkTable,
    drawing: Drawing,
    title: &str,
    font: &str,
    output: Output<W>,
) -> Output<W>
    ensures added { Adds W.Sink (svg drawing title.now font.now links.now (all_of screen.now.display)
        screen.now) output result }

    // Text is read: the colours of a style that has not selected both have WCAG's 4.5:1.
    ensures contrast { (scheme : AScheme) (style : AStyle) → selects_both style ≡ false
        → AreReadable scheme (colors_css scheme style) }
{
    write_rows(screen, links, drawing, title, font, all_of(screen), output)
}

/// Writes what a screen showed as such a picture: of the rows that left it those that it keeps
/// ([`Screen::with_history`]), the last [`MOST_ABOVE`], and then its own, up to the last in which something was printed, and
/// to that of the cursor, where it is drawn. There is a row at least.
pub fn write_shown<W: Sink>(
    screen: &Screen,
    links: &LinkTable,
    drawing: Drawing,
    title: &str,
    font: &str,
    output: Output<W>,
) -> Output<W>
    ensures { Adds W.Sink (svg drawing title.now font.now links.now (all_shown drawing.cursor screen.now)
        screen.now) output result }
{
    write_rows(
        screen,
        links,
        drawing,
        title,
        font,
        all_shown(screen, drawing.cursor),
        output,
    )
}
