//! What stands before the runs and after them, and the rows.
ghost use Rattle.std.specs.Prelude.{◌≡◌, ◌≤◌, ◌<◌, ◌∷◌, [], codes};
ghost use Rattle.anstyle_parse.specs.Io.Output.{Adds};
ghost use Rattle.screen_svg.specs.Characters.{text_of};
ghost use Rattle.screen_svg.specs.Xml.{attribute, attribute_xml, start, xml};
ghost use Rattle.screen_svg.specs.Picture.{units_high, corner, view, picture_attributes, title_element, page_rules, rules, page, bar, name, window_events, head, cursor_column, cursor_events};

use crate::characters::put_text;
use crate::drawing::Drawing;
use crate::tags::{put_class_box, put_end, put_number, put_pair};
use ansi_html::Scheme;
use ansi_screen::Screen;
use anstyle_parse::io::{Output, Sink};

/// How many units high the picture is.
fn units_high(window: bool, rows: usize) -> u16
    requires { rows ≤ 2000 }
    ensures { result ≡ units_high window rows }
{
    let height = 20 * rows as u16;
    if window { height + 30 } else { height }
}

/// Where it begins.
fn corner(window: bool) -> &'static [u8]
    ensures { result.now ≡ corner window }
{
    if window { b"0 -30 " } else { b"0 0 " }
}

/// Writes the units that are seen, as an attribute.
fn put_view<W: Sink>(output: &mut Output<W>, window: bool, columns: usize, rows: usize)
    requires columns { columns ≤ 1000 }
    requires rows { rows ≤ 2000 }
    ensures { Adds W.Sink (attribute_xml (attribute (codes "viewBox") (view window columns rows)))
        output.old output.new }
{
    output.put(b" viewBox=\"");
    output.put(corner(window));
    put_pair(output, 10 * columns as u16, units_high(window, rows));
    output.put(b"\"");
}

/// Writes the fonts.
fn put_font<W: Sink>(output: &mut Output<W>, font: &str)
    ensures { Adds W.Sink (attribute_xml (attribute (codes "font-family") (text_of font.now))) output.old output.new }
{
    output.put(b" font-family=\"");
    put_text(output, font);
    output.put(b"\"");
}

/// Writes the start tag of all.
fn put_picture_begin<W: Sink>(
    output: &mut Output<W>,
    window: bool,
    font: &str,
    columns: usize,
    rows: usize,
)
    requires columns { columns ≤ 1000 }
    requires rows { rows ≤ 2000 }
    ensures { Adds W.Sink (xml (start (codes "svg") (picture_attributes window font.now columns rows) ∷ []))
        output.old output.new }
{
    output.put(b"<svg");
    output.put(b" xmlns=\"http://www.w3.org/2000/svg\"");
    put_view(output, window, columns, rows);
    put_number(output, b"width", 10 * columns as u16);
    put_number(output, b"height", units_high(window, rows));
    put_font(output, font);
    output.put(b" font-size=\"16.61\" xml:space=\"preserve\"");
    output.put(b">");
}

/// Writes the title, where one is given.
fn put_title<W: Sink>(output: &mut Output<W>, title: &str)
    ensures { Adds W.Sink (xml (title_element title.now)) output.old output.new }
{
    if !title.is_empty() {
        output.put(b"<title>");
        put_text(output, title);
        put_end(output, b"title");
    }
}

/// The rules of the page's colours.
fn page_rules(scheme: Scheme) -> &'static [u8]
    ensures { result.now ≡ page_rules scheme }
{
    match scheme {
        Scheme::Light =>
            b"svg{color-scheme:light;color:#000000}.page{color:#ffffff}.bar{color:#d9d9d9}",
        Scheme::Dark =>
            b"svg{color-scheme:dark;color:#ffffff}.page{color:#1e1e1e}.bar{color:#3b3b3b}",
        Scheme::Both => {
            b"svg{color-scheme:light dark;color:#000000;color:light-dark(#000000,#ffffff)}\
            .page{color:#ffffff;color:light-dark(#ffffff,#1e1e1e)}\
            .bar{color:#d9d9d9;color:light-dark(#d9d9d9,#3b3b3b)}"
        }
    }
}

/// Writes the rules.
fn put_rules<W: Sink>(output: &mut Output<W>, scheme: Scheme)
    ensures { Adds W.Sink (xml (rules scheme)) output.old output.new }
{
    output.put(b"<style>");
    output.put(page_rules(scheme));
    output.put(
        b"text,path,rect,circle{fill:currentColor}text{white-space:pre}a{color:inherit}.shape{fill:none}\
        .cursor{fill:none;stroke:currentColor}circle{fill-opacity:.15}.name{text-anchor:middle}",
    );
    put_end(output, b"style");
}

/// Writes the page behind all cells.
fn put_page<W: Sink>(output: &mut Output<W>, columns: usize, rows: usize)
    requires columns { columns ≤ 1000 }
    requires rows { rows ≤ 2000 }
    ensures { Adds W.Sink (xml (page columns rows)) output.old output.new }
{
    put_class_box(output, 0, 0, columns, rows, b"page");
}

/// Writes the strip of a window's bar.
fn put_bar<W: Sink>(output: &mut Output<W>, width: usize)
    requires { width ≤ 1000 }
    ensures { Adds W.Sink (xml (bar width)) output.old output.new }
{
    output.put(b"<rect");
    output.put(b" x=\"0\" y=\"-30\"");
    put_number(output, b"width", 10 * width as u16);
    output.put(b" height=\"30\" class=\"bar\"");
    output.put(b">");
    put_end(output, b"rect");
}

/// Writes the title in its middle.
fn put_name<W: Sink>(output: &mut Output<W>, title: &str, width: usize)
    requires { width ≤ 1000 }
    ensures { Adds W.Sink (xml (name title.now width)) output.old output.new }
{
    output.put(b"<text");
    put_number(output, b"x", 5 * width as u16);
    output.put(b" y=\"-10\" class=\"name\"");
    output.put(b">");
    put_text(output, title);
    put_end(output, b"text");
}

/// Writes the bar of a window, where it is wanted.
fn put_window<W: Sink>(output: &mut Output<W>, wanted: bool, title: &str, width: usize)
    requires { width ≤ 1000 }
    ensures { Adds W.Sink (xml (window_events wanted title.now width)) output.old output.new }
{
    if wanted {
        put_bar(output, width);
        output.put(b"<circle cx=\"20\" cy=\"-15\" r=\"6\"></circle>");
        output.put(b"<circle cx=\"40\" cy=\"-15\" r=\"6\"></circle>");
        output.put(b"<circle cx=\"60\" cy=\"-15\" r=\"6\"></circle>");
        put_name(output, title, width);
    }
}

/// Writes all that stands before the rows.
pub(crate) fn put_head<W: Sink>(
    output: &mut Output<W>,
    drawing: Drawing,
    title: &str,
    font: &str,
    columns: usize,
    rows: usize,
)
    requires columns { columns ≤ 1000 }
    requires rows { rows ≤ 2000 }
    ensures { Adds W.Sink (xml (head drawing title.now font.now columns rows)) output.old output.new }
{
    put_picture_begin(output, drawing.window, font, columns, rows);
    put_title(output, title);
    put_rules(output, drawing.scheme);
    put_page(output, columns, rows);
    put_window(output, drawing.window, title, columns);
}

/// The row and the column of the cell that the cursor's frame is round.
pub(crate) fn cursor_cell(screen: &Screen) -> (usize, usize)
    ensures row { result.0 ≡ screen.now.display.cursor.row }
    ensures column { result.1 ≡ cursor_column screen.now.display }
    ensures within { result.0 < screen.now.display.height }
    ensures few_rows { result.0 ≤ 1000 }
    ensures few_columns { result.1 ≤ 1000 }
{
    let last = screen.columns() - 1;
    let place = screen.cursor();
    (place.row, place.column.min(last))
}

/// Writes the cursor, where it is wanted and the screen shows it, so many rows further down.
pub(crate) fn put_cursor<W: Sink>(
    output: &mut Output<W>,
    wanted: bool,
    above: usize,
    screen: &Screen,
)
    requires { above ≤ 1000 }
    ensures { Adds W.Sink (xml (cursor_events wanted above screen.now.display)) output.old output.new }
{
    if wanted && screen.is_cursor_visible() {
        let (row, column) = cursor_cell(screen);
        put_class_box(output, column, above + row, 1, 1, b"cursor");
    }
}
