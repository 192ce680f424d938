//! The elements of a run: its shapes, and its text.
ghost use Rattle.std.specs.Prelude.{◌≡◌, ◌≤◌, ◌<◌, ◌+◌, ◌*◌, ℕ, codes, length};
ghost use Rattle.std.specs.List.{flat_map};
ghost use Rattle.anstyle_parse.specs.Io.Output.{Adds};
ghost use Rattle.screen_svg.specs.Xml.{attribute, attribute_xml, xml};
ghost use Rattle.screen_svg.specs.Runs.{run_of, run_text};
ghost use Rattle.screen_svg.specs.Picture.{element, text_columns, text_style, text_place, text_kind, text_attributes, shapes_text, shape_place, shape_element};

use crate::kinds::is_shaped;
use crate::shapes::shape_of;
use crate::tags::{put_attribute, put_end, put_number, put_pair};
use crate::text::{put_cell, put_cells};
use ansi_html::{Scheme, put_declarations};
use ansi_screen::{Cell, Part};
use ansi_style::Style;
use anstyle_parse::io::{Output, Sink};

/// How many columns the text of a run takes.
fn text_columns(first: &Cell, others: &[Cell]) -> usize
    requires { length others.now < 1000 }
    ensures columns { (column : ℕ) → result ≡ text_columns (run_of column first.now others.now) }
    ensures few { result ≤ 1000 }
{
    if matches!(first.part, Part::Left) {
        2
    } else {
        others.len() + 1
    }
}

/// Writes where the text of a run stands, and how many columns it takes.
fn put_text_place<W: Sink>(
    output: &mut Output<W>,
    row: usize,
    column: usize,
    first: &Cell,
    others: &[Cell],
)
    requires row { row < 2000 }
    requires columns { column + length others.now < 1000 }
    ensures { Adds W.Sink (flat_map attribute_xml (text_place row (run_of column first.now others.now)))
        output.old output.new }
{
    put_number(output, b"x", 10 * column as u16);
    put_number(output, b"y", 20 * row as u16 + 15);
    put_number(
        output,
        b"textLength",
        10 * text_columns(first, others) as u16,
    );
}

/// Writes the declarations of a style, unless it is plain.
fn put_text_style<W: Sink>(output: &mut Output<W>, scheme: Scheme, style: &Style)
    ensures { Adds W.Sink (flat_map attribute_xml (text_style scheme style.now)) output.old output.new }
{
    if !style.is_same(&Style::default()) {
        output.put(b" style=\"");
        put_declarations(output, scheme, style);
        output.put(b"\"");
    }
}

/// Says of a text that shapes stand for it, where they do.
fn put_text_kind<W: Sink>(output: &mut Output<W>, first: &Cell)
    ensures { Adds W.Sink (flat_map attribute_xml (text_kind first.now)) output.old output.new }
{
    if is_shaped(first) {
        put_attribute(output, b"class", b"shape");
    }
}

/// Writes the shapes of cells.
fn put_shapes<W: Sink>(output: &mut Output<W>, cells: &[Cell])
    ensures { Adds W.Sink (shapes_text cells.now) output.old output.new }
{
    let mut rest = cells;
    'rest: while let Some((first, further)) = rest.split_first() {
        output.put(shape_of(first.character));
        rest = further;
    }
}

/// Writes those of a run, and where they begin.
fn put_shape_place<W: Sink>(
    output: &mut Output<W>,
    row: usize,
    column: usize,
    first: &Cell,
    others: &[Cell],
)
    requires row { row < 2000 }
    requires columns { column + length others.now < 1000 }
    ensures { Adds W.Sink (attribute_xml (attribute (codes "d")
        (shape_place row (run_of column first.now others.now)))) output.old output.new }
{
    output.put(b" d=\"M");
    put_pair(output, 10 * column as u16, 20 * row as u16);
    output.put(shape_of(first.character));
    put_shapes(output, others);
    output.put(b"\"");
}

/// Writes the shapes of a run, where it has some.
pub(crate) fn put_shape<W: Sink>(
    output: &mut Output<W>,
    scheme: Scheme,
    row: usize,
    column: usize,
    first: &Cell,
    others: &[Cell],
)
    requires row { row < 2000 }
    requires columns { column + length others.now < 1000 }
    ensures { Adds W.Sink (xml (shape_element scheme row (run_of column first.now others.now)))
        output.old output.new }
{
    if is_shaped(first) {
        output.put(b"<path");
        put_shape_place(output, row, column, first, others);
        put_text_style(output, scheme, &first.style);
        output.put(b">");
        put_end(output, b"path");
    }
}

/// Writes the text of a run.
pub(crate) fn put_text<W: Sink>(
    output: &mut Output<W>,
    scheme: Scheme,
    row: usize,
    column: usize,
    first: &Cell,
    others: &[Cell],
)
    requires row { row < 2000 }
    requires columns { column + length others.now < 1000 }
    ensures { Adds W.Sink (xml (element (codes "text")
        (text_attributes scheme row (run_of column first.now others.now))
        (run_text (run_of column first.now others.now)))) output.old output.new }
{
    output.put(b"<text");
    put_text_place(output, row, column, first, others);
    put_text_style(output, scheme, &first.style);
    put_text_kind(output, first);
    output.put(b">");
    put_cell(output, *first);
    put_cells(output, others);
    put_end(output, b"text");
}
