//! Tags and their attributes.
ghost use Rattle.std.specs.Prelude.{◌≤◌, ◌++◌, ◌∷◌, [], decimal};
ghost use Rattle.std.specs.List.{flat_map};
ghost use Rattle.anstyle_parse.specs.Io.Output.{Adds};
ghost use Rattle.screen_svg.specs.Xml.{attribute, attribute_xml, end, xml};
ghost use Rattle.screen_svg.specs.Picture.{box, class, pair, rectangle};

use ansi_html::put_escaped;
use anstyle_parse::io::{Output, Sink};

/// Writes an attribute.
pub(crate) fn put_attribute<W: Sink>(output: &mut Output<W>, name: &[u8], value: &[u8])
    ensures { Adds W.Sink (attribute_xml (attribute name.now value.now)) output.old output.new }
{
    output.put(b" ");
    output.put(name);
    output.put(b"=\"");
    put_escaped(output, value);
    output.put(b"\"");
}

/// Writes an attribute whose value is a number.
pub(crate) fn put_number<W: Sink>(output: &mut Output<W>, name: &[u8], number: u16)
    ensures { Adds W.Sink (attribute_xml (attribute name.now (decimal number))) output.old output.new }
{
    output.put(b" ");
    output.put(name);
    output.put(b"=\"");
    output.put_decimal(number);
    output.put(b"\"");
}

/// Writes two numbers.
pub(crate) fn put_pair<W: Sink>(output: &mut Output<W>, first: u16, second: u16)
    ensures { Adds W.Sink (pair first second) output.old output.new }
{
    output.put_decimal(first);
    output.put(b" ");
    output.put_decimal(second);
}

/// Writes an end tag.
pub(crate) fn put_end<W: Sink>(output: &mut Output<W>, name: &[u8])
    ensures { Adds W.Sink (xml (end name.now ∷ [])) output.old output.new }
{
    output.put(b"</");
    output.put(name);
    output.put(b">");
}

/// Writes the attributes of a rectangle of cells.
pub(crate) fn put_box<W: Sink>(
    output: &mut Output<W>,
    column: usize,
    row: usize,
    columns: usize,
    rows: usize,
)
    requires column { column ≤ 1000 }
    requires row { row ≤ 2000 }
    requires columns { columns ≤ 1000 }
    requires rows { rows ≤ 2000 }
    ensures { Adds W.Sink (flat_map attribute_xml (box column row columns rows)) output.old output.new }
{
    put_number(output, b"x", 10 * column as u16);
    put_number(output, b"y", 20 * row as u16);
    put_number(output, b"width", 10 * columns as u16);
    put_number(output, b"height", 20 * rows as u16);
}

/// Writes a rectangle of cells of a class.
pub(crate) fn put_class_box<W: Sink>(
    output: &mut Output<W>,
    column: usize,
    row: usize,
    columns: usize,
    rows: usize,
    name: &[u8],
)
    requires column { column ≤ 1000 }
    requires row { row ≤ 2000 }
    requires columns { columns ≤ 1000 }
    requires rows { rows ≤ 2000 }
    ensures { Adds W.Sink (xml (rectangle (box column row columns rows ++ (class name.now ∷ []))))
        output.old output.new }
{
    output.put(b"<rect");
    put_box(output, column, row, columns, rows);
    put_attribute(output, b"class", name);
    output.put(b">");
    put_end(output, b"rect");
}
