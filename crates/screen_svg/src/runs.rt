//! The runs of a row, and how one is drawn.
ghost use Rattle.std.specs.Prelude.{◌≡◌, ◌≤◌, ◌<◌, ◌+◌, ℕ, codes, length};
ghost use Rattle.std.specs.List.{flat_map};
ghost use Rattle.anstyle_parse.specs.Io.Output.{Adds};
ghost use Rattle.ansi_html.specs.Css.{ground_css};
ghost use Rattle.screen_svg.specs.Xml.{attribute, attribute_xml, xml};
ghost use Rattle.screen_svg.specs.Runs.{goes_with, count_with, run_of};
ghost use Rattle.screen_svg.specs.Picture.{is_drawn, run_ground, link_begin, linked, text_element, text, row_events};
ghost use Rattle.ansi_screen.specs.Text.{is_unprinted};

use crate::elements::{put_shape, put_text};
use crate::kinds::are_of_a_kind;
use crate::tags::{put_attribute, put_box, put_end};
use ansi_html::{Scheme, has_ground, put_ground};
use ansi_screen::{Cell, Marks, Part};
use ansi_style::Style;
use anstyle_parse::io::{Output, Sink};
use screen_html::LinkTable;

/// Whether nothing was printed there, or what was is erased.
#[tactic(auto, unfolding(ansi_screen::specs::Text::is_unprinted))]
fn is_unprinted(cell: &Cell) -> bool
    ensures { result ≡ is_unprinted cell.now }
{
    matches!(cell.part, Part::Empty) && matches!(cell.marks, Marks::Unmarked)
}

/// Whether a cell goes on with the run of a first one.
#[tactic(auto, unfolding(crate::specs::Runs::goes_with))]
fn goes_with(first: &Cell, cell: &Cell) -> bool
    ensures { result ≡ goes_with first.now cell.now }
{
    are_of_a_kind(first, cell)
        && first.style.is_same(&cell.style)
        && first.link == cell.link
        && is_unprinted(first) == is_unprinted(cell)
}

/// How many cells at the front go on with the run of a first one.
fn count_with(first: &Cell, cells: &[Cell]) -> usize
    ensures count { result ≡ count_with first.now cells.now }
    ensures within { result ≤ length cells.now }
{
    for i in 0..cells.len() {
        if !goes_with(first, &cells[i]) {
            return i;
        }
    }
    cells.len()
}

/// Whether text is drawn in a cell.
fn is_drawn(cell: &Cell) -> bool
    ensures { result ≡ is_drawn cell.now }
{
    !cell.style.hidden && !is_unprinted(cell) && !cell.is_right()
}

/// Writes the ground of a run, where its style has one.
fn put_run_ground<W: Sink>(
    output: &mut Output<W>,
    row: usize,
    column: usize,
    first: &Cell,
    others: &[Cell],
)
    requires row { row < 2000 }
    requires columns { column + length others.now < 1000 }
    ensures { Adds W.Sink (xml (run_ground row (run_of column first.now others.now))) output.old output.new }
{
    if has_ground(&first.style) {
        output.put(b"<rect");
        put_box(output, column, row, others.len() + 1, 1);
        put_ground_style(output, &first.style);
        output.put(b">");
        put_end(output, b"rect");
    }
}

/// Writes the colour of a ground.
fn put_ground_style<W: Sink>(output: &mut Output<W>, style: &Style)
    ensures { Adds W.Sink (attribute_xml (attribute (codes "style") (ground_css style.now))) output.old output.new }
{
    output.put(b" style=\"");
    put_ground(output, style);
    output.put(b"\"");
}

/// Writes the text of a run, and before it its shapes, where it has some.
fn put_text_element<W: Sink>(
    output: &mut Output<W>,
    scheme: Scheme,
    row: usize,
    column: usize,
    first: &Cell,
    others: &[Cell],
)
    requires row { row < 2000 }
    requires columns { column + length others.now < 1000 }
    ensures { Adds W.Sink (xml (text_element scheme row (run_of column first.now others.now))) output.old output.new }
{
    put_shape(output, scheme, row, column, first, others);
    put_text(output, scheme, row, column, first, others);
}

/// Writes the beginning of a link.
fn put_link_begin<W: Sink>(output: &mut Output<W>, uri: &[u8])
    ensures { Adds W.Sink (xml (link_begin uri.now)) output.old output.new }
{
    output.put(b"<a");
    put_attribute(output, b"href", uri);
    output.put(b">");
}

/// Writes the text of a run in its link, where it has one.
fn put_linked<W: Sink>(
    output: &mut Output<W>,
    scheme: Scheme,
    uri: &[u8],
    row: usize,
    column: usize,
    first: &Cell,
    others: &[Cell],
)
    requires row { row < 2000 }
    requires columns { column + length others.now < 1000 }
    ensures { Adds W.Sink (xml (linked uri.now (text_element scheme row (run_of column first.now others.now))))
        output.old output.new }
{
    if uri.is_empty() {
        put_text_element(output, scheme, row, column, first, others);
    } else {
        put_link_begin(output, uri);
        put_text_element(output, scheme, row, column, first, others);
        put_end(output, b"a");
    }
}

/// Writes the text of a run, where it has one that is drawn.
fn put_run_text<W: Sink>(
    output: &mut Output<W>,
    scheme: Scheme,
    links: &LinkTable,
    row: usize,
    column: usize,
    first: &Cell,
    others: &[Cell],
)
    requires row { row < 2000 }
    requires columns { column + length others.now < 1000 }
    ensures { Adds W.Sink (xml (text scheme links.now.places row (run_of column first.now others.now)))
        output.old output.new }
{
    if is_drawn(first) {
        let uri = links.link(first.link).uri();
        put_linked(output, scheme, uri, row, column, first, others);
    }
}

/// Writes the runs of a row.
pub(crate) fn put_row<W: Sink>(
    output: &mut Output<W>,
    scheme: Scheme,
    links: &LinkTable,
    row: usize,
    cells: &[Cell],
)
    requires row { row < 2000 }
    requires columns { length cells.now ≤ 1000 }
    ensures { Adds W.Sink (xml (row_events scheme links.now.places row cells.now)) output.old output.new }
{
    let mut rest = cells;
    let mut column = 0;
    'rest: while let Some((first, further)) = rest.split_first() {
        let count = count_with(first, further);
        let (others, following) = further.split_at(count);
        put_run_ground(output, row, column, first, others);
        put_run_text(output, scheme, links, row, column, first, others);
        rest = following;
        column += 1 + count;
    }
}
