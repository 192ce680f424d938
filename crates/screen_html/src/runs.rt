//! Runs of cells of one style and one link whose text has one byte each.
ghost use Rattle.std.specs.Prelude.{◌≡◌, ◌≤◌, ◌<◌, ◌∷◌, [], length, take, IsTrue};
ghost use Rattle.ansi_html.specs.ShownLinks.{link_in};
ghost use Rattle.ansi_html.specs.Styled.{styled, WritesStyled};
ghost use Rattle.screen_html.specs.Links.{link_at};
ghost use Rattle.screen_html.specs.Paid.{purse_of, purse_with};
ghost use Rattle.screen_html.specs.Shown.{IsRun};

use crate::alike::is_alike;
use crate::spare::begin_link;
use crate::table::LinkTable;
use ansi_html::{Link, StyledWriter};
use ansi_screen::{Cell, is_ascii_alone};
use anstyle_parse::io::Sink;

/// How many cells are written at once, at most.
pub(crate) const BLOCK: usize = 128;

/// Copies into the block the text of the cells at the front, as far as each has one byte and the style and the link of
/// `first`, and the block has room. It answers how many cells these are.
#[inline]
pub(crate) fn copy_run(first: &Cell, cells: &[Cell], block: &mut [u8; BLOCK]) -> usize
    ensures run { IsRun first.now (take result cells.now) (take result block.new) }
    ensures within { result ≤ length cells.now }
    ensures room { result ≤ BLOCK }
{
    let count = cells.len().min(BLOCK);
    for i in 0..count {
        let cell = &cells[i];
        if !(is_ascii_alone(cell) && is_alike(cell, first)) {
            return i;
        }
        block[i] = cell.character as u8;
    }
    count
}

/// Writes text in the style and the link of a cell, where that is the last one or is paid with what is spare.
pub(crate) fn put_run<W: Sink>(
    writer: &mut StyledWriter<W>,
    links: &LinkTable,
    last: &mut Link,
    spare: &mut usize,
    cell: &Cell,
    text: &[u8],
)
    requires some { 0 < length text.now }
    ensures written { WritesStyled W.Sink writer.old
        (styled cell.now.style (link_in last.new) text.now ∷ []) writer.new }
    ensures spent { purse_of last.new spare.new
        ≡ purse_with (purse_of last.old spare.old) (link_at cell.now.link links.now.places) }
{
    begin_link(links, cell.link, last, spare);
    writer.select(cell.style, last);
    writer.put_text(text);
}
