//! What a screen shows as HTML, and the URIs of its links, in the caller's room.
ghost use Rattle.std.specs.Prelude.{◌≡◌, ◌⊎◌, IfOk, IfErr, IfSome};
ghost use Rattle.anstyle_parse.specs.Io.Output.{Adds};
ghost use Rattle.screen_html.specs.Links.{link_at};
ghost use Rattle.screen_html.specs.Page.{lines_html};
ghost use Rattle.screen_pieces.specs.Page.{styling_numbered, html_of};
ghost use Rattle.screen_pieces.specs.Rows.{rows_numbered, html_of_lines};
ghost use Rattle.screen_pieces.specs.Terminal.{table_of};
ghost use Rattle.screen_pieces.specs.Text.{HasText, LacksRoom};

use crate::drawing::collected;
use crate::terminal::Terminal;
use crate::text::put_bytes;
use ansi_html::{Scheme, Styling};
use anstyle_parse::io::{FromWrite, Output, Sink};
use screen_html::PageRows;
use std::alloc::Global;

/// The number of the rows that show.
const SHOWN: u8 = 0;

/// The styling of a number: 1 for light pages, 2 for dark ones, 3 by classes, and any other for both.
fn styling_at(number: u8) -> Styling
    ensures { result ≡ styling_numbered number }
{
    match number {
        1 => Styling::Inline(Scheme::Light),
        2 => Styling::Inline(Scheme::Dark),
        3 => Styling::Classes,
        _ => Styling::Inline(Scheme::Both),
    }
}

/// Writes the HTML of rows, by a number.
fn write_lines<W: Sink>(
    terminal: &Terminal,
    which: u8,
    styling: Styling,
    output: Output<W>,
) -> Output<W>
    ensures { Adds W.Sink (lines_html styling (table_of terminal.now) (rows_numbered which terminal.now)) output
        result }
{
    let mut rows = PageRows::new(styling, terminal.links(), output);
    terminal.hand_on(which, &mut rows);
    rows.into_output()
}

/// The same as bytes; `None` where memory was wanting.
fn page(alloc: Global, terminal: &Terminal, which: u8, styling: u8) -> Option<Vec<u8>>
    ensures { IfSome result (λ bytes. bytes.items ≡ html_of_lines which styling terminal.now) }
{
    let output = Output::new(FromWrite::new(Vec::new(alloc)));
    collected(write_lines(terminal, which, styling_at(styling), output))
}

impl Terminal {
    ghost use Rattle.screen_pieces.specs.Terminal.{links_of};

    /// Writes what it shows as HTML to the front of the room, in the styling of a number: 1 for light pages, 2 for dark
    /// ones, 3 by classes, and any other for both. It answers how many bytes there are. `Err` has 0 where memory is
    /// wanting, which is taken while they are made; and else how many bytes there are, which the room has not; then
    /// what stands in the room does not count.
    pub fn html(&self, alloc: Global, styling: u8, room: &mut [u8]) -> Result<usize, usize>
        ensures text { IfOk result (HasText (html_of styling self.now) room.old room.new) }
        ensures refused { IfErr result
            (λ needed. (needed ≡ 0) ⊎ LacksRoom (html_of styling self.now) room.old needed) }
    {
        self.lines_html(alloc, SHOWN, styling, room)
    }

    /// The same with the rows of a number, as [`Terminal::lines`] has them: 1 for those that left, 2 for these and then
    /// those that show, and any other for those that show.
    pub fn lines_html(
        &self,
        alloc: Global,
        which: u8,
        styling: u8,
        room: &mut [u8],
    ) -> Result<usize, usize>
        ensures text { IfOk result (HasText (html_of_lines which styling self.now) room.old room.new) }
        ensures refused { IfErr result
            (λ needed. (needed ≡ 0) ⊎ LacksRoom (html_of_lines which styling self.now) room.old needed) }
    {
        match page(alloc, self, which, styling) {
            None => Err(0),
            Some(bytes) => put_bytes(bytes.as_slice(), room),
        }
    }

    /// Writes the URI of a link to the front of the room, and answers how many bytes it has; none where no link of the
    /// number is kept, or its URI is not one that is shown. `Err` has how many bytes there are, which the room has not;
    /// then what stands in the room does not count.
    pub fn link_uri(&self, number: u32, room: &mut [u8]) -> Result<usize, usize>
        ensures text { IfOk result (HasText (link_at number (links_of self.now)) room.old room.new) }
        ensures refused { IfErr result (LacksRoom (link_at number (links_of self.now)) room.old) }
    {
        put_bytes(self.links().link(number).uri(), room)
    }
}
