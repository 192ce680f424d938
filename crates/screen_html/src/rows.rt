//! Rows as HTML.
ghost use Rattle.std.specs.Prelude.{◌≡◌, ◌≤◌, ◌∷◌, [], length, map};
ghost use Rattle.anstyle_parse.specs.Io.Output.{Adds};
ghost use Rattle.ansi_screen.specs.Grid.{IsBlankFrom};
ghost use Rattle.ansi_screen.specs.Text.{marks_text};
ghost use Rattle.ansi_html.specs.Blocks.{block_begin, block_end};
ghost use Rattle.ansi_html.specs.Html.{escaped_text};
ghost use Rattle.ansi_html.specs.Styled.{output_of as styled_output, styling_of, shown_in, WritesStyled};
ghost use Rattle.screen_html.specs.Paid.{purse_of, paid, purse_after};
ghost use Rattle.screen_html.specs.Shown.{cell_styled, line_feed, linking_of, row_styled, row_linking};

use crate::runs::{BLOCK, copy_run, put_run};
use crate::spare::{begin_link, end_line};
use crate::table::{LinkMemory, LinkTable};
use ansi_html::{Link, StyledWriter, Styling};
use ansi_screen::{Cell, LeftOut, Marks, TakeCommand, TakeRow, goes_on, used_of_written};
use ansi_style::Style;
use anstyle_parse::io::{Output, Sink};
use screen_text::WriteRows;

/// Writes marks in the style that is selected.
fn put_marks<W: Sink>(writer: &mut StyledWriter<W>, marks: Marks)
    ensures styling { styling_of writer.new ≡ styling_of writer.old }
    ensures shown { shown_in writer.new ≡ shown_in writer.old }
    ensures added { Adds W.Sink (escaped_text (marks_text marks))
        (styled_output writer.old) (styled_output writer.new) }
{
    match marks {
        Marks::Unmarked => {}
        Marks::One(first) => writer.put_char(first),
        Marks::Two(first, second) => {
            writer.put_char(first);
            writer.put_char(second);
        }
    }
}

/// Writes the character of a cell, unless it is a right half, and its marks, in its style and its link, where that is
/// the last one or is paid with what is spare.
fn put_cell<W: Sink>(
    writer: &mut StyledWriter<W>,
    links: &LinkTable,
    last: &mut Link,
    spare: &mut usize,
    cell: Cell,
)
    ensures written { WritesStyled W.Sink writer.old
        (paid (purse_of last.old spare.old) (cell_styled links.now.places cell ∷ [])) writer.new }
    ensures spent { purse_of last.new spare.new
        ≡ purse_after (purse_of last.old spare.old) (cell_styled links.now.places cell ∷ []) }
{
    if !cell.is_right() {
        begin_link(links, cell.link, last, spare);
        writer.select(cell.style, last);
        writer.put_char(cell.character);
        put_marks(writer, cell.marks);
    }
}

/// The same of cells, one after another: those of a run at once.
fn put_cells<W: Sink>(
    writer: &mut StyledWriter<W>,
    links: &LinkTable,
    last: &mut Link,
    spare: &mut usize,
    cells: &[Cell],
)
    ensures written { WritesStyled W.Sink writer.old
        (paid (purse_of last.old spare.old) (map (cell_styled links.now.places) cells.now)) writer.new }
    ensures spent { purse_of last.new spare.new
        ≡ purse_after (purse_of last.old spare.old) (map (cell_styled links.now.places) cells.now) }
{
    let mut block = [0; BLOCK];
    let mut rest = cells;
    'rest: while let Some((first, further)) = rest.split_first() {
        let count = copy_run(first, rest, &mut block);
        if count == 0 {
            put_cell(writer, links, last, spare, *first);
            rest = further;
        } else {
            put_run(writer, links, last, spare, first, &block[..count]);
            let (_, others) = rest.split_at(count);
            rest = others;
        }
    }
}

/// Ends a line, and the element that is open.
pub(crate) fn put_line_feed<W: Sink>(writer: &mut StyledWriter<W>, links: &LinkTable)
    ensures { WritesStyled W.Sink writer.old (line_feed ∷ []) writer.new }
{
    writer.select(Style::default(), links.none());
    writer.put_char('\n');
}

/// Writes a row, without the cells at its end where nothing was printed; with a line feed, unless
/// it goes on. Those from `written` on are plain blanks, and are not looked at.
pub(crate) fn put_row<W: Sink>(
    writer: &mut StyledWriter<W>,
    links: &LinkTable,
    last: &mut Link,
    spare: &mut usize,
    row: &[Cell],
    written: usize,
)
    requires within { written ≤ length row.now }
    requires rest { IsBlankFrom written row.now }
    ensures written { WritesStyled W.Sink writer.old
        (row_styled (linking_of last.old links.now.places spare.old) row.now) writer.new }
    ensures linking { linking_of last.new links.now.places spare.new
        ≡ row_linking (linking_of last.old links.now.places spare.old) row.now }
{
    let end = used_of_written(row, written, LeftOut::Unprinted);
    put_cells(writer, links, last, spare, &row[..end]);
    if !goes_on(row) {
        put_line_feed(writer, links);
        end_line(links, last, spare);
    }
}

/// Writes rows as HTML: each run of equal style and link in a span or a link, and a row that goes on and the next
/// one as one line. No span and no link goes over a line's end. A link is begun where what is spare pays for it, and is
/// else left out.
#[derive(Drop)]
pub struct HtmlRows<W> {
    writer: StyledWriter<W>,
    links: LinkTable,
    /// The link of the last text.
    last: Link,
    /// The last row goes on.
    is_open: bool,
}

impl<W: Sink> HtmlRows<W> {
    ghost use Rattle.std.specs.Prelude.{false};
    ghost use Rattle.ansi_html.specs.Html.{no_element};
    ghost use Rattle.screen_html.specs.Shown.{no_linking};
    ghost use Rattle.screen_html.specs.Writer.{output_of, standing_of};

    /// One that writes to this output, says styles in this way, keeps links in this memory, and has taken no row.
    pub fn new(styling: Styling, memory: LinkMemory, output: Output<W>) -> HtmlRows<W>
        ensures output { output_of result ≡ output }
        ensures new { standing_of result ≡ record {
          styling = styling;
          shown = no_element;
          linking = no_linking;
          is_open = false;
        } }
    {
        HtmlRows {
            writer: StyledWriter::new(styling, output),
            links: memory.into_table(),
            last: Link::none(),
            is_open: false,
        }
    }

    /// Begins the element of a block of lines, before a line.
    pub(crate) fn begin_block(&mut self)
        ensures standing { standing_of self.new ≡ standing_of self.old }
        ensures added { Adds W.Sink block_begin (output_of self.old) (output_of self.new) }
    {
        self.writer.begin_block();
    }

    /// Ends it, after a line.
    pub(crate) fn end_block(&mut self)
        ensures standing { standing_of self.new ≡ standing_of self.old }
        ensures added { Adds W.Sink block_end (output_of self.old) (output_of self.new) }
    {
        self.writer.end_block();
    }
}

impl<W: Sink> TakeRow for HtmlRows<W> {
    ghost use Rattle.screen_html.specs.Writer.{TakesRow, PassesOn};

    ghost takes = { TakesRow W.Sink };

    ghost passes_on = { PassesOn W.Sink };

    fn take_row(&mut self, row: &[Cell], written: usize) {
        let mut spare = self.links.spare();
        put_row(
            &mut self.writer,
            &self.links,
            &mut self.last,
            &mut spare,
            row,
            written,
        );
        self.links.set_spare(spare);
        self.is_open = goes_on(row);
    }

    fn pass_on(&mut self) {
        self.writer.pass_on();
    }
}

/// A link that begins is kept by its number, and earns what it costs.
impl<W: Sink> TakeCommand for HtmlRows<W> {
    ghost use Rattle.screen_html.specs.Writer.{TakesCommand};

    ghost takes_command = { TakesCommand W.Sink };

    fn take_command(&mut self, link: u32, parts: &[&[u8]]) {
        self.links.take_command(link, parts);
    }
}

/// At the end it ends the last line, where the last row goes on.
impl<W: Sink> WriteRows<W> for HtmlRows<W> {
    ghost use Rattle.screen_html.specs.Writer.{Between, output_of, standing_of, row_html, after_row, after_command, closing_html};

    ghost output_in = { output_of };

    ghost Standing = { Between };

    ghost standing_in = { standing_of };

    ghost row_text = { row_html };

    ghost after_row = { after_row };

    ghost closing = { closing_html };

    ghost after_command = { after_command };

    fn output(&self) -> &Output<W> {
        self.writer.output()
    }

    fn into_output(self) -> Output<W> {
        let HtmlRows {
            mut writer,
            links,
            is_open,
            ..
        } = self;
        if is_open {
            put_line_feed(&mut writer, &links);
        }
        writer.into_output()
    }

    ghost writes_row = { λ old row new taken. taken };

    ghost writes_command = { λ old link parts new taken. taken };

    ghost writes_nothing = { λ old new passed. passed };
}
