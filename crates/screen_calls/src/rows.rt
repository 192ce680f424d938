//! Rows as calls.
ghost use Rattle.std.specs.Prelude.{◌≡◌, ◌≤◌, ◌∷◌, [], map, length};
ghost use Rattle.anstyle_parse.specs.Stream.Call.{print};
ghost use Rattle.ansi_screen.specs.Grid.{IsBlankFrom};
ghost use Rattle.html_urls.specs.Linked.{prints};
ghost use Rattle.screen_calls.specs.Calls.{marks_of, cell_calls, pen_behind, cells_calls, pen_after, feed_calls, pen_fed, printed_cells, behind_cells, row_calls, hand_after};
ghost use Rattle.screen_calls.specs.Rows.{pen_in, hand_in};

use crate::select::{end_link, select_link, select_style};
use ansi_html::Link;
use ansi_screen::{Cell, LeftOut, Marks, TakeCommand, TakeRow, goes_on, used_of_written};
use ansi_style::Style;
use anstyle_parse::PerformText;
use anstyle_parse::io::{Output, Sink, WritingPerformer};
use html_urls::Resumable;
use screen_html::{LinkTable, end_line};
use screen_text::WriteRows;
use std::marker::PhantomData;

/// What the calls so far leave to the next character.
#[derive(Drop)]
pub(crate) struct Pen {
    /// The style that is selected.
    style: Style,
    /// The link that is.
    last: Link,
    /// What is spare to begin links with. Between two rows the table has it.
    spare: usize,
}

/// Prints a character.
fn give_character<P: PerformText>(performer: &mut P, c: char)
    ensures { P.receives performer.old (print c ∷ []) performer.new }
{
    performer.print(c);
}

/// Prints marks.
fn give_marks<P: PerformText>(performer: &mut P, marks: Marks)
    ensures { P.receives performer.old (prints (marks_of marks)) performer.new }
{
    match marks {
        Marks::Unmarked => {}
        Marks::One(first) => give_character(performer, first),
        Marks::Two(first, second) => {
            give_character(performer, first);
            give_character(performer, second);
        }
    }
}

/// Prints the character of a cell, unless it is a right half, and its marks, in its style and its link, where that is
/// the last one or is paid with what is spare.
fn give_cell<P: PerformText>(performer: &mut P, links: &LinkTable, pen: &mut Pen, cell: Cell)
    ensures received { P.receives performer.old (cell_calls links.now.places (pen_in pen.old) cell) performer.new }
    ensures pen { pen_in pen.new ≡ pen_behind links.now.places (pen_in pen.old) cell }
{
    if !cell.is_right() {
        select_link(performer, links, cell.link, &mut pen.last, &mut pen.spare);
        select_style(performer, &mut pen.style, cell.style);
        give_character(performer, cell.character);
        give_marks(performer, cell.marks);
    }
}

/// The same of cells, one after another.
fn give_cells<P: PerformText>(performer: &mut P, links: &LinkTable, pen: &mut Pen, cells: &[Cell])
    ensures received { P.receives performer.old (cells_calls links.now.places (pen_in pen.old) cells.now)
        performer.new }
    ensures pen { pen_in pen.new ≡ pen_after links.now.places (pen_in pen.old) cells.now }
{
    let mut rest = cells;
    'rest: while let Some((first, further)) = rest.split_first() {
        give_cell(performer, links, pen, *first);
        rest = further;
    }
}

/// Ends a line.
fn give_feed<P: PerformText>(performer: &mut P, links: &LinkTable, pen: &mut Pen)
    ensures received { P.receives performer.old (feed_calls (pen_in pen.old)) performer.new }
    ensures pen { pen_in pen.new ≡ pen_fed (pen_in pen.old) }
{
    end_link(performer, &pen.last);
    end_line(links, &mut pen.last, &mut pen.spare);
    select_style(performer, &mut pen.style, Style::default());
    performer.execute(b'\n');
}

/// Gives on a row, without the cells at its end where nothing was printed; with a line feed, unless it goes on. Those
/// from `written` on are plain blanks, and are not looked at.
fn give_row<P: PerformText>(
    performer: &mut P,
    links: &LinkTable,
    pen: &mut Pen,
    row: &[Cell],
    written: usize,
)
    requires within { written ≤ length row.now }
    requires rest { IsBlankFrom written row.now }
    ensures received { P.receives performer.old (row_calls (hand_in links.now.places (pen_in pen.old)) row.now)
        performer.new }
    ensures pen { pen_in pen.new ≡ (hand_after (hand_in links.now.places (pen_in pen.old)) row.now).pen }
{
    let end = used_of_written(row, written, LeftOut::Unprinted);
    give_cells(performer, links, pen, &row[..end]);
    if !goes_on(row) {
        give_feed(performer, links, pen);
    }
}

/// Gives rows on to a performer as the calls of a stream, which select the styles of the cells and begin their links: a
/// row that goes on and the next one as one line. So the performer may be any that converts a stream. A link is begun
/// where what is spare pays for it, as in the HTML of rows ([`HtmlRows`](screen_html::HtmlRows)), and is else left out.
#[derive(Drop)]
pub struct CallRows<P, W> {
    performer: P,
    links: LinkTable,
    pen: Pen,
    /// The last row goes on.
    is_open: bool,
    sink: PhantomData<W>,
}

impl<P: PerformText, W: Sink> CallRows<P, W> {
    ghost use Rattle.screen_calls.specs.Calls.{at_start};
    ghost use Rattle.screen_calls.specs.Rows.{performer_in, hand_of};
    ghost use Rattle.screen_html.specs.Links.{no_links};

    /// One that gives on to this performer, keeps links in this table, which has none yet, and has taken no row.
    pub fn new(links: LinkTable, performer: P) -> CallRows<P, W>
        requires { links ≡ no_links }
        ensures performer { performer_in result ≡ performer }
        ensures hand { hand_of result ≡ at_start }
    {
        let spare = links.spare();
        CallRows {
            performer,
            links,
            pen: Pen {
                style: Style::default(),
                last: Link::none(),
                spare,
            },
            is_open: false,
            sink: PhantomData,
        }
    }
}

impl<W: Sink, P: WritingPerformer<W>> TakeRow for CallRows<P, W> {
    ghost use Rattle.screen_calls.specs.Rows.{TakesRow, PassesOn};

    ghost takes = { TakesRow P.receives };

    ghost passes_on = { PassesOn P.receives };

    fn take_row(&mut self, row: &[Cell], written: usize) {
        self.pen.spare = self.links.spare();
        give_row(
            &mut self.performer,
            &self.links,
            &mut self.pen,
            row,
            written,
        );
        self.links.set_spare(self.pen.spare);
        self.is_open = goes_on(row);
    }

    fn pass_on(&mut self) {
        self.performer.pass_on();
    }
}

/// A link that begins is kept by its number, and earns what it costs.
impl<W: Sink, P: WritingPerformer<W>> TakeCommand for CallRows<P, W> {
    ghost use Rattle.screen_calls.specs.Rows.{TakesCommand};

    ghost takes_command = { TakesCommand };

    fn take_command(&mut self, link: u32, parts: &[&[u8]]) {
        self.links.take_command(link, parts);
    }
}

/// At the end it ends the last line, where the last row goes on.
impl<W: Sink, P: Resumable<W>> WriteRows<W> for CallRows<P, W> {
    ghost use Rattle.screen_calls.specs.Rows.{performer_in};
    ghost use Rattle.screen_calls.specs.Writer.{Standing, standing_in, row_text, after_row, after_command, closing};
    ghost use Rattle.screen_calls.specs.WriterProof.{row-written, command-written, nothing-written};

    ghost output_in = { λ rows. P.output_in (performer_in rows) };

    ghost Standing = { Standing };

    ghost standing_in = { standing_in P.text_from P.ending_from };

    ghost row_text = { row_text };

    ghost after_row = { after_row };

    ghost closing = { closing };

    ghost after_command = { after_command };

    fn output(&self) -> &Output<W> {
        self.performer.output()
    }

    fn into_output(self) -> Output<W> {
        let CallRows {
            mut performer,
            links,
            mut pen,
            is_open,
            ..
        } = self;
        if is_open {
            give_feed(&mut performer, &links, &mut pen);
        }
        performer.into_output()
    }

    ghost writes_row = { row-written W.Sink P.goes_on P.output_in P.adds };

    ghost writes_command = { command-written W.Sink P.output_in P.text_from P.ending_from };

    ghost writes_nothing = { nothing-written W.Sink P.goes_on P.output_in P.adds P.follows.none };
}
