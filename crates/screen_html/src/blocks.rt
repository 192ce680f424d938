//! Rows as HTML in blocks of lines.
ghost use Rattle.std.specs.Prelude.{◌≡◌, ◌≤◌, ◌-◌};
ghost use Rattle.anstyle_parse.specs.Io.Output.{Adds};

use crate::rows::HtmlRows;
use crate::table::LinkMemory;
use ansi_html::{LINES_A_BLOCK, Styling, put_block_end};
use ansi_screen::{Cell, TakeCommand, TakeRow, goes_on};
use anstyle_parse::io::{Output, Sink};
use screen_text::WriteRows;

/// Writes rows as [`HtmlRows`] does, in blocks that a browser may lay out one by one.
///
/// Each block, `<span data-lines="500">…</span>`, has 500 lines, with the line feeds at their ends, and the last one
/// what is left. A line of several rows is one line, and stands in one block. A block begins before its first row, so
/// where no row is taken there is none.
#[derive(Drop)]
pub struct BlockRows<W> {
    rows: HtmlRows<W>,
    /// The lines that the block which is open may still take; 0 where none is open.
    left: u64,
}

impl<W: Sink> BlockRows<W> {
    ghost use Rattle.screen_html.specs.Blocks.{blocks_output, blocked_of, blocked_at_start, blocked, block_opening, block_closing, left_with_row};

    /// One that writes to this output, says styles in this way, keeps links in this memory, and has taken no row.
    pub fn new(styling: Styling, memory: LinkMemory, output: Output<W>) -> BlockRows<W>
        ensures output { blocks_output result ≡ output }
        ensures new { blocked_of result ≡ blocked_at_start styling }
    {
        BlockRows {
            rows: HtmlRows::new(styling, memory, output),
            left: 0,
        }
    }

    /// A row follows: where no block is open, the next one begins.
    fn begin_row(&mut self)
        ensures standing { blocked_of self.new
            ≡ blocked (blocked_of self.old).inside (left_with_row (blocked_of self.old)) }
        ensures added { Adds W.Sink (block_opening (blocked_of self.old))
            (blocks_output self.old) (blocks_output self.new) }
    {
        if self.left == 0 {
            self.rows.begin_block();
            self.left = LINES_A_BLOCK;
        }
    }

    /// A line has ended: so does the block, if that was its last one.
    fn end_line(&mut self)
        requires { 1 ≤ (blocked_of self.old).left }
        ensures standing { blocked_of self.new
            ≡ blocked (blocked_of self.old).inside ((blocked_of self.old).left - 1) }
        ensures added { Adds W.Sink (block_closing ((blocked_of self.old).left - 1))
            (blocks_output self.old) (blocks_output self.new) }
    {
        self.left -= 1;
        if self.left == 0 {
            self.rows.end_block();
        }
    }
}

impl<W: Sink> TakeRow for BlockRows<W> {
    ghost use Rattle.screen_html.specs.Blocks.{TakesRow, PassesOn};

    ghost takes = { TakesRow W.Sink };

    ghost passes_on = { PassesOn W.Sink };

    fn take_row(&mut self, row: &[Cell], written: usize) {
        self.begin_row();
        self.rows.take_row(row, written);
        if !goes_on(row) {
            self.end_line();
        }
    }

    fn pass_on(&mut self) {
        self.rows.pass_on();
    }
}

/// A link that begins is kept by its number.
impl<W: Sink> TakeCommand for BlockRows<W> {
    ghost use Rattle.screen_html.specs.Blocks.{TakesCommand};

    ghost takes_command = { TakesCommand W.Sink };

    fn take_command(&mut self, link: u32, parts: &[&[u8]]) {
        self.rows.take_command(link, parts);
    }
}

/// At the end it ends the last line, where the last row goes on, and the block that is open.
impl<W: Sink> WriteRows<W> for BlockRows<W> {
    ghost use Rattle.screen_html.specs.Blocks.{Blocked, blocks_output, blocked_of, row_blocked, after_row_blocked, after_command_blocked, closing_blocked};

    ghost output_in = { blocks_output };

    ghost Standing = { Blocked };

    ghost standing_in = { blocked_of };

    ghost row_text = { row_blocked };

    ghost after_row = { after_row_blocked };

    ghost closing = { closing_blocked };

    ghost after_command = { after_command_blocked };

    fn output(&self) -> &Output<W> {
        self.rows.output()
    }

    fn into_output(self) -> Output<W> {
        let BlockRows { rows, left } = self;
        let mut output = rows.into_output();
        if left != 0 {
            put_block_end(&mut output);
        }
        output
    }

    ghost writes_row = { λ old row new taken. taken };

    ghost writes_command = { λ old link parts new taken. taken };

    ghost writes_nothing = { λ old new passed. passed };
}
