//! The performer that writes HTML in blocks of lines.
ghost use Rattle.std.specs.Prelude.{◌≡◌};
ghost use Rattle.anstyle_parse.specs.Stream.Call.{execute};
ghost use Rattle.anstyle_parse.specs.Io.Output.{Adds};
ghost use Rattle.ansi_html.specs.Blocks.{blocked, left_with_text, block_opening};

use crate::block::{LINES_A_BLOCK, put_block_end};
use crate::inside::Inside;
use crate::scheme::Styling;
use ansi_strip::is_layout;
use anstyle_parse::io::{Output, Sink, WritingPerformer};
use anstyle_parse::{Params, Perform, PerformText};

/// Writes the text of a stream as [`HtmlWriter`](crate::HtmlWriter) does, or in lines as
/// [`LinesWriter`](crate::LinesWriter) does, in blocks that a browser may lay out one by one.
///
/// Each block, `<span data-lines="500">…</span>`, has 500 lines of the text, with the line feeds at their ends, and the
/// last one what is left. What a style or a link goes on over stands in each of its blocks anew. A block begins before
/// its first text, so an empty text has none.
#[derive(Drop)]
pub struct BlocksWriter<W> {
    inside: Inside<W>,
    /// The lines that the block which is open may still take; 0 where none is open.
    left: u64,
}

impl<W: Sink> BlocksWriter<W> {
    ghost use Rattle.ansi_html.specs.Blocker.{output_of, styling_of, numbered_of, blocked_of, IsNew, TakesCall};

    /// One that writes to this output, says styles in this way, and has received no call; of numbered lines, or of
    /// text alone. Nothing is written.
    pub fn new(styling: Styling, has_numbers: bool, output: Output<W>) -> BlocksWriter<W>
        ensures output { output_of result ≡ output }
        ensures new { IsNew styling has_numbers result }
    {
        BlocksWriter {
            inside: Inside::new(styling, has_numbers, output),
            left: 0,
        }
    }

    /// Text of a block may follow: where none is open, the next one begins.
    #[inline]
    fn begin_text(&mut self)
        ensures numbered { numbered_of self.new ≡ numbered_of self.old }
        ensures styling { styling_of self.new ≡ styling_of self.old }
        ensures standing { blocked_of self.new
            ≡ blocked (blocked_of self.old).inside (left_with_text (blocked_of self.old)) }
        ensures added { Adds W.Sink (block_opening (blocked_of self.old)) (output_of self.old) (output_of self.new) }
    {
        if self.left == 0 {
            self.inside.begin_block();
            self.left = LINES_A_BLOCK;
        }
    }

    /// Writes a line feed, and ends the block if that was its last line.
    fn put_line_feed(&mut self)
        ensures { TakesCall W.Sink self.old (execute 0x0A) self.new }
    {
        self.begin_text();
        self.inside.execute(b'\n');
        if self.left == 1 {
            self.inside.end_block();
            self.left = 0;
        } else {
            self.left -= 1;
        }
    }
}

impl<W: Sink> Perform for BlocksWriter<W> {
    ghost use Rattle.ansi_html.specs.Blocker.{TakesCall};

    ghost means = { TakesCall W.Sink };

    fn print(&mut self, c: char) {
        self.begin_text();
        self.inside.print(c);
    }

    fn execute(&mut self, byte: u8) {
        if byte == b'\n' {
            self.put_line_feed();
        } else if is_layout(byte) {
            self.begin_text();
            self.inside.execute(byte);
        } else {
            self.inside.execute(byte);
        }
    }

    fn hook(&mut self, _: &Params, _: &[u8], _: bool, _: u8) {}

    fn put(&mut self, _: u8) {}

    fn unhook(&mut self) {}

    fn osc_dispatch(&mut self, params: &[&[u8]], bell_terminated: bool) {
        self.inside.osc_dispatch(params, bell_terminated);
    }

    fn csi_dispatch(&mut self, params: &Params, intermediates: &[u8], ignore: bool, action: u8) {
        self.inside
            .csi_dispatch(params, intermediates, ignore, action);
    }

    fn esc_dispatch(&mut self, _: &[u8], _: bool, _: u8) {}
}

/// What stands between line feeds, tabs and carriage returns is written at once.
impl<W: Sink> PerformText for BlocksWriter<W> {
    ghost use Rattle.ansi_html.specs.Blocker.{TakesCalls};
    ghost use Rattle.ansi_html.specs.BlockingProof.{TakesCalls-follows};

    ghost receives = { TakesCalls W.Sink };

    fn print_text(&mut self, text: &str) {
        if !text.is_empty() {
            self.begin_text();
            self.inside.put_text(text);
        }
    }

    ghost follows = { TakesCalls-follows W.Sink };
}

/// What is still to be written is the end of the elements that are open, and of the block around them.
impl<W: Sink> WritingPerformer<W> for BlocksWriter<W> {
    ghost use Rattle.ansi_html.specs.Blocker.{output_of, text_from, ending_from};
    ghost use Rattle.ansi_html.specs.BlockingProof.{ending_from-taken};

    ghost output_in = { output_of };

    ghost text_from = { text_from };

    ghost ending_from = { ending_from };

    fn output(&self) -> &Output<W> {
        self.inside.output()
    }

    fn pass_on(&mut self) {
        self.inside.pass_on();
    }

    fn into_output(self) -> Output<W> {
        let BlocksWriter { inside, left } = self;
        let mut output = inside.into_output();
        if left != 0 {
            put_block_end(&mut output);
        }
        output
    }

    ghost adds = { λ _ _ _ taken. taken.added };

    ghost ends = { λ old calls new taken _. ending_from-taken W.Sink old new calls taken };
}
