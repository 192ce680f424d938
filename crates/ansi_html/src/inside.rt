//! What writes the text, or the numbered lines, that stand in blocks.
ghost use Rattle.std.specs.Prelude.{◌≡◌, ◌++◌, [], false, map};
ghost use Rattle.anstyle_parse.specs.Io.Output.{Adds};
ghost use Rattle.anstyle_parse.specs.Stream.Call.{print, execute, osc_dispatch, csi_dispatch};
ghost use Rattle.anstyle_parse.specs.Stream.Texts.{text_calls};
ghost use Rattle.ansi_html.specs.Html.{element_end};
ghost use Rattle.ansi_html.specs.Lines.{lined, ended};
ghost use Rattle.ansi_html.specs.Blocks.{block_begin, block_end, inside_end};

use crate::lines::LinesWriter;
use crate::scheme::Styling;
use anstyle_parse::io::{Output, Sink, WritingPerformer};
use anstyle_parse::{Params, Perform, PerformText};

/// Writes text, or numbered lines.
#[derive(Drop)]
pub(crate) struct Inside<W> {
    /// Where `has_numbers` is false, only its writer `html` writes.
    lines: LinesWriter<W>,
    has_numbers: bool,
}

impl<W: Sink> Inside<W> {
    ghost use Rattle.ansi_html.specs.Inside.{output_of, styling_of, numbered_of, lined_of, IsNew, TakesCall, TakesCalls};
    ghost use Rattle.anstyle_parse.specs.Views.Params.{groups_shown};

    /// One that writes to this output, says styles in this way, and has received no call.
    pub(crate) fn new(styling: Styling, has_numbers: bool, output: Output<W>) -> Inside<W>
        ensures output { output_of result ≡ output }
        ensures new { IsNew styling has_numbers result }
    {
        Inside {
            lines: LinesWriter::new(styling, output),
            has_numbers,
        }
    }

    /// Where it writes to.
    pub(crate) fn output(&self) -> &Output<W>
        ensures { result.now ≡ output_of self.now }
    {
        self.lines.html.output()
    }

    /// Hands on what the writer of the output holds back: as if it had received no call.
    pub(crate) fn pass_on(&mut self)
        ensures { TakesCalls W.Sink self.old [] self.new }
    {
        self.lines.pass_on();
    }

    /// Begins the element of a block.
    pub(crate) fn begin_block(&mut self)
        ensures numbered { numbered_of self.new ≡ numbered_of self.old }
        ensures styling { styling_of self.new ≡ styling_of self.old }
        ensures standing { lined_of self.new ≡ lined_of self.old }
        ensures added { Adds W.Sink block_begin (output_of self.old) (output_of self.new) }
    {
        self.lines.html.begin_block();
    }

    /// Ends the element that is open, and that of the block around it. What is selected stays.
    pub(crate) fn end_block(&mut self)
        ensures numbered { numbered_of self.new ≡ numbered_of self.old }
        ensures styling { styling_of self.new ≡ styling_of self.old }
        ensures standing { lined_of self.new
            ≡ lined (ended (lined_of self.old).at) (lined_of self.old).number false (lined_of self.old).spare }
        ensures added { Adds W.Sink (element_end (lined_of self.old).at.shown ++ block_end)
            (output_of self.old) (output_of self.new) }
    {
        self.lines.html.end_line();
        self.lines.is_open = false;
    }

    /// Writes a text.
    pub(crate) fn put_text(&mut self, text: &str)
        ensures { TakesCalls W.Sink self.old (text_calls text.now) self.new }
    {
        if self.has_numbers {
            self.lines.print_text(text);
        } else {
            self.lines.html.print_text(text);
        }
    }

    /// Writes a character.
    pub(crate) fn print(&mut self, c: char)
        ensures { TakesCall W.Sink self.old (print c) self.new }
    {
        if self.has_numbers {
            self.lines.print(c);
        } else {
            self.lines.html.print(c);
        }
    }

    /// Writes a control, if it is text.
    pub(crate) fn execute(&mut self, byte: u8)
        ensures { TakesCall W.Sink self.old (execute byte) self.new }
    {
        if self.has_numbers {
            self.lines.execute(byte);
        } else {
            self.lines.html.execute(byte);
        }
    }

    /// Selects a link, if the command says one.
    pub(crate) fn osc_dispatch(&mut self, params: &[&[u8]], bell_terminated: bool)
        ensures { TakesCall W.Sink self.old
            (osc_dispatch (map (λ part. part.now) params.now) bell_terminated) self.new }
    {
        if self.has_numbers {
            self.lines.osc_dispatch(params, bell_terminated);
        } else {
            self.lines.html.osc_dispatch(params, bell_terminated);
        }
    }

    /// Selects a style, if the sequence says one.
    pub(crate) fn csi_dispatch(
        &mut self,
        params: &Params,
        intermediates: &[u8],
        ignore: bool,
        action: u8,
    )
        ensures { TakesCall W.Sink self.old
            (csi_dispatch (groups_shown params.now) intermediates.now ignore action) self.new }
    {
        if self.has_numbers {
            self.lines
                .csi_dispatch(params, intermediates, ignore, action);
        } else {
            self.lines
                .html
                .csi_dispatch(params, intermediates, ignore, action);
        }
    }

    /// Writes what ends the elements that are open.
    pub(crate) fn into_output(self) -> Output<W>
        ensures { Adds W.Sink (inside_end (numbered_of self) (lined_of self)) (output_of self) result }
    {
        if self.has_numbers {
            self.lines.into_output()
        } else {
            self.lines.html.into_output()
        }
    }
}
