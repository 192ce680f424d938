//! The performer of each stream: what writes its text as HTML, or what a screen of its own showed.
ghost use Rattle.std.specs.Prelude.{◌≡◌, true, IfOk, IfErr};
ghost use Rattle.ansi_html.specs.Html.{html_text, html_ending};
ghost use Rattle.ansi_html.specs.Lines.{lined_text, lined_ending};
ghost use Rattle.ansi_html.specs.Blocks.{blocked_text, blocked_ending};
ghost use Rattle.html_urls.specs.Html.{urls_text, urls_ending, lined_urls_text, lined_urls_ending, blocked_urls_text, blocked_urls_ending};
ghost use Rattle.each_source.specs.Each.{Given, BeginsWith};
ghost use Rattle.screen_html.specs.Blocks.{left_blocked, ending_blocked};
ghost use Rattle.screen_html.specs.Shown.{left_html, ending_html};
ghost use Rattle.screen_text.specs.Recording.{is_decided, screen_for, CanBeShown};

use ansi_html::{BlocksWriter, HtmlWriter, LinesWriter, Styling};
use ansi_screen::Scrollable;
use anstyle_parse::io::{Output, Sink};
use each_source::Begin;
use html_urls::Linking;
use screen_html::{BlockRows, HtmlRows, LinkMemory};
use screen_text::{ShownSize, ShownWriter};
use std::alloc::{AllocError, Global};

/// Each stream is written with its styles said in this way.
#[derive(Debug, Clone, Copy, PartialEq, Eq)]
pub struct Converting {
    pub styling: Styling,
}

impl<W: Sink> Begin<HtmlWriter<W>, W> for Converting {
    ghost use Rattle.ansi_html.specs.Writer.{output_of, text_from, ending_from};
    ghost use Rattle.ansi2html.specs.Streams.{said_as};

    ghost text = { λ converting given. html_text (said_as converting) given.calls };

    ghost ending = { λ _ given. html_ending given.calls };

    ghost enough = { λ _ _. true };

    fn is_enough(&self, _front: &[u8]) -> bool {
        true
    }

    fn begin(&self, _front: &[u8], output: Output<W>) -> Result<HtmlWriter<W>, Output<W>>
        ensures output { IfOk result (λ performer. output_of performer ≡ output) }
        ensures text { IfOk result (λ performer. (given : Given) → BeginsWith (λ _. true) _front.now given
            → text_from performer given.calls ≡ html_text (said_as self.now) given.calls) }
        ensures ending { IfOk result (λ performer. (given : Given) → BeginsWith (λ _. true) _front.now given
            → ending_from performer given.calls ≡ html_ending given.calls) }
        ensures kept { IfErr result (λ kept. kept ≡ output) }
    {
        Ok(HtmlWriter::new(self.styling, output))
    }
}

/// The stream is written in lines, with its styles said in this way.
#[derive(Debug, Clone, Copy, PartialEq, Eq)]
pub struct Lining {
    pub styling: Styling,
}

impl<W: Sink> Begin<LinesWriter<W>, W> for Lining {
    ghost use Rattle.ansi_html.specs.Liner.{output_of, text_from, ending_from};
    ghost use Rattle.ansi2html.specs.Streams.{lined_as};

    ghost text = { λ lining given. lined_text (lined_as lining) given.calls };

    ghost ending = { λ _ given. lined_ending given.calls };

    ghost enough = { λ _ _. true };

    fn is_enough(&self, _front: &[u8]) -> bool {
        true
    }

    fn begin(&self, _front: &[u8], output: Output<W>) -> Result<LinesWriter<W>, Output<W>>
        ensures output { IfOk result (λ performer. output_of performer ≡ output) }
        ensures text { IfOk result (λ performer. (given : Given) → BeginsWith (λ _. true) _front.now given
            → text_from performer given.calls ≡ lined_text (lined_as self.now) given.calls) }
        ensures ending { IfOk result (λ performer. (given : Given) → BeginsWith (λ _. true) _front.now given
            → ending_from performer given.calls ≡ lined_ending given.calls) }
        ensures kept { IfErr result (λ kept. kept ≡ output) }
    {
        Ok(LinesWriter::new(self.styling, output))
    }
}

/// Each stream is written with its styles said in this way, and with the addresses in its text as links.
#[derive(Debug, Clone, Copy, PartialEq, Eq)]
pub struct ConvertingUrls {
    pub styling: Styling,
}

impl<W: Sink> Begin<Linking<HtmlWriter<W>>, W> for ConvertingUrls {
    ghost use Rattle.ansi_html.specs.Writer.{output_of};
    ghost use Rattle.html_urls.specs.Linker.{performer_in};
    ghost use Rattle.ansi2html.specs.Streams.{urls_said_as, text_with_urls, ending_with_urls};

    ghost text = { λ converting given. urls_text (urls_said_as converting) given.calls };

    ghost ending = { λ converting given. urls_ending (urls_said_as converting) given.calls };

    ghost enough = { λ _ _. true };

    fn is_enough(&self, _front: &[u8]) -> bool {
        true
    }

    fn begin(&self, _front: &[u8], output: Output<W>) -> Result<Linking<HtmlWriter<W>>, Output<W>>
        ensures output { IfOk result (λ performer. output_of (performer_in performer) ≡ output) }
        ensures text { IfOk result (λ performer. (given : Given) → BeginsWith (λ _. true) _front.now given
            → text_with_urls performer given.calls ≡ urls_text (urls_said_as self.now) given.calls) }
        ensures ending { IfOk result (λ performer. (given : Given) → BeginsWith (λ _. true) _front.now given
            → ending_with_urls performer given.calls ≡ urls_ending (urls_said_as self.now) given.calls) }
        ensures kept { IfErr result (λ kept. kept ≡ output) }
    {
        Ok(Linking::new(HtmlWriter::new(self.styling, output)))
    }
}

/// The stream is written in lines, with its styles said in this way, and with the addresses in its text as links.
#[derive(Debug, Clone, Copy, PartialEq, Eq)]
pub struct LiningUrls {
    pub styling: Styling,
}

impl<W: Sink> Begin<Linking<LinesWriter<W>>, W> for LiningUrls {
    ghost use Rattle.ansi_html.specs.Liner.{output_of};
    ghost use Rattle.html_urls.specs.Linker.{performer_in};
    ghost use Rattle.ansi2html.specs.Streams.{urls_lined_as, lines_with_urls, lines_ending_with_urls};

    ghost text = { λ lining given. lined_urls_text (urls_lined_as lining) given.calls };

    ghost ending = { λ lining given. lined_urls_ending (urls_lined_as lining) given.calls };

    ghost enough = { λ _ _. true };

    fn is_enough(&self, _front: &[u8]) -> bool {
        true
    }

    fn begin(&self, _front: &[u8], output: Output<W>) -> Result<Linking<LinesWriter<W>>, Output<W>>
        ensures output { IfOk result (λ performer. output_of (performer_in performer) ≡ output) }
        ensures text { IfOk result (λ performer. (given : Given) → BeginsWith (λ _. true) _front.now given
            → lines_with_urls performer given.calls ≡ lined_urls_text (urls_lined_as self.now) given.calls) }
        ensures ending { IfOk result (λ performer. (given : Given) → BeginsWith (λ _. true) _front.now given
            → lines_ending_with_urls performer given.calls ≡ lined_urls_ending (urls_lined_as self.now) given.calls) }
        ensures kept { IfErr result (λ kept. kept ≡ output) }
    {
        Ok(Linking::new(LinesWriter::new(self.styling, output)))
    }
}

/// Each stream is written in blocks of lines, with numbers or without, with its styles said in this way.
#[derive(Debug, Clone, Copy, PartialEq, Eq)]
pub struct Blocking {
    pub styling: Styling,
    pub has_numbers: bool,
}

impl<W: Sink> Begin<BlocksWriter<W>, W> for Blocking {
    ghost use Rattle.ansi_html.specs.Blocker.{output_of, text_from, ending_from};
    ghost use Rattle.ansi2html.specs.Streams.{blocked_as, has_numbers};

    ghost text = { λ blocking given. blocked_text (has_numbers blocking) (blocked_as blocking) given.calls };

    ghost ending = { λ blocking given. blocked_ending (has_numbers blocking) given.calls };

    ghost enough = { λ _ _. true };

    fn is_enough(&self, _front: &[u8]) -> bool {
        true
    }

    fn begin(&self, _front: &[u8], output: Output<W>) -> Result<BlocksWriter<W>, Output<W>>
        ensures output { IfOk result (λ performer. output_of performer ≡ output) }
        ensures text { IfOk result (λ performer. (given : Given) → BeginsWith (λ _. true) _front.now given
            → text_from performer given.calls ≡ blocked_text (has_numbers self.now) (blocked_as self.now) given.calls) }
        ensures ending { IfOk result (λ performer. (given : Given) → BeginsWith (λ _. true) _front.now given
            → ending_from performer given.calls ≡ blocked_ending (has_numbers self.now) given.calls) }
        ensures kept { IfErr result (λ kept. kept ≡ output) }
    {
        Ok(BlocksWriter::new(self.styling, self.has_numbers, output))
    }
}

/// The same, with the addresses in its text as links.
#[derive(Debug, Clone, Copy, PartialEq, Eq)]
pub struct BlockingUrls {
    pub styling: Styling,
    pub has_numbers: bool,
}

impl<W: Sink> Begin<Linking<BlocksWriter<W>>, W> for BlockingUrls {
    ghost use Rattle.ansi_html.specs.Blocker.{output_of};
    ghost use Rattle.html_urls.specs.Linker.{performer_in};
    ghost use Rattle.ansi2html.specs.Streams.{urls_blocked_as, urls_have_numbers, blocks_with_urls, blocks_ending_with_urls};

    ghost text = { λ blocking given.
        blocked_urls_text (urls_have_numbers blocking) (urls_blocked_as blocking) given.calls };

    ghost ending = { λ blocking given.
        blocked_urls_ending (urls_have_numbers blocking) (urls_blocked_as blocking) given.calls };

    ghost enough = { λ _ _. true };

    fn is_enough(&self, _front: &[u8]) -> bool {
        true
    }

    fn begin(&self, _front: &[u8], output: Output<W>) -> Result<Linking<BlocksWriter<W>>, Output<W>>
        ensures output { IfOk result (λ performer. output_of (performer_in performer) ≡ output) }
        ensures text { IfOk result (λ performer. (given : Given) → BeginsWith (λ _. true) _front.now given
            → blocks_with_urls performer given.calls
            ≡ blocked_urls_text (urls_have_numbers self.now) (urls_blocked_as self.now) given.calls) }
        ensures ending { IfOk result (λ performer. (given : Given) → BeginsWith (λ _. true) _front.now given
            → blocks_ending_with_urls performer given.calls
            ≡ blocked_urls_ending (urls_have_numbers self.now) (urls_blocked_as self.now) given.calls) }
        ensures kept { IfErr result (λ kept. kept ≡ output) }
    {
        let blocks = BlocksWriter::new(self.styling, self.has_numbers, output);
        Ok(Linking::new(blocks))
    }
}

/// Each stream is shown by a screen of this size, or of the one that it says, and that written with its styles said in
/// this way.
#[derive(Drop)]
pub struct Showing {
    alloc: Global,
    size: ShownSize,
    styling: Styling,
    ghost can_be: { CanBeShown size },
}

impl Showing {
    ghost use Rattle.ansi2html.specs.Streams.{size_of, shown_as};

    /// For screens of a size that screens can have.
    pub fn new(alloc: Global, size: ShownSize, styling: Styling) -> Showing
        requires { CanBeShown size }
        ensures size { size_of result ≡ size }
        ensures styling { shown_as result ≡ styling }
    {
        Showing {
            alloc,
            size,
            styling,
        }
    }

    /// A blank screen for a stream that begins with these bytes, and memory for links.
    fn parts(&self, front: &[u8]) -> Result<(Scrollable, LinkMemory), AllocError>
        ensures { IfOk result (λ parts. (given : Given) → BeginsWith (is_decided (size_of self.now)) front.now given
            → parts.0 ≡ screen_for (size_of self.now) given.read) }
    {
        let screen = self.size.screen(self.alloc, front)?;
        let memory = LinkMemory::new(self.alloc)?;
        Ok((screen, memory))
    }
}

impl<W: Sink> Begin<ShownWriter<HtmlRows<W>>, W> for Showing {
    ghost use Rattle.screen_html.specs.Writer.{output_of, standing_of, row_html, after_row, after_command, closing_html};
    ghost use Rattle.screen_text.specs.Writer.{rows_of, text_from, ending_from};
    ghost use Rattle.ansi2html.specs.Streams.{size_of, shown_as};

    ghost text = { λ showing given.
        left_html (shown_as showing) (screen_for (size_of showing) given.read) given.calls };

    ghost ending = { λ showing given.
        ending_html (shown_as showing) (screen_for (size_of showing) given.read) given.calls };

    ghost enough = { λ showing. is_decided (size_of showing) };

    fn is_enough(&self, front: &[u8]) -> bool {
        self.size.is_decided(front)
    }

    fn begin(&self, front: &[u8], output: Output<W>) -> Result<ShownWriter<HtmlRows<W>>, Output<W>>
        ensures output { IfOk result (λ performer. output_of (rows_of performer) ≡ output) }
        ensures text { IfOk result (λ performer. (given : Given)
            → BeginsWith (is_decided (size_of self.now)) front.now given
            → text_from standing_of row_html after_row after_command performer given.calls
            ≡ left_html (shown_as self.now) (screen_for (size_of self.now) given.read) given.calls) }
        ensures ending { IfOk result (λ performer. (given : Given)
            → BeginsWith (is_decided (size_of self.now)) front.now given
            → ending_from standing_of row_html after_row after_command closing_html performer given.calls
            ≡ ending_html (shown_as self.now) (screen_for (size_of self.now) given.read) given.calls) }
        ensures kept { IfErr result (λ kept. kept ≡ output) }
    {
        match self.parts(front) {
            Ok((screen, memory)) => {
                let rows = HtmlRows::new(self.styling, memory, output);
                Ok(ShownWriter::new(screen, rows))
            }
            Err(_) => Err(output),
        }
    }
}

/// For a page the same in blocks of lines.
impl<W: Sink> Begin<ShownWriter<BlockRows<W>>, W> for Showing {
    ghost use Rattle.screen_html.specs.Blocks.{blocks_output, blocked_of, row_blocked, after_row_blocked, after_command_blocked, closing_blocked};
    ghost use Rattle.screen_text.specs.Writer.{rows_of, text_from, ending_from};
    ghost use Rattle.ansi2html.specs.Streams.{size_of, shown_as};

    ghost text = { λ showing given.
        left_blocked (shown_as showing) (screen_for (size_of showing) given.read) given.calls };

    ghost ending = { λ showing given.
        ending_blocked (shown_as showing) (screen_for (size_of showing) given.read) given.calls };

    ghost enough = { λ showing. is_decided (size_of showing) };

    fn is_enough(&self, front: &[u8]) -> bool {
        self.size.is_decided(front)
    }

    fn begin(&self, front: &[u8], output: Output<W>) -> Result<ShownWriter<BlockRows<W>>, Output<W>>
        ensures output { IfOk result (λ performer. blocks_output (rows_of performer) ≡ output) }
        ensures text { IfOk result (λ performer. (given : Given)
            → BeginsWith (is_decided (size_of self.now)) front.now given
            → text_from blocked_of row_blocked after_row_blocked after_command_blocked performer given.calls
            ≡ left_blocked (shown_as self.now) (screen_for (size_of self.now) given.read) given.calls) }
        ensures ending { IfOk result (λ performer. (given : Given)
            → BeginsWith (is_decided (size_of self.now)) front.now given
            → ending_from blocked_of row_blocked after_row_blocked after_command_blocked closing_blocked
            performer given.calls
            ≡ ending_blocked (shown_as self.now) (screen_for (size_of self.now) given.read) given.calls) }
        ensures kept { IfErr result (λ kept. kept ≡ output) }
    {
        match self.parts(front) {
            Ok((screen, memory)) => {
                let rows = BlockRows::new(self.styling, memory, output);
                Ok(ShownWriter::new(screen, rows))
            }
            Err(_) => Err(output),
        }
    }
}
