//! The performer of each stream: what strips it or makes it safe, or what follows a screen of its own, as text or as
//! safe text.
ghost use Rattle.std.specs.Prelude.{◌≡◌, true, filter, IfOk, IfErr};
ghost use Rattle.ansi_strip.specs.Inert.{inert_text, is_inert};
ghost use Rattle.ansi_strip.specs.LineFeeds.{decided, waiting};
ghost use Rattle.ansi2text.specs.Ending.{no_text};
ghost use Rattle.each_source.specs.Each.{Given, BeginsWith};
ghost use Rattle.safe_text.specs.Marks.{decided_marked, undecided_marked};
ghost use Rattle.screen_safe.specs.Shown.{safe_left, safe_ending};
ghost use Rattle.screen_text.specs.Recording.{is_decided, screen_for, CanBeShown};
ghost use Rattle.screen_text.specs.Shown.{left_text, ending_text};

use ansi_strip::{Inert, LineFeeds, Stripper};
use anstyle_parse::io::{CallWriter, Output, Sink};
use each_source::Begin;
use safe_text::MarkingWriter;
use screen_safe::SafeRows;
use screen_text::{ShownSize, ShownWriter, TextRows};
use std::alloc::Global;

/// Each stream is stripped, to text that drives no terminal.
#[derive(Debug, Clone, Copy, PartialEq, Eq)]
pub struct Stripping;

impl<W: Sink> Begin<Inert<Stripper<W>>, W> for Stripping {
    ghost use Rattle.ansi_strip.specs.Passing.{performer_in};
    ghost use Rattle.ansi_strip.specs.Stripper.{output_of};

    ghost text = { λ _ given. inert_text given.calls };

    ghost ending = { λ _ _. no_text };

    ghost enough = { λ _ _. true };

    fn is_enough(&self, _front: &[u8]) -> bool {
        true
    }

    fn begin(&self, _front: &[u8], output: Output<W>) -> Result<Inert<Stripper<W>>, Output<W>>
        ensures output { IfOk result (λ performer. output_of (performer_in performer) ≡ output) }
        ensures text { IfOk result (λ performer. (given : Given) → BeginsWith (λ _. true) _front.now given
            → inert_text given.calls ≡ inert_text given.calls) }
        ensures ending { IfOk result (λ performer. (given : Given) → BeginsWith (λ _. true) _front.now given
            → no_text ≡ no_text) }
        ensures kept { IfErr result (λ kept. kept ≡ output) }
    {
        Ok(Inert::over(output))
    }
}

/// The same, without each carriage return right before a line feed.
#[derive(Debug, Clone, Copy, PartialEq, Eq)]
pub struct StrippingLines;

impl<W: Sink> Begin<Inert<LineFeeds<W>>, W> for StrippingLines {
    ghost use Rattle.ansi_strip.specs.LineWriter.{output_of, text_from, ending_from};
    ghost use Rattle.ansi_strip.specs.Passing.{performer_in};

    // Joined they are the text without these (`whole` of `ansi_strip::laws::line_feeds`).
    ghost text = { λ _ given. decided (inert_text given.calls) };

    ghost ending = { λ _ given. waiting (inert_text given.calls) };

    ghost enough = { λ _ _. true };

    fn is_enough(&self, _front: &[u8]) -> bool {
        true
    }

    fn begin(&self, _front: &[u8], output: Output<W>) -> Result<Inert<LineFeeds<W>>, Output<W>>
        ensures output { IfOk result (λ performer. output_of (performer_in performer) ≡ output) }
        ensures text { IfOk result (λ performer. (given : Given) → BeginsWith (λ _. true) _front.now given
            → text_from (performer_in performer) (filter is_inert given.calls) ≡ decided (inert_text given.calls)) }
        ensures ending { IfOk result (λ performer. (given : Given) → BeginsWith (λ _. true) _front.now given
            → ending_from (performer_in performer) (filter is_inert given.calls) ≡ waiting (inert_text given.calls)) }
        ensures kept { IfErr result (λ kept. kept ≡ output) }
    {
        Ok(Inert::over(output))
    }
}

/// Of each stream safe text is made, with marks where hidden text begins and ends.
#[derive(Debug, Clone, Copy, PartialEq, Eq)]
pub struct MakingSafe;

impl<W: Sink> Begin<MarkingWriter<W>, W> for MakingSafe {
    ghost use Rattle.safe_text.specs.MarkingWriter.{output_in, text_from, ending_from};

    ghost text = { λ _ given. decided_marked given.calls };

    ghost ending = { λ _ given. undecided_marked given.calls };

    ghost enough = { λ _ _. true };

    fn is_enough(&self, _front: &[u8]) -> bool {
        true
    }

    fn begin(&self, _front: &[u8], output: Output<W>) -> Result<MarkingWriter<W>, Output<W>>
        ensures output { IfOk result (λ performer. output_in performer ≡ output) }
        ensures text { IfOk result (λ performer. (given : Given) → BeginsWith (λ _. true) _front.now given
            → text_from performer given.calls ≡ decided_marked given.calls) }
        ensures ending { IfOk result (λ performer. (given : Given) → BeginsWith (λ _. true) _front.now given
            → ending_from performer given.calls ≡ undecided_marked given.calls) }
        ensures kept { IfErr result (λ kept. kept ≡ output) }
    {
        Ok(MarkingWriter::over(output))
    }
}

/// Each stream is shown by a screen of this size, or of the one that it says: as text or as safe text, as the type of
/// its performer says.
#[derive(Drop)]
pub struct Showing {
    alloc: Global,
    size: ShownSize,
    ghost can_be: { CanBeShown size },
}

impl Showing {
    ghost use Rattle.ansi2text.specs.Streams.{size_of};

    /// For screens of a size that screens can have.
    pub fn new(alloc: Global, size: ShownSize) -> Showing
        requires { CanBeShown size }
        ensures { size_of result ≡ size }
    {
        Showing { alloc, size }
    }
}

/// What each showed is text.
impl<W: Sink> Begin<ShownWriter<TextRows<W>>, W> for Showing {
    ghost use Rattle.screen_text.specs.Lines.{output_of, is_open, row_text_at, after_row, after_command, closing};
    ghost use Rattle.screen_text.specs.Writer.{rows_of, text_from, ending_from};
    ghost use Rattle.ansi2text.specs.Streams.{size_of};

    ghost text = { λ showing given. left_text (screen_for (size_of showing) given.read) given.calls };

    ghost ending = { λ showing given. ending_text (screen_for (size_of showing) given.read) given.calls };

    ghost enough = { λ showing. is_decided (size_of showing) };

    fn is_enough(&self, front: &[u8]) -> bool {
        self.size.is_decided(front)
    }

    fn begin(&self, front: &[u8], output: Output<W>) -> Result<ShownWriter<TextRows<W>>, Output<W>>
        ensures output { IfOk result (λ performer. output_of (rows_of performer) ≡ output) }
        ensures text { IfOk result (λ performer. (given : Given)
            → BeginsWith (is_decided (size_of self.now)) front.now given
            → text_from is_open row_text_at after_row after_command performer given.calls
            ≡ left_text (screen_for (size_of self.now) given.read) given.calls) }
        ensures ending { IfOk result (λ performer. (given : Given)
            → BeginsWith (is_decided (size_of self.now)) front.now given
            → ending_from is_open row_text_at after_row after_command closing performer given.calls
            ≡ ending_text (screen_for (size_of self.now) given.read) given.calls) }
        ensures kept { IfErr result (λ kept. kept ≡ output) }
    {
        match self.size.screen(self.alloc, front) {
            Ok(screen) => Ok(ShownWriter::new(screen, TextRows::new(output))),
            Err(_) => Err(output),
        }
    }
}

/// What each showed is made safe.
impl<W: Sink> Begin<ShownWriter<SafeRows<W>>, W> for Showing {
    ghost use Rattle.screen_safe.specs.Writer.{output_of, standing_of, row_safe, after_row, after_command, closing_safe};
    ghost use Rattle.screen_text.specs.Writer.{rows_of, text_from, ending_from};
    ghost use Rattle.ansi2text.specs.Streams.{size_of};

    ghost text = { λ showing given. safe_left (screen_for (size_of showing) given.read) given.calls };

    ghost ending = { λ showing given. safe_ending (screen_for (size_of showing) given.read) given.calls };

    ghost enough = { λ showing. is_decided (size_of showing) };

    fn is_enough(&self, front: &[u8]) -> bool {
        self.size.is_decided(front)
    }

    fn begin(&self, front: &[u8], output: Output<W>) -> Result<ShownWriter<SafeRows<W>>, Output<W>>
        ensures output { IfOk result (λ performer. output_of (rows_of performer) ≡ output) }
        ensures text { IfOk result (λ performer. (given : Given)
            → BeginsWith (is_decided (size_of self.now)) front.now given
            → text_from standing_of row_safe after_row after_command performer given.calls
            ≡ safe_left (screen_for (size_of self.now) given.read) given.calls) }
        ensures ending { IfOk result (λ performer. (given : Given)
            → BeginsWith (is_decided (size_of self.now)) front.now given
            → ending_from standing_of row_safe after_row after_command closing_safe performer given.calls
            ≡ safe_ending (screen_for (size_of self.now) given.read) given.calls) }
        ensures kept { IfErr result (λ kept. kept ≡ output) }
    {
        match self.size.screen(self.alloc, front) {
            Ok(screen) => Ok(ShownWriter::new(screen, SafeRows::new(output))),
            Err(_) => Err(output),
        }
    }
}
