//! The performer that writes safe text with marks where hidden text begins and ends.
ghost use Rattle.std.specs.Prelude.{◌≡◌, ◌∷◌, [], false, ◌||◌, map, chars, IsUtf8};
ghost use Rattle.anstyle_parse.specs.Stream.Call.{print, execute};
ghost use Rattle.anstyle_parse.specs.Stream.Texts.{is_layout, layout_call};
ghost use Rattle.safe_text.specs.Marks.{mark_between, decided_marked, undecided_marked};
ghost use Rattle.safe_text.specs.Unseen.{is_unseen};

use crate::performer::{SafeWriter, Standing};
use crate::unseen::is_unseen;
use ansi_style::Style;
use anstyle_parse::io::{CallWriter, Output, Sink, WritingPerformer};
use anstyle_parse::{Padded, Params, Perform, PerformText};

/// Where the safe text of a stream stands in which hidden text is marked.
#[derive(Debug, Clone, Copy)]
pub struct MarkedStanding {
    pub text: Standing,
    /// That of the text that comes next.
    pub style: Style,
    /// Hidden text is written last: its end is not marked yet.
    pub is_open: bool,
}

/// Writes what a [`SafeWriter`] writes, and between that `<U+hidden>` where text begins that is drawn and not seen
/// ([`is_unseen`]), and `<U+shown>` where it ends: before text that is seen, before a control, and at the end.
///
/// [`write_safe`](crate::write_safe) drives it from a reader to a writer. No memory is taken. A text in pieces is
/// suspended and resumed where it stands.
#[derive(Drop)]
pub struct MarkingWriter<W> {
    writer: SafeWriter<W>,
    /// That of the text that comes next.
    style: Style,
    /// Hidden text is written last: its end is not marked yet.
    is_open: bool,
}

/// Whether a character lays text out: a tab, a line feed or a carriage return.
#[inline(always)]
fn is_layout(c: char) -> bool
    ensures { result ≡ is_layout c }
{
    matches!(c, '\t' | '\n' | '\r')
}

impl<W: Sink> MarkingWriter<W> {
    ghost use Rattle.safe_text.specs.Held.{held_characters};
    ghost use Rattle.safe_text.specs.Writer.{before_in, held_in, Takes};
    ghost use Rattle.safe_text.specs.MarkingWriter.{writer_in, output_in, style_in, open_in, TakesMarked};

    /// One that writes to this output, and goes on where the safe text of a stream stands.
    #[inline]
    pub fn resume(standing: MarkedStanding, output: Output<W>) -> MarkingWriter<W>
        ensures output { output_in result ≡ output }
        ensures before { before_in (writer_in result) ≡ standing.text.before }
        ensures held { held_in (writer_in result) ≡ held_characters standing.text.held }
        ensures style { style_in result ≡ standing.style }
        ensures is_open { open_in result ≡ standing.is_open }
    {
        let style = standing.style;
        let is_open = standing.is_open;
        MarkingWriter {
            writer: SafeWriter::resume(standing.text, output),
            style,
            is_open,
        }
    }

    /// Where the safe text stands.
    #[inline]
    pub fn standing(&self) -> MarkedStanding
        ensures before { result.text.before ≡ before_in (writer_in self.now) }
        ensures held { held_characters result.text.held ≡ held_in (writer_in self.now) }
        ensures style { result.style ≡ style_in self.now }
        ensures is_open { result.is_open ≡ open_in self.now }
    {
        let style = self.style;
        let is_open = self.is_open;
        MarkedStanding {
            text: self.writer.standing(),
            style,
            is_open,
        }
    }

    /// Hands the output back. What waits is not written, and hidden text not closed: the text goes on.
    #[inline]
    pub fn suspend(self) -> Output<W>
        ensures { result ≡ output_in self }
    {
        self.writer.suspend()
    }

    /// Marks that hidden text begins, or that it ends, unless it is so already.
    #[inline(always)]
    fn mark(&mut self, hidden: bool)
        ensures taken { Takes W.Sink (writer_in self.old) (mark_between (open_in self.old) hidden)
            (writer_in self.new) }
        ensures on { open_in self.new ≡ hidden }
        ensures style { style_in self.new ≡ style_in self.old }
    {
        if hidden != self.is_open {
            self.writer.mark(hidden);
            self.is_open = hidden;
        }
    }

    /// Whether marks come with a text: it is hidden, or hidden text is open before it.
    #[inline(always)]
    fn has_marks(&self) -> bool
        ensures { result ≡ (open_in self.now || is_unseen (style_in self.now)) }
    {
        self.is_open || is_unseen(&self.style)
    }

    /// Takes a character that is printed.
    fn take_printed(&mut self, c: char)
        ensures { TakesMarked W.Sink self.old (print c ∷ []) self.new }
    {
        let hidden = is_unseen(&self.style);
        self.mark(hidden);
        self.writer.take(c);
    }

    /// Takes a control that is executed.
    fn take_executed(&mut self, byte: u8)
        ensures { TakesMarked W.Sink self.old (execute byte ∷ []) self.new }
    {
        self.mark(false);
        self.writer.take(char::from(byte));
    }

    /// Takes a character of a text with layout.
    fn take_laid_out(&mut self, c: char)
        ensures { TakesMarked W.Sink self.old (layout_call c ∷ []) self.new }
    {
        if is_layout(c) {
            self.take_executed(c as u8);
        } else {
            self.take_printed(c);
        }
    }

    /// Takes a text with layout, one character after another.
    #[inline(never)]
    fn take_each(&mut self, text: &str)
        ensures { TakesMarked W.Sink self.old (map layout_call (chars text.now)) self.new }
    {
        for c in text.chars() {
            self.take_laid_out(c);
        }
    }

    /// The same with a text that is given by its bytes.
    #[inline(never)]
    fn take_bytes(&mut self, bytes: &[u8])
        requires { IsUtf8 bytes.now }
        ensures { TakesMarked W.Sink self.old (map layout_call (chars bytes.now)) self.new }
    {
        match str::from_utf8(bytes) {
            Ok(text) => self.take_each(text),
            Err(_) => unreachable!(),
        }
    }
}

impl<W: Sink> Perform for MarkingWriter<W> {
    ghost use Rattle.safe_text.specs.MarkingWriter.{TakesMarked};

    // It takes the character of the call, with the mark before it.
    ghost means = { λ old call new. TakesMarked W.Sink old (call ∷ []) new };

    #[inline]
    fn print(&mut self, c: char) {
        self.take_printed(c);
    }

    #[inline]
    fn execute(&mut self, byte: u8) {
        self.take_executed(byte);
    }

    fn hook(&mut self, _: &Params, _: &[u8], _: bool, _: u8) {}

    fn put(&mut self, _: u8) {}

    fn unhook(&mut self) {}

    fn osc_dispatch(&mut self, _: &[&[u8]], _: bool) {}

    /// The style goes with the stream.
    fn csi_dispatch(&mut self, params: &Params, intermediates: &[u8], ignore: bool, action: u8) {
        self.style
            .csi_dispatch(params, intermediates, ignore, action);
    }

    fn esc_dispatch(&mut self, _: &[u8], _: bool, _: u8) {}
}

/// The characters of a text are taken in order: where none is hidden, at once.
impl<W: Sink> PerformText for MarkingWriter<W> {
    ghost use Rattle.safe_text.specs.MarkingWriter.{TakesMarked};
    ghost use Rattle.safe_text.specs.MarkingProof.{TakesMarked-follows};

    ghost receives = { TakesMarked W.Sink };

    #[inline]
    fn print_text(&mut self, text: &str) {
        if !text.is_empty() {
            let hidden = is_unseen(&self.style);
            self.mark(hidden);
            self.writer.print_text(text);
        }
    }

    #[inline]
    fn print_with_layout(&mut self, text: &str) {
        if self.has_marks() {
            self.take_each(text);
        } else {
            self.writer.print_with_layout(text);
        }
    }

    #[inline(always)]
    fn print_padded(&mut self, text: &Padded<'_>) {
        let has_marks = self.has_marks();
        if has_marks {
            self.take_bytes(text.as_bytes());
        } else {
            self.writer.print_padded(text);
        }
    }

    ghost follows = { TakesMarked-follows W.Sink };
}

/// At the end hidden text is closed, and what still waits is written.
impl<W: Sink> WritingPerformer<W> for MarkingWriter<W> {
    ghost use Rattle.safe_text.specs.MarkingWriter.{output_in, text_from, ending_from};
    ghost use Rattle.safe_text.specs.MarkingProof.{ends-marked};

    ghost output_in = { output_in };

    ghost text_from = { text_from };

    ghost ending_from = { ending_from };

    fn output(&self) -> &Output<W> {
        self.writer.output()
    }

    fn pass_on(&mut self) {
        self.writer.pass_on();
    }

    fn into_output(self) -> Output<W> {
        let mut marking = self;
        marking.mark(false);
        marking.writer.into_output()
    }

    ghost adds = { λ _ _ _ received. received.taken.added };

    ghost ends = { λ old calls new received _. ends-marked W.Sink old calls new received };
}

impl<W: Sink> CallWriter<W> for MarkingWriter<W> {
    ghost use Rattle.safe_text.specs.MarkingWriter.{output_in, IsNewMarking};
    ghost use Rattle.safe_text.specs.MarkingProof.{marked-of_new, ending-of_new};

    ghost is_new = { IsNewMarking };

    ghost text = { decided_marked };

    ghost ending = { undecided_marked };

    fn over(output: Output<W>) -> MarkingWriter<W>
        ensures output { output_in result ≡ output }
        ensures new { IsNewMarking result }
    {
        MarkingWriter {
            writer: SafeWriter::over(output),
            style: Style::default(),
            is_open: false,
        }
    }

    ghost text_of_new = { marked-of_new };

    ghost ending_of_new = { ending-of_new };
}
