//! The performer that hands on what is not hidden.
ghost use Rattle.std.specs.Prelude.{◌≡◌, ◌∷◌, [], map, chars};
ghost use Rattle.anstyle_parse.specs.Stream.Texts.{is_layout, layout_call};
ghost use Rattle.ansi_style.specs.Style.{plain};

use ansi_style::Style;
use anstyle_parse::io::{CallWriter, Output, Sink, WritingPerformer};
use anstyle_parse::{Params, Perform, PerformText};

/// Hands all calls on to a performer but the prints of text that Select Graphic Rendition hides: after 8, until 28 or
/// 0. Controls are handed on, so that lines stay, and so are sequences.
///
/// Text in the colour of its ground is handed on too: it shows where it is selected.
#[derive(Drop)]
pub struct WithoutHidden<P> {
    performer: P,
    /// That of the text that comes next.
    style: Style,
}

/// Whether a character lays text out: a tab, a line feed or a carriage return.
#[inline(always)]
fn is_layout(c: char) -> bool
    ensures { result ≡ is_layout c }
{
    matches!(c, '\t' | '\n' | '\r')
}

impl<P: Perform> WithoutHidden<P> {
    ghost use Rattle.without_hidden.specs.Passing.{performer_in, style_in};

    /// One that hands on to this performer, at the start of a stream.
    pub fn new(performer: P) -> WithoutHidden<P>
        ensures performer { performer_in result ≡ performer }
        ensures style { style_in result ≡ plain }
    {
        WithoutHidden {
            performer,
            style: Style::default(),
        }
    }

    /// The performer that it hands on to.
    pub fn performer(&self) -> &P
        ensures { result.now ≡ performer_in self.now }
    {
        &self.performer
    }
}

impl<P: Perform> Perform for WithoutHidden<P> {
    ghost use Rattle.without_hidden.specs.Passing.{HandsOn};

    // A call that is not left out is handed on, and the style goes with the stream.
    ghost means = { HandsOn P.means };

    #[inline]
    fn print(&mut self, c: char) {
        if !self.style.hidden {
            self.performer.print(c);
        }
    }

    #[inline]
    fn execute(&mut self, byte: u8) {
        self.performer.execute(byte);
    }

    fn hook(&mut self, params: &Params, intermediates: &[u8], ignore: bool, action: u8) {
        self.performer.hook(params, intermediates, ignore, action);
    }

    #[inline]
    fn put(&mut self, byte: u8) {
        self.performer.put(byte);
    }

    fn unhook(&mut self) {
        self.performer.unhook();
    }

    fn osc_dispatch(&mut self, params: &[&[u8]], bell_terminated: bool) {
        self.performer.osc_dispatch(params, bell_terminated);
    }

    fn csi_dispatch(&mut self, params: &Params, intermediates: &[u8], ignore: bool, action: u8) {
        self.style
            .csi_dispatch(params, intermediates, ignore, action);
        self.performer
            .csi_dispatch(params, intermediates, ignore, action);
    }

    fn esc_dispatch(&mut self, intermediates: &[u8], ignore: bool, byte: u8) {
        self.performer.esc_dispatch(intermediates, ignore, byte);
    }
}

impl<P: PerformText> WithoutHidden<P> {
    ghost use Rattle.without_hidden.specs.Passing.{ReceivesShown};

    /// Takes a character of a text with layout.
    fn take_laid_out(&mut self, c: char)
        ensures { ReceivesShown P.receives self.old (layout_call c ∷ []) self.new }
    {
        if is_layout(c) {
            self.execute(c as u8);
        } else {
            self.print(c);
        }
    }

    /// Takes a text with layout, one character after another.
    #[inline(never)]
    fn take_each(&mut self, text: &str)
        ensures { ReceivesShown P.receives self.old (map layout_call (chars text.now)) self.new }
    {
        for c in text.chars() {
            self.take_laid_out(c);
        }
    }
}

/// A text that is not hidden is handed on as it is.
impl<P: PerformText> PerformText for WithoutHidden<P> {
    ghost use Rattle.without_hidden.specs.Passing.{ReceivesShown};
    ghost use Rattle.without_hidden.specs.PassingProof.{shown-follows};

    ghost receives = { ReceivesShown P.receives };

    #[inline]
    fn print_text(&mut self, text: &str) {
        if !self.style.hidden {
            self.performer.print_text(text);
        }
    }

    #[inline]
    fn print_with_layout(&mut self, text: &str) {
        if self.style.hidden {
            self.take_each(text);
        } else {
            self.performer.print_with_layout(text);
        }
    }

    ghost follows = { shown-follows P.means P.receives P.follows };
}

/// What it writes is what the performer writes of the calls that are not left out.
impl<W: Sink, P: WritingPerformer<W>> WritingPerformer<W> for WithoutHidden<P> {
    ghost use Rattle.without_hidden.specs.Hidden.{without_hidden};
    ghost use Rattle.without_hidden.specs.Passing.{performer_in, style_in};

    ghost output_in = { λ it. P.output_in (performer_in it) };

    ghost text_from = { λ it calls. P.text_from (performer_in it) (without_hidden (style_in it) calls) };

    ghost ending_from = { λ it calls. P.ending_from (performer_in it) (without_hidden (style_in it) calls) };

    fn output(&self) -> &Output<W> {
        self.performer.output()
    }

    fn pass_on(&mut self) {
        self.performer.pass_on();
    }

    fn into_output(self) -> Output<W> {
        self.performer.into_output()
    }

    ghost adds = { λ old calls new received.
        P.adds (performer_in old) (without_hidden (style_in old) calls) (performer_in new) received.performer };

    ghost ends = { λ old calls new received no_fault.
        P.ends (performer_in old) (without_hidden (style_in old) calls) (performer_in new) received.performer no_fault };
}

impl<W: Sink, P: CallWriter<W>> CallWriter<W> for WithoutHidden<P> {
    ghost use Rattle.without_hidden.specs.Hidden.{without_hidden};
    ghost use Rattle.without_hidden.specs.Passing.{performer_in, IsNewShown};
    ghost use Rattle.without_hidden.specs.PassingProof.{of_new};

    ghost is_new = { IsNewShown P.is_new };

    ghost text = { λ calls. P.text (without_hidden plain calls) };

    ghost ending = { λ calls. P.ending (without_hidden plain calls) };

    fn over(output: Output<W>) -> WithoutHidden<P>
        ensures output { P.output_in (performer_in result) ≡ output }
        ensures new { IsNewShown P.is_new result }
    {
        WithoutHidden::new(P::over(output))
    }

    ghost text_of_new = { λ it new calls.
        of_new P.is_new P.text_from P.text P.text_of_new it new calls };

    ghost ending_of_new = { λ it new calls.
        of_new P.is_new P.ending_from P.ending P.ending_of_new it new calls };
}
