//! The performer that writes HTML in lines.
ghost use Rattle.std.specs.Prelude.{◌≡◌, true};
ghost use Rattle.anstyle_parse.specs.Stream.Call.{execute};
ghost use Rattle.anstyle_parse.specs.Io.Output.{Adds};
ghost use Rattle.ansi_html.specs.Affordable.{earned, is_paid, left_of};
ghost use Rattle.ansi_html.specs.Lines.{lined, going_on, text_number, before_text};

use crate::line::next_number;
use crate::performer::HtmlWriter;
use crate::scheme::Styling;
use crate::spare::{FEED_COUNTS, earned, left_of};
use ansi_strip::is_layout;
use anstyle_parse::io::{Output, Sink, WritingPerformer};
use anstyle_parse::{Params, Perform, PerformText};

/// Writes the text of a stream as [`HtmlWriter`] does, in lines that can be linked to.
///
/// Each line of the text, with the line feed at its end, stands in `<span id="L…">…</span>`, in which a link of no text
/// to the line has its number, counted from 1: `<a href="#L…" data-line="…"></a>`. What a style or a link goes on over
/// stands in each of its lines anew; a link ends at a line feed where the text so far is too little to pay for that. A
/// line begins before its first text, so after a last line feed there is none. After 2^64 - 1 lines the number stays.
#[derive(Drop)]
pub struct LinesWriter<W> {
    pub(crate) html: HtmlWriter<W>,
    /// The number of the last line that began; 0 where none did.
    number: u64,
    /// That line is open.
    pub(crate) is_open: bool,
    /// The bytes of HTML that links may still take to go on over line feeds, as of when a link paid last.
    spare: usize,
    /// The bytes of text since then, which are counted when a link pays: text comes far more often.
    pending: usize,
}

impl<W: Sink> LinesWriter<W> {
    ghost use Rattle.ansi_html.specs.Liner.{output_of, styling_of, lined_of, IsNew, TakesCall};

    /// One that writes to this output, says styles in this way, and has received no call.
    /// Nothing is written.
    pub fn new(styling: Styling, output: Output<W>) -> LinesWriter<W>
        ensures output { output_of result ≡ output }
        ensures new { IsNew styling result }
    {
        LinesWriter {
            html: HtmlWriter::new(styling, output),
            number: 0,
            is_open: false,
            spare: 0,
            pending: 0,
        }
    }

    /// Text of a line may follow, which counts as so many bytes: where none is open, the next one begins.
    #[inline]
    fn begin_text(&mut self, count: usize)
        ensures styling { styling_of self.new ≡ styling_of self.old }
        ensures standing { lined_of self.new
            ≡ lined (lined_of self.old).at (text_number (lined_of self.old)) true
            (earned count (lined_of self.old).spare) }
        ensures added { Adds W.Sink (before_text (lined_of self.old)) (output_of self.old) (output_of self.new) }
    {
        self.pending = self.pending.saturating_add(count);
        if !self.is_open {
            self.number = next_number(self.number);
            self.is_open = true;
            self.html.begin_line(self.number);
        }
    }

    /// Writes a line feed, and ends its line.
    fn put_line_feed(&mut self)
        ensures { TakesCall W.Sink self.old (execute 0x0A) self.new }
    {
        self.begin_text(FEED_COUNTS);
        self.html.execute(b'\n');
        self.html.end_line();
        self.is_open = false;
        self.pay_for_link();
    }

    /// The link that is selected goes on where that is paid, and else it ends.
    fn pay_for_link(&mut self)
        ensures output { output_of self.new ≡ output_of self.old }
        ensures styling { styling_of self.new ≡ styling_of self.old }
        ensures standing { lined_of self.new
            ≡ lined
            (going_on (is_paid (lined_of self.old).spare (lined_of self.old).at.selected.link) (lined_of self.old).at)
            (lined_of self.old).number (lined_of self.old).is_open
            (left_of (lined_of self.old).spare (lined_of self.old).at.selected.link) }
    {
        if !self.html.selected_link().is_empty() {
            self.spare = earned(self.pending, self.spare);
            self.pending = 0;
            match left_of(self.spare, self.html.selected_link()) {
                Some(left) => self.spare = left,
                None => self.html.end_link(),
            }
        }
    }
}

impl<W: Sink> Perform for LinesWriter<W> {
    ghost use Rattle.ansi_html.specs.Liner.{TakesCall};

    ghost means = { TakesCall W.Sink };

    fn print(&mut self, c: char) {
        self.begin_text(c.len_utf8());
        self.html.print(c);
    }

    fn execute(&mut self, byte: u8) {
        if byte == b'\n' {
            self.put_line_feed();
        } else if is_layout(byte) {
            self.begin_text(1);
            self.html.execute(byte);
        }
    }

    fn hook(&mut self, _: &Params, _: &[u8], _: bool, _: u8) {}

    fn put(&mut self, _: u8) {}

    fn unhook(&mut self) {}

    fn osc_dispatch(&mut self, params: &[&[u8]], bell_terminated: bool) {
        self.html.osc_dispatch(params, bell_terminated);
    }

    fn csi_dispatch(&mut self, params: &Params, intermediates: &[u8], ignore: bool, action: u8) {
        self.html
            .csi_dispatch(params, intermediates, ignore, action);
    }

    fn esc_dispatch(&mut self, _: &[u8], _: bool, _: u8) {}
}

/// What stands between line feeds, tabs and carriage returns is written at once.
impl<W: Sink> PerformText for LinesWriter<W> {
    ghost use Rattle.ansi_html.specs.Liner.{TakesCalls};
    ghost use Rattle.ansi_html.specs.LiningProof.{TakesCalls-follows};

    ghost receives = { TakesCalls W.Sink };

    fn print_text(&mut self, text: &str) {
        if !text.is_empty() {
            self.begin_text(text.len());
            self.html.print_text(text);
        }
    }

    ghost follows = { TakesCalls-follows W.Sink };
}

/// What is still to be written is the end of the elements that are open.
impl<W: Sink> WritingPerformer<W> for LinesWriter<W> {
    ghost use Rattle.ansi_html.specs.Liner.{output_of, text_from, ending_from};
    ghost use Rattle.ansi_html.specs.LiningProof.{ending_from-taken};

    ghost output_in = { output_of };

    ghost text_from = { text_from };

    ghost ending_from = { ending_from };

    fn output(&self) -> &Output<W> {
        self.html.output()
    }

    fn pass_on(&mut self) {
        self.html.pass_on();
    }

    fn into_output(self) -> Output<W> {
        let LinesWriter {
            mut html,
            is_open,
            ..
        } = self;
        if is_open {
            html.end_line();
        }
        html.into_output()
    }

    ghost adds = { λ _ _ _ taken. taken.added };

    ghost ends = { λ old calls new taken _. ending_from-taken W.Sink old new calls taken };
}
