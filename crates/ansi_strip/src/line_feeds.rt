//! The performer that writes stripped text in lines that end with a line feed alone.
ghost use Rattle.std.specs.Prelude.{◌≡◌, ◌∷◌, ◌==◌, [], if◌then◌else◌};
ghost use Rattle.anstyle_parse.specs.Io.Output.{Adds};
ghost use Rattle.anstyle_parse.specs.Stream.Items.{EachIs};
ghost use Rattle.ansi_strip.specs.LineFeeds.{decided, waiting, is_of_line};
ghost use Rattle.ansi_strip.specs.Strip.{stripped, stripped_call};

use crate::returns::{RETURN, split_at_return};
use anstyle_parse::io::{CallWriter, Output, Sink, WritingPerformer};
use anstyle_parse::{Params, Perform, PerformText, is_layout};

/// Writes what a [`Stripper`](crate::Stripper) writes, without each carriage return right before a line feed: the
/// lines of a recording end with both. Any other carriage return stays.
///
/// One with which a piece ends waits for what comes next, and at the end it is written. Whatever else is handed on by
/// [`Output::pass_on`] leaves it waiting.
#[derive(Drop)]
pub struct LineFeeds<W> {
    output: Output<W>,
    /// A carriage return has come last, and is not written.
    waits: bool,
}

impl<W: Sink> LineFeeds<W> {
    ghost use Rattle.ansi_strip.specs.LineWriter.{output_of, held_in, Takes};

    /// Writes the carriage return that waits, unless a line feed comes.
    #[inline]
    fn release(&mut self, next: u8)
        ensures added { Adds W.Sink (if next == 0x0A then [] else held_in self.old)
            (output_of self.old) (output_of self.new) }
        ensures held { held_in self.new ≡ [] }
    {
        if self.waits && next != b'\n' {
            self.output.put_byte(RETURN);
        }
        self.waits = false;
    }

    /// Takes bytes of a line, which are written.
    #[inline]
    fn put_line(&mut self, line: &[u8])
        requires { EachIs is_of_line line.now }
        ensures { Takes W.Sink self.old line.now self.new }
    {
        if let Some((first, _)) = line.split_first() {
            self.release(*first);
            self.output.put(line);
        }
    }

    /// Takes a carriage return, which waits.
    #[inline]
    fn put_return(&mut self)
        ensures { Takes W.Sink self.old (0x0D ∷ []) self.new }
    {
        self.release(RETURN);
        self.waits = true;
    }

    /// Takes a text: the lines between its carriage returns, and these.
    #[inline]
    fn take(&mut self, text: &[u8])
        ensures { Takes W.Sink self.old text.now self.new }
    {
        let mut rest = text;
        'rest: while !rest.is_empty() {
            let (line, found) = split_at_return(rest);
            self.put_line(line);
            let Some(behind) = found else {
                break;
            };
            self.put_return();
            rest = behind;
        }
    }
}

impl<W: Sink> Perform for LineFeeds<W> {
    ghost use Rattle.ansi_strip.specs.LineWriter.{Takes};

    // It takes what is left of the call.
    ghost means = { λ old call new. Takes W.Sink old (stripped_call call) new };

    fn print(&mut self, c: char) {
        let mut bytes = [0; 4];
        self.take(c.encode_utf8(&mut bytes).as_bytes());
    }

    fn execute(&mut self, byte: u8) {
        if is_layout(byte) {
            self.take(&[byte]);
        }
    }

    fn hook(&mut self, _params: &Params, _intermediates: &[u8], _ignore: bool, _action: u8) {}

    fn put(&mut self, _byte: u8) {}

    fn unhook(&mut self) {}

    fn osc_dispatch(&mut self, _params: &[&[u8]], _bell_terminated: bool) {}

    fn csi_dispatch(
        &mut self,
        _params: &Params,
        _intermediates: &[u8],
        _ignore: bool,
        _action: u8,
    ) {}

    fn esc_dispatch(&mut self, _intermediates: &[u8], _ignore: bool, _byte: u8) {}
}

/// A text is taken as it is, and so is layout.
impl<W: Sink> PerformText for LineFeeds<W> {
    ghost use Rattle.ansi_strip.specs.LineWriter.{Takes};
    ghost use Rattle.ansi_strip.specs.TakingProof.{TakesCalls-follows};

    ghost receives = { λ old calls new. Takes W.Sink old (stripped calls) new };

    #[inline]
    fn print_text(&mut self, text: &str) {
        self.take(text.as_bytes());
    }

    #[inline]
    fn print_with_layout(&mut self, text: &str) {
        self.take(text.as_bytes());
    }

    /// Nothing is written of a control sequence.
    #[inline(always)]
    fn passes_over_control_sequences(&self) -> bool {
        true
    }

    ghost follows = { TakesCalls-follows W.Sink };
}

/// What waits at the end is written.
impl<W: Sink> WritingPerformer<W> for LineFeeds<W> {
    ghost use Rattle.ansi_strip.specs.LineWriter.{output_of, text_from, ending_from};
    ghost use Rattle.ansi_strip.specs.TakingProof.{ends-taken};

    ghost output_in = { output_of };

    ghost text_from = { text_from };

    ghost ending_from = { ending_from };

    fn output(&self) -> &Output<W> {
        &self.output
    }

    fn pass_on(&mut self) {
        self.output.pass_on();
    }

    fn into_output(self) -> Output<W> {
        let mut writer = self;
        writer.release(RETURN);
        writer.output
    }

    ghost adds = { λ _ _ _ taken. taken.added };

    ghost ends = { λ old calls new taken _. ends-taken W.Sink old calls new taken };
}

impl<W: Sink> CallWriter<W> for LineFeeds<W> {
    ghost use Rattle.ansi_strip.specs.LineWriter.{output_of, held_in};
    ghost use Rattle.ansi_strip.specs.TakingProof.{text_of-new, ending_of-new};

    ghost is_new = { λ performer. held_in performer ≡ [] };

    ghost text = { λ calls. decided (stripped calls) };

    ghost ending = { λ calls. waiting (stripped calls) };

    fn over(output: Output<W>) -> LineFeeds<W>
        ensures output { output_of result ≡ output }
        ensures new { held_in result ≡ [] }
    {
        LineFeeds {
            output,
            waits: false,
        }
    }

    ghost text_of_new = { text_of-new };

    ghost ending_of_new = { ending_of-new };
}
