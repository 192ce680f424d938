//! The performer that writes stripped text.
ghost use Rattle.std.specs.Prelude.{◌≡◌, [], ⊤, refl};
ghost use Rattle.anstyle_parse.specs.Io.Output.{Adds};
ghost use Rattle.ansi_strip.specs.Strip.{stripped_call, stripped};

use anstyle_parse::io::{CallWriter, Output, Sink, WritingPerformer};
use anstyle_parse::{Padded, Params, Perform, PerformText, is_layout};

/// Writes each printed character in UTF-8, and the controls 09, 0A and 0D; nothing of any
/// other call.
///
/// [`strip`](crate::strip) drives it from a reader to a writer. By hand it is made over an
/// [`Output`], and hands it back. No memory is taken. A write that fails stops it: nothing
/// more is written, and the fault is kept.
#[derive(Drop)]
pub struct Stripper<W> {
    output: Output<W>,
}

impl<W: Sink> Perform for Stripper<W> {
    ghost use Rattle.ansi_strip.specs.Stripper.{output_of};

    // It adds what is left of the call.
    ghost means = { λ old call new. Adds W.Sink (stripped_call call) (output_of old) (output_of new) };

    #[inline(always)]
    fn print(&mut self, c: char) {
        self.output.put_char(c);
    }

    #[inline]
    fn execute(&mut self, byte: u8) {
        if is_layout(byte) {
            self.output.put_byte(byte);
        }
    }

    fn hook(&mut self, _params: &Params, _intermediates: &[u8], _ignore: bool, _action: u8) {}

    fn put(&mut self, _byte: u8) {}

    fn unhook(&mut self) {}

    fn osc_dispatch(&mut self, _params: &[&[u8]], _bell_terminated: bool) {}

    fn csi_dispatch(
        &mut self,
        _params: &Params,
        _intermediates: &[u8],
        _ignore: bool,
        _action: u8,
    ) {}

    fn esc_dispatch(&mut self, _intermediates: &[u8], _ignore: bool, _byte: u8) {}
}

/// A text is left as it is, and so is layout.
impl<W: Sink> PerformText for Stripper<W> {
    ghost use Rattle.anstyle_parse.specs.Io.Output.{AddsTexts};
    ghost use Rattle.anstyle_parse.specs.Io.AddingProof.{AddsTexts-follows};
    ghost use Rattle.ansi_strip.specs.Stripper.{output_of};

    ghost receives = { AddsTexts W.Sink output_of stripped_call };

    #[inline(always)]
    fn print_text(&mut self, text: &str) {
        self.output.put_text(text);
    }

    #[inline(always)]
    fn print_with_layout(&mut self, text: &str) {
        self.output.put_text(text);
    }

    #[inline(always)]
    fn print_padded(&mut self, text: &Padded<'_>) {
        self.output.put_padded(text);
    }

    /// Nothing is written of a control sequence.
    #[inline(always)]
    fn passes_over_control_sequences(&self) -> bool {
        true
    }

    ghost follows = { AddsTexts-follows W.Sink output_of stripped_call };
}

/// Stripped text has no ending.
impl<W: Sink> WritingPerformer<W> for Stripper<W> {
    ghost use Rattle.ansi_strip.specs.Stripper.{output_of};

    ghost output_in = { output_of };

    ghost text_from = { λ _. stripped };

    fn output(&self) -> &Output<W> {
        &self.output
    }

    fn pass_on(&mut self) {
        self.output.pass_on();
    }

    fn into_output(self) -> Output<W> {
        self.output
    }

    ghost adds = { λ _ _ _ received. received };

    ghost ends = { λ _ _ _ _ _. refl };
}

impl<W: Sink> CallWriter<W> for Stripper<W> {
    ghost use Rattle.ansi_strip.specs.Stripper.{output_of};

    ghost is_new = { λ _. ⊤ };

    ghost text = { stripped };

    fn over(output: Output<W>) -> Stripper<W>
        ensures output { output_of result ≡ output }
        ensures new { ⊤ }
    {
        Stripper { output }
    }

    ghost text_of_new = { λ _ _ _. refl };

    ghost ending_of_new = { λ _ _ _. refl };
}
