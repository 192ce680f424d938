//! Canonical texts.
ghost use Rattle.std.specs.Prelude.{◌≡◌, ◌++◌, ◌∷◌, [], ⊤, None, OnOk, map, refl, if◌then◌else◌};
ghost use Rattle.std.specs.List.{join_with_byte};
ghost use Rattle.anstyle_parse.specs.Stream.Bytes.{escape_byte, semicolon};
ghost use Rattle.anstyle_parse.specs.Stream.Arguments.{after_marker};
ghost use Rattle.anstyle_parse.specs.Stream.Canon.{shows_no_more_intermediates, call_text, canon, header_text, leading_marker, one_more_field, one_more_intermediate, command_end};
ghost use Rattle.anstyle_parse.specs.Io.Output.{writer_in, fault_in, Adds, Finishes};

use super::parts::{split_marker, text_if};
use crate::controls::{ESCAPE, STRING_TERMINATOR};
use crate::io::{CallWriter, Fault, Output, Sink, WritingPerformer};
use crate::padded::Padded;
use crate::params::Params;
use crate::perform::{Perform, PerformText};

/// The intermediates that a header shows at most, a marker among them.
const MAX_SHOWN: usize = 2;

/// Writes each call's canonical text, from which a parser makes this call again.
///
/// With it recordings can be normalised, compared and replayed. Two streams make the same
/// calls exactly if what is written for them is the same, and a new parser that takes what
/// was written makes those calls once more ([`laws`](crate::laws) says this of texts, and
/// [`Parser::advance_all`](crate::Parser::advance_all) of a parser).
///
/// | Call | Text |
/// |---|---|
/// | `print` | the character in UTF-8 |
/// | `execute`, `put` | the byte |
/// | `unhook` | 9C |
/// | `csi_dispatch` | ESC and `[`; a header; the final byte |
/// | `hook` | ESC and `P`; a header; the final byte |
/// | `esc_dispatch` | ESC; the intermediates; a space if more came than are shown; the final byte |
/// | `osc_dispatch` | ESC and `]`; the parts with `;` between them; BEL if BEL ended it, else 1B 58 9C |
///
/// A header is the marker, one of `<=>?`, if there is one; the fields in decimal, with `:` between
/// the fields of a group and `;` between groups; one more `;` if more came than is shown and there
/// are fewer than two intermediates; the other intermediates; a space if more came and there are two.
///
/// So a command that BEL ended keeps its BEL. After any other command stands a string that
/// makes no call: its ESC ends the command, `X` begins a string that is ignored, and 9C ends
/// that.
///
/// Nothing is collected and no memory is taken: the parts of a call's text go straight to the
/// writer, in several writes, which a [`Buffer`](crate::io::Buffer) before it makes few. A
/// write that fails stops the writer: nothing more is written, and the fault is kept.
#[derive(Drop)]
pub struct CanonWriter<W> {
    output: Output<W>,
}

impl<W: Sink> CanonWriter<W> {
    ghost use Rattle.anstyle_parse.specs.Views.CanonWriter.{output_of};

    /// A canonical text of no calls so far, and no fault. Nothing is written.
    pub fn new(writer: W) -> CanonWriter<W>
        ensures writer { writer_in (output_of result) ≡ writer }
        ensures no_fault { fault_in (output_of result) ≡ None }
    {
        CanonWriter {
            output: Output::new(writer),
        }
    }

    /// The fault that stopped it.
    pub fn fault(&self) -> Option<Fault>
        ensures { result ≡ fault_in (output_of self.now) }
    {
        self.output.fault()
    }

    /// Hands the writer back, and answers the fault that stopped it. Where there is none,
    /// the writer is flushed once, and a flush that fails is [`Fault::Flush`]. Nothing is
    /// written.
    pub fn finish(self) -> (W, Result<(), Fault>)
        ensures finishes { Finishes W.Sink (output_of self) result.0 result.1 }
        ensures handed_on { OnOk result.1 (W.holds_nothing result.0) }
    {
        self.output.finish()
    }
}

impl<W: Sink> Perform for CanonWriter<W> {
    ghost use Rattle.anstyle_parse.specs.Views.CanonWriter.{output_of};

    // It adds the call's canonical text.
    ghost means = { λ old call new. Adds W.Sink (call_text call) (output_of old) (output_of new) };

    #[inline(always)]
    fn print(&mut self, c: char) {
        self.output.put_char(c);
    }

    #[inline]
    fn execute(&mut self, byte: u8) {
        self.output.put_byte(byte);
    }

    fn hook(&mut self, params: &Params, intermediates: &[u8], ignore: bool, action: u8) {
        self.header(b'P', params, intermediates, ignore, action);
    }

    #[inline]
    fn put(&mut self, byte: u8) {
        self.output.put_byte(byte);
    }

    fn unhook(&mut self) {
        self.output.put_byte(STRING_TERMINATOR);
    }

    fn osc_dispatch(&mut self, params: &[&[u8]], bell_terminated: bool) {
        self.output.put(&[ESCAPE, b']']);
        put_parts(&mut self.output, params);
        self.output.put(end_of_command(bell_terminated));
    }

    fn csi_dispatch(&mut self, params: &Params, intermediates: &[u8], ignore: bool, action: u8) {
        self.header(b'[', params, intermediates, ignore, action);
    }

    fn esc_dispatch(&mut self, intermediates: &[u8], ignore: bool, byte: u8) {
        self.output.put_byte(ESCAPE);
        self.output.put(intermediates);
        self.output.put(text_if(ignore, b" "));
        self.output.put_byte(byte);
    }
}

/// A text is written as it is, and so is layout.
impl<W: Sink> PerformText for CanonWriter<W> {
    ghost use Rattle.anstyle_parse.specs.Io.Output.{AddsTexts};
    ghost use Rattle.anstyle_parse.specs.Io.AddingProof.{AddsTexts-follows};
    ghost use Rattle.anstyle_parse.specs.Views.CanonWriter.{output_of};

    ghost receives = { AddsTexts W.Sink output_of call_text };

    #[inline(always)]
    fn print_text(&mut self, text: &str) {
        self.output.put_text(text);
    }

    #[inline(always)]
    fn print_with_layout(&mut self, text: &str) {
        self.output.put_text(text);
    }

    #[inline(always)]
    fn print_padded(&mut self, text: &Padded<'_>) {
        self.output.put_padded(text);
    }

    ghost follows = { AddsTexts-follows W.Sink output_of call_text };
}

/// The canonical text has no ending.
impl<W: Sink> WritingPerformer<W> for CanonWriter<W> {
    ghost use Rattle.anstyle_parse.specs.Views.CanonWriter.{output_of};

    ghost output_in = { output_of };

    ghost text_from = { λ _. canon };

    fn output(&self) -> &Output<W> {
        &self.output
    }

    fn pass_on(&mut self) {
        self.output.pass_on();
    }

    fn into_output(self) -> Output<W> {
        self.output
    }

    ghost adds = { λ _ _ _ received. received };

    ghost ends = { λ _ _ _ _ _. refl };
}

impl<W: Sink> CallWriter<W> for CanonWriter<W> {
    ghost use Rattle.anstyle_parse.specs.Views.CanonWriter.{output_of};

    ghost is_new = { λ _. ⊤ };

    ghost text = { canon };

    fn over(output: Output<W>) -> CanonWriter<W>
        ensures output { output_of result ≡ output }
        ensures new { ⊤ }
    {
        CanonWriter { output }
    }

    ghost text_of_new = { λ _ _ _. refl };

    ghost ending_of_new = { λ _ _ _. refl };
}

impl<W: Sink> CanonWriter<W> {
    ghost use Rattle.anstyle_parse.specs.Views.Params.{groups_shown};
    ghost use Rattle.anstyle_parse.specs.Views.CanonWriter.{output_of};

    /// A call with a header: the byte that begins it, what it shows, and the final byte.
    fn header(
        &mut self,
        introducer: u8,
        params: &Params,
        intermediates: &[u8],
        ignore: bool,
        action: u8,
    )
        ensures { Adds W.Sink
            (escape_byte ∷ introducer ∷ (header_text (groups_shown params.now) intermediates.now ignore ++ action ∷ []))
            (output_of self.old) (output_of self.new) }
    {
        let (marker, others) = split_marker(intermediates);
        self.output.put(&[ESCAPE, introducer]);
        self.output.put(marker);
        self.output.put_groups(params);
        self.output.put(more_fields(intermediates, ignore));
        self.output.put(others);
        self.output.put(more_intermediates(intermediates, ignore));
        self.output.put_byte(action);
    }
}

/// Whether there are as many intermediates as a header shows.
#[tactic(auto, unfolding(crate::specs::Stream::Canon::shows_no_more_intermediates))]
fn shows_no_more_intermediates(intermediates: &[u8]) -> bool
    ensures { result ≡ shows_no_more_intermediates intermediates.now }
{
    intermediates.len() >= MAX_SHOWN
}

/// One more field, where more came than is shown and one more intermediate could be shown.
fn more_fields(intermediates: &[u8], ignore: bool) -> &'static [u8]
    ensures { result.now ≡ one_more_field intermediates.now ignore }
{
    if ignore && !shows_no_more_intermediates(intermediates) {
        b";"
    } else {
        b""
    }
}

/// One more intermediate, where more came than is shown and no more can be shown.
fn more_intermediates(intermediates: &[u8], ignore: bool) -> &'static [u8]
    ensures { result.now ≡ one_more_intermediate intermediates.now ignore }
{
    if ignore && shows_no_more_intermediates(intermediates) {
        b" "
    } else {
        b""
    }
}

/// BEL where BEL ended the command, else ESC X and ST, a string that makes no call.
fn end_of_command(bell_terminated: bool) -> &'static [u8]
    ensures { result.now ≡ command_end bell_terminated }
{
    if bell_terminated {
        b"\x07"
    } else {
        b"\x1BX\x9C"
    }
}

/// Writes the parts of an operating system command, with `;` between them.
fn put_parts<W: Sink>(output: &mut Output<W>, parts: &[&[u8]])
    ensures { Adds W.Sink (join_with_byte semicolon (map (λ part. part.now) parts.now)) output.old output.new }
{
    let mut is_first = true;
    for part in parts {
        output.put_separator(is_first, b';');
        is_first = false;
        output.put(part);
    }
}
