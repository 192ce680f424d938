//! The performer that hands on what drives no terminal.
ghost use Rattle.std.specs.Prelude.{◌≡◌, [], filter};
ghost use Rattle.ansi_strip.specs.Inert.{is_inert};

use crate::clear::{is_clear, is_clear_padded};
use crate::driving::{is_driving, split_at_driving};
use anstyle_parse::io::{CallWriter, Output, Sink, WritingPerformer};
use anstyle_parse::{Padded, Params, Perform, PerformText};
use std::str;

/// Hands all calls on to a performer but the prints of DEL and of U+0080 to U+009F, which terminals take for
/// controls.
///
/// Around a [`Stripper`](crate::Stripper) it makes text that drives no terminal: [`strip_inert`](crate::strip_inert).
#[derive(Drop)]
pub struct Inert<P> {
    performer: P,
}

impl<P: Perform> Inert<P> {
    ghost use Rattle.ansi_strip.specs.Passing.{performer_in};

    /// One that hands on to this performer.
    pub fn new(performer: P) -> Inert<P>
        ensures { performer_in result ≡ performer }
    {
        Inert { performer }
    }

    /// The performer that it hands on to.
    pub fn performer(&self) -> &P
        ensures { result.now ≡ performer_in self.now }
    {
        &self.performer
    }
}

impl<P: Perform> Perform for Inert<P> {
    ghost use Rattle.ansi_strip.specs.Passing.{HandsOn};

    // A call that is inert is handed on; by any other nothing changes.
    ghost means = { HandsOn P.means };

    #[inline]
    fn print(&mut self, c: char) {
        if !is_driving(c) {
            self.performer.print(c);
        }
    }

    #[inline]
    fn execute(&mut self, byte: u8) {
        self.performer.execute(byte);
    }

    fn hook(&mut self, params: &Params, intermediates: &[u8], ignore: bool, action: u8) {
        self.performer.hook(params, intermediates, ignore, action);
    }

    #[inline]
    fn put(&mut self, byte: u8) {
        self.performer.put(byte);
    }

    fn unhook(&mut self) {
        self.performer.unhook();
    }

    fn osc_dispatch(&mut self, params: &[&[u8]], bell_terminated: bool) {
        self.performer.osc_dispatch(params, bell_terminated);
    }

    fn csi_dispatch(&mut self, params: &Params, intermediates: &[u8], ignore: bool, action: u8) {
        self.performer
            .csi_dispatch(params, intermediates, ignore, action);
    }

    fn esc_dispatch(&mut self, intermediates: &[u8], ignore: bool, byte: u8) {
        self.performer.esc_dispatch(intermediates, ignore, byte);
    }
}

impl<P: PerformText> Inert<P> {
    ghost use Rattle.std.specs.Prelude.{IsUtf8};
    ghost use Rattle.anstyle_parse.specs.Stream.Texts.{layout_calls};
    ghost use Rattle.ansi_strip.specs.Passing.{performer_in};

    /// A text in parts: what stands between the characters that are not handed on.
    #[inline(never)]
    fn print_parts(&mut self, text: &str)
        ensures { P.receives (performer_in self.old) (filter is_inert (layout_calls text.now)) (performer_in self.new) }
    {
        let mut rest = text;
        'rest: while !rest.is_empty() {
            let (inert, behind) = split_at_driving(rest);
            if !inert.is_empty() {
                self.performer.print_with_layout(inert);
            }
            rest = behind;
        }
    }

    /// The same with a text that is given by its bytes.
    #[inline(never)]
    fn print_bytes(&mut self, bytes: &[u8])
        requires { IsUtf8 bytes.now }
        ensures { P.receives (performer_in self.old) (filter is_inert (layout_calls bytes.now))
            (performer_in self.new) }
    {
        match str::from_utf8(bytes) {
            Ok(text) => self.print_parts(text),
            Err(_) => unreachable!(),
        }
    }
}

/// A text without these characters is handed on as it is.
impl<P: PerformText> PerformText for Inert<P> {
    ghost use Rattle.ansi_strip.specs.Passing.{ReceivesInert};
    ghost use Rattle.ansi_strip.specs.PassingProof.{receives-follows};

    ghost receives = { ReceivesInert P.receives };

    #[inline(always)]
    fn print_with_layout(&mut self, text: &str) {
        if is_clear(text.as_bytes()) {
            self.performer.print_with_layout(text);
        } else {
            self.print_parts(text);
        }
    }

    #[inline(always)]
    fn print_padded(&mut self, text: &Padded<'_>) {
        if is_clear_padded(text) {
            self.performer.print_padded(text);
        } else {
            self.print_bytes(text.as_bytes());
        }
    }

    /// It hands them on: so the performer answers for it.
    #[inline(always)]
    fn passes_over_control_sequences(&self) -> bool {
        self.performer.passes_over_control_sequences()
    }

    ghost follows = { receives-follows P.means P.receives P.follows };
}

/// What it writes is what the performer writes of the inert calls.
impl<W: Sink, P: WritingPerformer<W>> WritingPerformer<W> for Inert<P> {
    ghost use Rattle.ansi_strip.specs.Passing.{performer_in};

    ghost output_in = { λ inert. P.output_in (performer_in inert) };

    ghost text_from = { λ inert calls. P.text_from (performer_in inert) (filter is_inert calls) };

    ghost ending_from = { λ inert calls. P.ending_from (performer_in inert) (filter is_inert calls) };

    fn output(&self) -> &Output<W> {
        self.performer.output()
    }

    fn pass_on(&mut self) {
        self.performer.pass_on();
    }

    fn into_output(self) -> Output<W> {
        self.performer.into_output()
    }

    ghost adds = { λ old calls new received.
        P.adds (performer_in old) (filter is_inert calls) (performer_in new) received };

    ghost ends = { λ old calls new received no_fault.
        P.ends (performer_in old) (filter is_inert calls) (performer_in new) received no_fault };
}

impl<W: Sink, P: CallWriter<W>> CallWriter<W> for Inert<P> {
    ghost use Rattle.ansi_strip.specs.Passing.{performer_in};

    ghost is_new = { λ inert. P.is_new (performer_in inert) };

    ghost text = { λ calls. P.text (filter is_inert calls) };

    ghost ending = { λ calls. P.ending (filter is_inert calls) };

    fn over(output: Output<W>) -> Inert<P>
        ensures output { P.output_in (performer_in result) ≡ output }
        ensures new { P.is_new (performer_in result) }
    {
        Inert {
            performer: P::over(output),
        }
    }

    ghost text_of_new = { λ inert new calls. P.text_of_new (performer_in inert) new (filter is_inert calls) };

    ghost ending_of_new = { λ inert new calls. P.ending_of_new (performer_in inert) new (filter is_inert calls) };
}
