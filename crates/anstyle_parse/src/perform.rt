//! What a parser calls.
ghost use Rattle.std.specs.Prelude.{map, ⊤, ℕ, Bool, IsTrue, List, [], ◌∷◌, ◌++◌};
ghost use Rattle.anstyle_parse.specs.Stream.Call.{Call, print, execute, hook, put, unhook, osc_dispatch, csi_dispatch, esc_dispatch};
ghost use Rattle.anstyle_parse.specs.Stream.Items.{EachIs};
ghost use Rattle.anstyle_parse.specs.Stream.Texts.{text_calls, layout_calls, FollowsCalls};
ghost use Rattle.anstyle_parse.specs.Views.Texts.{is_text_byte};

use crate::layout::split_at_layout;
use crate::padded::Padded;
use crate::params::Params;

/// Receives the calls that a [`Parser`](crate::Parser) makes of its bytes.
///
/// The functions are the actions of Paul Williams' parser
/// (vt100.net/emu/dec_ansi_parser). An implementation states in `means` how a call changes
/// it, as a relation of the value before, the call and the value after; each function
/// keeps its part of that, and the parser's contracts say by which calls a performer goes
/// from one value to another.
pub trait Perform {
    ghost use Rattle.anstyle_parse.specs.Views.Params.{groups_shown};

    // What a call means: the performer before, the call, the performer after.
    ghost means: { Self → Call → Self → Type 0 };

    /// A character to be shown. A sequence of UTF-8 that is broken is one U+FFFD, and the byte
    /// that broke it is handled as the first after it.
    fn print(&mut self, c: char)
        ensures { means self.old (print c) self.new };

    /// A control to be executed: C0 without ESC, and in the ground state 80..8F, 91..9A
    /// and 9C.
    fn execute(&mut self, byte: u8)
        ensures { means self.old (execute byte) self.new };

    /// The header of a device control string has ended with the byte `action`.
    ///
    /// `put` is then called for each byte of the string, and `unhook` at its end. `ignore`
    /// says that fields past the 32nd, or intermediates past the second, were dropped.
    fn hook(&mut self, params: &Params, intermediates: &[u8], ignore: bool, action: u8)
        ensures { means self.old (hook (groups_shown params.now) intermediates.now ignore action) self.new };

    /// A byte of a device control string: C0 without 18, 1A and 1B, and 20..7E.
    fn put(&mut self, byte: u8)
        ensures { means self.old (put byte) self.new };

    /// The device control string has ended.
    fn unhook(&mut self)
        ensures { means self.old unhook self.new };

    /// An operating system command has ended, with BEL (07) or in another way.
    ///
    /// There are 1 to 16 parts, 1024 bytes in all at most; what came after is dropped.
    fn osc_dispatch(&mut self, params: &[&[u8]], bell_terminated: bool)
        ensures { means self.old (osc_dispatch (map (λ part. part.now) params.now) bell_terminated) self.new };

    /// A control sequence has ended with the byte `action`.
    ///
    /// `ignore` says that fields past the 32nd, or intermediates past the second, were
    /// dropped. An empty field is 0, so there is at least one.
    fn csi_dispatch(&mut self, params: &Params, intermediates: &[u8], ignore: bool, action: u8)
        ensures { means self.old (csi_dispatch (groups_shown params.now) intermediates.now ignore action) self.new };

    /// An escape sequence has ended with the byte `byte`.
    ///
    /// `ignore` says that intermediates past the second were dropped.
    fn esc_dispatch(&mut self, intermediates: &[u8], ignore: bool, byte: u8)
        ensures { means self.old (esc_dispatch intermediates.now ignore byte) self.new };
}

/// Nothing is done with any call: for bytes whose calls were received before.
impl Perform for () {
    ghost means = { λ _ _ _. ⊤ };

    fn print(&mut self, _c: char) {}

    fn execute(&mut self, _byte: u8) {}

    fn hook(&mut self, _params: &Params, _intermediates: &[u8], _ignore: bool, _action: u8) {}

    fn put(&mut self, _byte: u8) {}

    fn unhook(&mut self) {}

    fn osc_dispatch(&mut self, _params: &[&[u8]], _bell_terminated: bool) {}

    fn csi_dispatch(
        &mut self,
        _params: &Params,
        _intermediates: &[u8],
        _ignore: bool,
        _action: u8,
    ) {}

    fn esc_dispatch(&mut self, _intermediates: &[u8], _ignore: bool, _byte: u8) {}
}

/// A performer that takes a text whole, for the sake of speed: one that writes may write it at
/// once.
///
/// [`Parser::advance_texts`](crate::Parser::advance_texts) hands characters that are printed one
/// after another, with the layout among them, on as one text. An implementation states in
/// `receives` what a list of calls does to it. It need not say how it stands between two calls of
/// the list, so that a text may change it in one step. One that writes `print_text`,
/// `print_with_layout` or `print_padded` itself shows that it does what the same calls, one by one,
/// would have done.
pub trait PerformText: Perform {
    // What a list of calls does to it: the performer before, the calls, the performer after.
    ghost receives: { Self → List Call → Self → Type 0 };

    /// The characters of the text are to be shown, in order, as by [`Perform::print`]. A parser
    /// hands on no empty text.
    fn print_text(&mut self, text: &str)
        ensures { receives self.old (text_calls text.now) self.new }
    {
        for c in text.chars() {
            self.print(c);
        }
    }

    /// A text with layout: the tabs (09), line feeds (0A) and carriage returns (0D) in it are to be
    /// executed, as by [`Perform::execute`], and the other characters to be shown, all in order. A
    /// parser hands on no empty text.
    ///
    /// Where an implementation does not write it, what stands between these controls goes to
    /// `print_text`.
    fn print_with_layout(&mut self, text: &str)
        ensures { receives self.old (layout_calls text.now) self.new }
    {
        let mut rest = text;
        'rest: while !rest.is_empty() {
            let (shown, found) = split_at_layout(rest);
            if !shown.is_empty() {
                self.print_text(shown);
            }
            let Some((control, behind)) = found else {
                break;
            };
            self.execute(control);
            rest = behind;
        }
    }

    /// A text with layout, as `print_with_layout` takes it, that may be read sixteen bytes past its start and is of
    /// characters of one byte alone. A parser hands on no text that is empty or begins with layout.
    ///
    /// Where an implementation does not write it, the text goes to `print_with_layout`.
    #[inline]
    fn print_padded(&mut self, text: &Padded<'_>)
        requires text { EachIs is_text_byte text.now }
        ensures { receives self.old (layout_calls text.now) self.new }
    {
        // Each byte of it is a character.
        self.print_with_layout(unsafe { str::from_utf8_unchecked(text.as_bytes()) });
    }

    /// Whether each control sequence, whatever it says, leaves this performer unchanged, as it stands now.
    ///
    /// [`Parser::advance_heeded`](crate::Parser::advance_heeded) asks it. Where the answer is true, the parser need not
    /// read what a sequence says, nor call [`Perform::csi_dispatch`].
    #[inline(always)]
    fn passes_over_control_sequences(&self) -> bool
        ensures { IsTrue result → (groups : List (List ℕ)) (collected : List ℕ) (ignore : Bool) (final : ℕ)
            → receives self.now (csi_dispatch groups collected ignore final ∷ []) self.now }
    {
        false
    }

    // No call leaves it as it is; one does what it means; a list and then another do what both
    // do, joined.
    ghost follows: { FollowsCalls Self.means receives };
}
