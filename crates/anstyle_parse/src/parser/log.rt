//! Streams that are taken as a reader of logs reads them: a byte that belongs to no character is U+FFFD, 9C is text of
//! strings, and BEL ends those that terminals ignore.
ghost use Rattle.std.specs.Prelude.{◌≡◌, ◌≤◌, ◌-◌, ◌∷◌, ◌++◌, [], ℕ, IsTrue, List, length};
ghost use Rattle.anstyle_parse.specs.Stream.Call.{Goes};
ghost use Rattle.anstyle_parse.specs.Machine.AsRead.{is_stray, heard, is_break, is_at_ground, is_in_ignored_string, is_in_terminated_string};
ghost use Rattle.anstyle_parse.specs.Machine.Decoder.{decoded};
ghost use Rattle.anstyle_parse.specs.Views.Accumulator.{front_of, parser_after};
ghost use Rattle.anstyle_parse.specs.Views.AsRead.{read_by, read_one, LeadsAsReadTo, PassBytes};
ghost use Rattle.anstyle_parse.specs.Views.Front.{bytes_of};
ghost use Rattle.anstyle_parse.specs.Views.Runs.{KeepsTo, is_of_run};
ghost use Rattle.anstyle_parse.specs.Views.Stage.{stage};

use super::Parser;
use super::header::is_final_byte;
use super::passing::after_passed;
use super::runs::Run;
use crate::accumulator::Utf8Parser;
use crate::chunks::CHUNK;
use crate::controls::{BELL, CANCEL, ESCAPE, SPACE, STRING_TERMINATOR};
use crate::perform::{Perform, PerformText};
use crate::state::{Action, State};
use crate::utf8::{Front, Taken};

/// U+FFFD, in UTF-8.
const REPLACEMENT: [u8; 3] = [0xEF, 0xBF, 0xBD];

/// ST, which ends a string, in 7 bits.
const STRING_END: [u8; 2] = [ESCAPE, b'\\'];

/// What is read for 9C in a string: another byte of text, with which a character of which 9C is a byte stays one.
const TEXT_BYTE: u8 = 0x9D;

/// A byte that breaks each character, and begins none.
const BREAK: u8 = 0xFF;

/// A byte from 80 on that begins no character: 80..C1 and F5..FF.
#[inline(always)]
#[tactic(auto, unfolding(crate::specs::Stream::Bytes::is_within, crate::specs::Machine::AsRead::is_stray))]
fn is_stray(byte: u8) -> bool
    ensures { result ≡ is_stray byte }
{
    matches!(byte, 0x80..=0xC1 | 0xF5..=0xFF)
}

/// What is read for a byte of a string's text.
#[inline(always)]
#[tactic(auto, unfolding(crate::specs::Machine::AsRead::heard))]
fn heard(byte: u8) -> u8
    ensures { result ≡ heard byte }
{
    if byte == STRING_TERMINATOR {
        TEXT_BYTE
    } else {
        byte
    }
}

/// Whether a byte breaks a character of which this has come.
fn is_break(front: Front, byte: u8) -> bool
    ensures { result ≡ is_break (decoded (bytes_of front) byte).1 }
{
    let mut front = front;
    matches!(front.take(byte), Taken::Broken(_))
}

/// What comes after the bytes of a run at the front.
#[inline(always)]
fn after_run(run: Run, bytes: &[u8]) -> &[u8]
    ensures { PassBytes (λ b. is_of_run run b) bytes.now result.now }
{
    let mut rest = bytes;
    'chunks: while let Some((chunk, behind)) = rest.split_first_chunk::<CHUNK>() {
        let others = run.others(chunk);
        if others != 0 {
            let (_, left) = rest.split_at(others.trailing_zeros() as usize);
            return left;
        }
        rest = behind;
    }
    after_few(run, rest)
}

/// The same, byte by byte.
#[inline(always)]
fn after_few(run: Run, bytes: &[u8]) -> &[u8]
    ensures { PassBytes (λ b. is_of_run run b) bytes.now result.now }
{
    let mut rest = bytes;
    'bytes: while let Some((first, behind)) = rest.split_first() {
        if !run.has(*first) {
            break;
        }
        rest = behind;
    }
    rest
}

/// Streams of UTF-8, as they are read.
impl Parser<Utf8Parser> {
    ghost use Rattle.anstyle_parse.specs.Machine.AsRead.{as_read, as_read_whole};
    ghost use Rattle.anstyle_parse.specs.Machine.Step.{machine_after};
    ghost use Rattle.anstyle_parse.specs.Stream.Texts.{HasReceivedTexts};
    ghost use Rattle.anstyle_parse.specs.Views.Parser.{machine_of, calls_made, IsAfter, IsAtFields};

    /// Takes bytes, as [`advance_heeded`](Parser::advance_heeded) does, but as a reader of logs reads them: a byte
    /// 80..FF that belongs to no character is U+FFFD, 9C ends no string, and BEL ends a string APC, PM or SOS.
    ///
    /// A stream may come in any pieces, but all by this call.
    #[inline]
    pub fn advance_log<P: PerformText>(&mut self, performer: &mut P, bytes: &[u8])
        // The headline: where the parser stands after what was read of the bytes before, it stands after what is read
        // of all; and a performer that has received exactly the calls of that has received exactly those of all.
        ensures stands { (before : List ℕ) → IsAfter front_of self.old (as_read before)
            → IsAfter front_of self.new (as_read (before ++ bytes.now)) }
        ensures received { (first : P) (before : List ℕ) → IsAfter front_of self.old (as_read before)
            → HasReceivedTexts P.receives first (as_read before) performer.old
            → HasReceivedTexts P.receives first (as_read (before ++ bytes.now)) performer.new }

        // The calls are those of what is read of these bytes, from where the parser stands.
        ensures calls { P.receives performer.old
            (calls_made parser_after self.old (read_by self.old bytes.now)) performer.new }
    {
        self.take_log(performer, bytes);
    }

    /// The end of a log: a character that is begun and can't be whole any more is U+FFFD.
    pub fn end_log<P: PerformText>(&mut self, performer: &mut P)
        ensures stands { (before : List ℕ) → IsAfter front_of self.old (as_read before)
            → IsAfter front_of self.new (as_read_whole before) }
        ensures received { (first : P) (before : List ℕ) → IsAfter front_of self.old (as_read before)
            → HasReceivedTexts P.receives first (as_read before) performer.old
            → HasReceivedTexts P.receives first (as_read_whole before) performer.new }
    {
        if self.is_in_char() {
            self.advance_texts(performer, &[BREAK]);
        }
    }

    /// Bytes, as they are read, as the machine takes them one after another, in what counts.
    fn take_log<P: PerformText>(&mut self, performer: &mut P, bytes: &[u8])
        ensures { LeadsAsReadTo P.receives (stage self.old performer.old bytes.now) (stage self.new performer.new []) }
    {
        let mut rest = bytes;
        'rest: while let Some((first, behind)) = rest.split_first() {
            rest = match self.state {
                State::Ground => self.take_text_or_pass(performer, rest),
                State::CsiEntry | State::CsiParam => self.take_read_header(performer, rest),
                State::Escape => self.take_read_after_escape(performer, *first, behind),
                State::OscString => self.take_read_command(performer, rest),
                State::DcsPassthrough => {
                    self.take_read_in_hooked_string(performer, *first, behind)
                }
                State::SosPmApcString | State::DcsIgnore => {
                    self.take_read_run(performer, Run::OfIgnoredString, *first, behind)
                }
                _ => self.take_read(performer, *first, behind),
            };
        }
    }

    /// The text at the front, and a control sequence that is passed over, or what else follows it.
    #[inline(always)]
    fn take_text_or_pass<'a, P: PerformText>(
        &mut self,
        performer: &mut P,
        bytes: &'a [u8],
    ) -> &'a [u8]
        requires { self.old.state ≡ State.Ground }
        ensures leads { LeadsAsReadTo P.receives (stage self.old performer.old bytes.now)
            (stage self.new performer.new result.now) }
        ensures onward { length result.now ≤ length bytes.now - 1 }
    {
        let further = self.take_text(performer, bytes);
        match after_passed(performer, further) {
            Some(behind) => behind,
            None => self.take_read_unprinted(performer, further),
        }
    }

    /// A control, or a sequence that begins, or a byte of a character that is not whole.
    #[inline(always)]
    fn take_read_unprinted<'a, P: PerformText>(
        &mut self,
        performer: &mut P,
        bytes: &'a [u8],
    ) -> &'a [u8]
        requires { self.old.state ≡ State.Ground }
        ensures leads { LeadsAsReadTo P.receives (stage self.old performer.old bytes.now)
            (stage self.new performer.new result.now) }
        ensures onward { length result.now ≤ length bytes.now - 1 }
    {
        let Some((first, behind)) = bytes.split_first() else {
            return bytes;
        };
        let first = *first;
        if first == ESCAPE {
            return self.take_read_escape(performer, first, behind);
        }
        if first < CANCEL {
            self.step_by_answer(performer, State::Anywhere, Action::Execute, first);
            return behind;
        }
        self.take_read(performer, first, behind)
    }

    /// ESC, and with it a control sequence or a command that it begins, as far as that stands here.
    #[inline(always)]
    fn take_read_escape<'a, P: PerformText>(
        &mut self,
        performer: &mut P,
        first: u8,
        behind: &'a [u8],
    ) -> &'a [u8]
        requires ground { self.old.state ≡ State.Ground }
        requires escape { first ≡ 0x1B }
        ensures leads { LeadsAsReadTo P.receives (stage self.old performer.old (first ∷ behind.now))
            (stage self.new performer.new result.now) }
        ensures within { length result.now ≤ length behind.now }
    {
        match behind.split_first() {
            Some((next, header)) if *next == b'[' => {
                self.begin_control_sequence();
                self.take_read_header(performer, header)
            }
            _ => self.take_other_read_escape(performer, first, behind),
        }
    }

    /// ESC that begins no control sequence here.
    #[inline(always)]
    fn take_other_read_escape<'a, P: PerformText>(
        &mut self,
        performer: &mut P,
        first: u8,
        behind: &'a [u8],
    ) -> &'a [u8]
        requires ground { self.old.state ≡ State.Ground }
        requires escape { first ≡ 0x1B }
        ensures leads { LeadsAsReadTo P.receives (stage self.old performer.old (first ∷ behind.now))
            (stage self.new performer.new result.now) }
        ensures within { length result.now ≤ length behind.now }
    {
        self.step_by_answer(performer, State::Escape, Action::Nop, first);
        match behind.split_first() {
            Some((next, text)) if *next == b']' => {
                self.step_by_answer(performer, State::OscString, Action::Nop, *next);
                self.take_read_command(performer, text)
            }
            _ => behind,
        }
    }

    /// What begins a string, or ends one, directly after ESC; or another byte.
    #[inline(always)]
    fn take_read_after_escape<'a, P: PerformText>(
        &mut self,
        performer: &mut P,
        first: u8,
        behind: &'a [u8],
    ) -> &'a [u8]
        requires { self.old.state ≡ State.Escape }
        ensures leads { LeadsAsReadTo P.receives (stage self.old performer.old (first ∷ behind.now))
            (stage self.new performer.new result.now) }
        ensures behind { result.now ≡ behind.now }
    {
        self.step_after_escape(performer, first);
        behind
    }

    /// Text of a command, and the control after it: one of its ends, or another. It is out of line, so that the loop
    /// stays small.
    #[inline(never)]
    fn take_read_command<'a, P: PerformText>(
        &mut self,
        performer: &mut P,
        bytes: &'a [u8],
    ) -> &'a [u8]
        requires { self.old.state ≡ State.OscString }
        ensures leads { LeadsAsReadTo P.receives (stage self.old performer.old bytes.now)
            (stage self.new performer.new result.now) }
        ensures onward { length result.now ≤ length bytes.now - 1 }
    {
        let rest = self.store_text(bytes);
        let Some((control, behind)) = rest.split_first() else {
            return rest;
        };
        self.step_in_command(performer, *control);
        behind
    }

    /// Bytes that are put; or the ESC that ends the string, or another byte.
    #[inline(always)]
    fn take_read_in_hooked_string<'a, P: PerformText>(
        &mut self,
        performer: &mut P,
        first: u8,
        behind: &'a [u8],
    ) -> &'a [u8]
        requires { self.old.state ≡ State.DcsPassthrough }
        ensures leads { LeadsAsReadTo P.receives (stage self.old performer.old (first ∷ behind.now))
            (stage self.new performer.new result.now) }
        ensures within { length result.now ≤ length behind.now }
    {
        if !Run::OfHookedString.has(first) {
            self.step_after_puts(performer, heard(first));
            return behind;
        }
        self.take_whole_read_run(performer, Run::OfHookedString, first, behind)
    }

    /// Fields and the end of a control sequence, as far as they stand here; or another byte.
    #[inline(always)]
    fn take_read_header<'a, P: PerformText>(
        &mut self,
        performer: &mut P,
        bytes: &'a [u8],
    ) -> &'a [u8]
        requires { IsAtFields self.old }
        ensures leads { LeadsAsReadTo P.receives (stage self.old performer.old bytes.now)
            (stage self.new performer.new result.now) }
        ensures onward { length result.now ≤ length bytes.now - 1 }
    {
        let rest = self.take_fields(bytes);
        let Some((last, behind)) = rest.split_first() else {
            return rest;
        };
        if is_final_byte(*last) {
            self.step_by_answer(performer, State::Ground, Action::CsiDispatch, *last);
        } else {
            self.step_in_header(performer, *last);
        }
        behind
    }

    /// The first byte and the others of its run; the first alone, if it is of none.
    #[inline(always)]
    fn take_read_run<'a, P: PerformText>(
        &mut self,
        performer: &mut P,
        run: Run,
        first: u8,
        behind: &'a [u8],
    ) -> &'a [u8]
        requires { KeepsTo run self.old.state }
        ensures leads { LeadsAsReadTo P.receives (stage self.old performer.old (first ∷ behind.now))
            (stage self.new performer.new result.now) }
        ensures within { length result.now ≤ length behind.now }
    {
        if !run.has(first) {
            return self.take_read(performer, first, behind);
        }
        self.take_whole_read_run(performer, run, first, behind)
    }

    /// The same of a first byte that is of the run.
    #[inline(always)]
    fn take_whole_read_run<'a, P: PerformText>(
        &self,
        performer: &mut P,
        run: Run,
        first: u8,
        behind: &'a [u8],
    ) -> &'a [u8]
        requires keeps { KeepsTo run self.now.state }
        requires first { IsTrue (is_of_run run first) }
        ensures leads { LeadsAsReadTo P.receives (stage self.now performer.old (first ∷ behind.now))
            (stage self.now performer.new result.now) }
        ensures within { length result.now ≤ length behind.now }
    {
        run.call(performer, first);
        let rest = after_run(run, behind);
        let (few, _) = behind.split_at(behind.len() - rest.len());
        run.call_few(performer, few);
        rest
    }

    /// One byte alone, as it is read, through the table. It is out of line: there it stands once.
    #[inline(never)]
    fn take_read<'a, P: PerformText>(
        &mut self,
        performer: &mut P,
        first: u8,
        behind: &'a [u8],
    ) -> &'a [u8]
        ensures leads { LeadsAsReadTo P.receives (stage self.old performer.old (first ∷ behind.now))
            (stage self.new performer.new result.now) }
        ensures behind { result.now ≡ behind.now }
    {
        self.step_as_read(performer, first);
        behind
    }

    /// One byte, as it is read.
    fn step_as_read<P: Perform>(&mut self, performer: &mut P, byte: u8)
        ensures machine { machine_of self.new
            ≡ machine_after parser_after (read_one self.old byte) (machine_of self.old) }
        ensures calls { Goes P.means performer.old
            (calls_made parser_after self.old (read_one self.old byte)) performer.new }
    {
        if self.is_at_ground(byte) && is_stray(byte) {
            self.take_bytes(performer, &REPLACEMENT);
        } else if byte == BELL && self.is_in_ignored_string() {
            self.take_bytes(performer, &STRING_END);
        } else if self.is_in_terminated_string() {
            self.step(performer, heard(byte));
        } else {
            self.step(performer, byte);
        }
    }

    /// Whether a byte is handled in the ground state: there, or where it breaks the character that was begun.
    #[inline(always)]
    fn is_at_ground(&self, byte: u8) -> bool
        ensures { result ≡ is_at_ground parser_after self.now.state self.now.accumulator byte }
    {
        match self.state {
            State::Ground => true,
            State::Utf8 => is_break(self.accumulator.front(), byte),
            _ => false,
        }
    }

    /// Whether the parser is inside a string APC, PM or SOS.
    #[inline(always)]
    fn is_in_ignored_string(&self) -> bool
        ensures { result ≡ is_in_ignored_string self.now.state }
    {
        matches!(self.state, State::SosPmApcString)
    }

    /// Whether the parser is inside a string that the byte 9C would end.
    #[inline(always)]
    fn is_in_terminated_string(&self) -> bool
        ensures { result ≡ is_in_terminated_string self.now.state }
    {
        matches!(
            self.state,
            State::DcsIgnore | State::DcsPassthrough | State::SosPmApcString
        )
    }
}
