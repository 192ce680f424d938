//! Runs: bytes that are taken at once, with no look at the table for each of them.
//!
//! Each function takes what goes together at the front of the bytes and answers the rest. Its
//! clause says that going on from where it leaves with the rest is taking all bytes one after
//! another. A byte that is in no run goes through the table.
ghost use Rattle.std.specs.Prelude.{◌≡◌, ◌≢◌, ◌≤◌, ◌+◌, ◌-◌, ◌∷◌, ℕ, IsTrue, length};
ghost use Rattle.std.specs.Prelude.{map, not};
ghost use Rattle.std.specs.Simd.Lanes.{mask_l};
ghost use Rattle.anstyle_parse.specs.Stream.Bytes.{is_within, is_parameter};
ghost use Rattle.anstyle_parse.specs.Stream.Call.{Goes};
ghost use Rattle.anstyle_parse.specs.Machine.Table.{◌by◌, change_at};
ghost use Rattle.anstyle_parse.specs.Views.Runs.{Takes, LeadsTo, LeadsQuietlyTo, KeepsTo, begins_nothing, is_of_command, is_of_run, run_calls, AreMade};
ghost use Rattle.anstyle_parse.specs.Views.Stage.{stage};

use super::Parser;
use super::command::is_plain_byte;
use super::header::{is_final_byte, is_marker, is_parameter};
use crate::accumulator::CharAccumulator;
use crate::chunks::{CHUNK, outside};
use crate::controls::{CANCEL, ESCAPE, SPACE};
use crate::perform::Perform;
use crate::state::{Action, State};
use std::simd::prelude::*;

/// Bytes that leave the machine as it is.
#[derive(Clone, Copy, PartialEq, Eq)]
pub(super) enum Run {
    /// 20..7F, printed in the ground state.
    Printed,
    /// 20..7E, put from a hooked device control string.
    OfHookedString,
    /// 20..7F, of a string that is ignored.
    OfIgnoredString,
    /// 20..3F, of a header that is ignored.
    OfIgnoredHeader,
}

impl Run {
    /// Whether the byte is of the run.
    #[inline(always)]
    #[tactic(auto, unfolding(crate::specs::Stream::Bytes::is_within))]
    pub(super) fn has(self, byte: u8) -> bool
        ensures { result ≡ is_of_run self byte }
    {
        match self {
            Run::Printed | Run::OfIgnoredString => matches!(byte, 0x20..=0x7F),
            Run::OfHookedString => matches!(byte, 0x20..=0x7E),
            Run::OfIgnoredHeader => matches!(byte, 0x20..=0x3F),
        }
    }

    /// How many bytes are of the run, from 20 on.
    #[inline(always)]
    fn count(self) -> u8
        ensures of_run { (b : ℕ) → is_of_run self b ≡ is_within 0x20 (0x1F + result) b }
        ensures few { result ≤ 0x60 }
    {
        match self {
            Run::Printed | Run::OfIgnoredString => 0x60,
            Run::OfHookedString => 0x5F,
            Run::OfIgnoredHeader => 0x20,
        }
    }

    /// A bit for each byte of a chunk, the lowest for the first: whether it is none of the run.
    #[inline(always)]
    pub(super) fn others(self, chunk: &[u8; CHUNK]) -> u64
        ensures { result ≡ mask_l (map (λ b. not (is_of_run self b)) chunk.now) }
    {
        outside(u8x16::from_array(*chunk), SPACE, self.count())
    }

    /// Makes the call of a byte of the run, if it has one.
    #[inline(always)]
    pub(super) fn call<P: Perform>(self, performer: &mut P, byte: u8)
        ensures { Goes P.means performer.old (run_calls self byte) performer.new }
    {
        match self {
            Run::Printed => performer.print(char::from(byte)),
            Run::OfHookedString => performer.put(byte),
            Run::OfIgnoredString | Run::OfIgnoredHeader => {}
        }
    }

    /// The same for each of a chunk.
    #[inline(always)]
    fn call_all<P: Perform>(self, performer: &mut P, bytes: [u8; CHUNK])
        ensures { AreMade P.means (λ b. run_calls self b) performer.old bytes performer.new }
    {
        for byte in bytes {
            self.call(performer, byte);
        }
    }

    /// The same for each of fewer.
    #[inline(always)]
    pub(super) fn call_few<P: Perform>(self, performer: &mut P, bytes: &[u8])
        ensures { AreMade P.means (λ b. run_calls self b) performer.old bytes.now performer.new }
    {
        for byte in bytes {
            self.call(performer, *byte);
        }
    }
}

/// All bytes.
impl<C: CharAccumulator> Parser<C> {
    ghost use Rattle.anstyle_parse.specs.Views.Parser.{machine_of, calls_made, CanTakeAll};
    ghost use Rattle.anstyle_parse.specs.Machine.Step.{machine_after};

    /// Bytes, as the machine takes them one after another.
    pub(super) fn take_bytes<P: Perform>(&mut self, performer: &mut P, bytes: &[u8])
        requires { CanTakeAll C.takes self.old bytes.now }
        ensures machine { machine_of self.new ≡ machine_after C.taken bytes.now (machine_of self.old) }
        ensures calls { Goes P.means performer.old (calls_made C.taken self.old bytes.now) performer.new }
    {
        let mut rest = bytes;
        'rest: while !rest.is_empty() {
            rest = self.take_first(performer, rest);
        }
    }

    /// The first byte, and those after it that go with it; nothing, where there is none.
    #[inline(always)]
    pub(super) fn take_first<'a, P: Perform>(
        &mut self,
        performer: &mut P,
        bytes: &'a [u8],
    ) -> &'a [u8]
        requires { CanTakeAll C.takes self.old bytes.now }
        ensures leads { LeadsTo C.takes C.taken P.means (stage self.old performer.old bytes.now)
            (stage self.new performer.new result.now) }
        ensures onward { length result.now ≤ length bytes.now - 1 }
    {
        let Some((first, behind)) = bytes.split_first() else {
            return bytes;
        };
        let first = *first;
        match self.state {
            State::Ground => self.take_in_ground(performer, bytes),
            State::Escape => {
                self.step_after_escape(performer, first);
                behind
            }
            State::CsiEntry | State::CsiParam => self.take_on_in_header(performer, bytes),
            State::OscString => self.take_command(performer, bytes),
            State::DcsEntry => self.take_device_final(performer, first, behind),
            State::DcsPassthrough => self.take_in_hooked_string(performer, bytes),
            State::SosPmApcString | State::DcsIgnore => {
                self.take_run(performer, Run::OfIgnoredString, first, behind)
            }
            State::CsiIgnore => self.take_run(performer, Run::OfIgnoredHeader, first, behind),
            _ => self.take_by_table(performer, first, behind),
        }
    }

    /// One byte alone, through the table.
    #[inline(always)]
    fn take_by_table<'a, P: Perform>(
        &mut self,
        performer: &mut P,
        first: u8,
        behind: &'a [u8],
    ) -> &'a [u8]
        requires { CanTakeAll C.takes self.old (first ∷ behind.now) }
        ensures { Takes C.takes C.taken P.means (stage self.old performer.old (first ∷ behind.now))
            (stage self.new performer.new result.now) }
    {
        self.step_out_of_line(performer, first);
        behind
    }
}

/// Bytes that leave the machine as it is.
impl<C: CharAccumulator> Parser<C> {
    ghost use Rattle.anstyle_parse.specs.Views.Parser.{CanTakeAll};

    /// The first byte and the others of its run; the first alone, if it is of none.
    #[inline(always)]
    fn take_run<'a, P: Perform>(
        &mut self,
        performer: &mut P,
        run: Run,
        first: u8,
        behind: &'a [u8],
    ) -> &'a [u8]
        requires keeps { KeepsTo run self.old.state }
        requires can { CanTakeAll C.takes self.old (first ∷ behind.now) }
        ensures { Takes C.takes C.taken P.means (stage self.old performer.old (first ∷ behind.now))
            (stage self.new performer.new result.now) }
    {
        if !run.has(first) {
            return self.take_by_table(performer, first, behind);
        }
        run.call(performer, first);
        self.take_chunks(performer, run, behind)
    }

    /// Chunks, up to one of which not all is of the run, and then single bytes.
    #[inline(always)]
    fn take_chunks<'a, P: Perform>(&self, performer: &mut P, run: Run, bytes: &'a [u8]) -> &'a [u8]
        requires keeps { KeepsTo run self.now.state }
        requires can { CanTakeAll C.takes self.now bytes.now }
        ensures { LeadsTo C.takes C.taken P.means (stage self.now performer.old bytes.now)
            (stage self.now performer.new result.now) }
    {
        let mut rest = bytes;
        'chunks: while let Some((chunk, behind)) = rest.split_first_chunk::<CHUNK>() {
            let others = run.others(chunk);
            if others != 0 {
                let (few, left) = rest.split_at(others.trailing_zeros() as usize);
                run.call_few(performer, few);
                return left;
            }
            run.call_all(performer, *chunk);
            rest = behind;
        }
        self.take_others(performer, run, rest)
    }

    /// Single bytes, as long as they are of the run.
    #[inline(always)]
    fn take_others<'a, P: Perform>(&self, performer: &mut P, run: Run, bytes: &'a [u8]) -> &'a [u8]
        requires keeps { KeepsTo run self.now.state }
        requires can { CanTakeAll C.takes self.now bytes.now }
        ensures { LeadsTo C.takes C.taken P.means (stage self.now performer.old bytes.now)
            (stage self.now performer.new result.now) }
    {
        let mut rest = bytes;
        'bytes: while let Some((first, behind)) = rest.split_first() {
            if !run.has(*first) {
                break;
            }
            run.call(performer, *first);
            rest = behind;
        }
        rest
    }
}

/// A high byte that is no control and begins no character: 9D..C1 and F5..FF.
#[inline(always)]
#[tactic(auto, unfolding(crate::specs::Stream::Bytes::is_within))]
fn begins_nothing(byte: u8) -> bool
    ensures { result ≡ begins_nothing byte }
{
    matches!(byte, 0x9D..=0xC1 | 0xF5..=0xFF)
}

/// The ground state.
impl<C: CharAccumulator> Parser<C> {
    ghost use Rattle.anstyle_parse.specs.Views.Parser.{machine_of, CanTakeAll};
    ghost use Rattle.anstyle_parse.specs.Machine.Step.{step};

    /// Printed bytes, whole characters, or a sequence that begins.
    #[inline(always)]
    pub(super) fn take_in_ground<'a, P: Perform>(
        &mut self,
        performer: &mut P,
        bytes: &'a [u8],
    ) -> &'a [u8]
        requires ground { self.old.state ≡ State.Ground }
        requires can { CanTakeAll C.takes self.old bytes.now }
        ensures leads { LeadsTo C.takes C.taken P.means (stage self.old performer.old bytes.now)
            (stage self.new performer.new result.now) }
        ensures onward { length result.now ≤ length bytes.now - 1 }
    {
        let Some((first, behind)) = bytes.split_first() else {
            return bytes;
        };
        let first = *first;
        if Run::Printed.has(first) {
            return self.take_run(performer, Run::Printed, first, behind);
        }
        self.take_unprinted(performer, bytes)
    }

    /// Whole characters, or a sequence that begins: for bytes of which the first is mostly not printed. One that is
    /// printed goes by the table.
    #[inline(always)]
    pub(super) fn take_unprinted<'a, P: Perform>(
        &mut self,
        performer: &mut P,
        bytes: &'a [u8],
    ) -> &'a [u8]
        requires ground { self.old.state ≡ State.Ground }
        requires can { CanTakeAll C.takes self.old bytes.now }
        ensures leads { LeadsTo C.takes C.taken P.means (stage self.old performer.old bytes.now)
            (stage self.new performer.new result.now) }
        ensures onward { length result.now ≤ length bytes.now - 1 }
    {
        let Some((first, behind)) = bytes.split_first() else {
            return bytes;
        };
        let first = *first;
        if first == ESCAPE {
            return self.take_escape(performer, first, behind);
        }
        if first < CANCEL {
            self.step_by_answer(performer, State::Anywhere, Action::Execute, first);
            return behind;
        }
        if begins_nothing(first) {
            return self.take_nothing(first, behind);
        }
        let rest = self.take_characters(performer, bytes);
        if rest.len() < bytes.len() {
            return rest;
        }
        let Some((other, further)) = rest.split_first() else {
            return rest;
        };
        self.take_by_table(performer, *other, further)
    }

    /// A byte that begins nothing, and others after it.
    #[inline(always)]
    fn take_nothing<'a>(&self, first: u8, behind: &'a [u8]) -> &'a [u8]
        requires ground { self.now.state ≡ State.Ground }
        requires nothing { IsTrue (begins_nothing first) }
        requires can { CanTakeAll C.takes self.now (first ∷ behind.now) }
        ensures leads { LeadsQuietlyTo C.takes C.taken begins_nothing
            self.now (first ∷ behind.now) self.now result.now }
        ensures within { length result.now ≤ length behind.now }
    {
        let mut rest = behind;
        'bytes: while let Some((first, behind)) = rest.split_first() {
            if !begins_nothing(*first) {
                break;
            }
            rest = behind;
        }
        rest
    }

    /// Whole characters, one after another.
    #[inline(always)]
    fn take_characters<'a, P: Perform>(&self, performer: &mut P, bytes: &'a [u8]) -> &'a [u8]
        requires ground { self.now.state ≡ State.Ground }
        requires can { CanTakeAll C.takes self.now bytes.now }
        ensures { LeadsTo C.takes C.taken P.means (stage self.now performer.old bytes.now)
            (stage self.now performer.new result.now) }
    {
        let mut rest = bytes;
        'characters: while let Some((first, behind)) = rest.split_first() {
            let Some((c, further)) = self.accumulator.whole(*first, behind) else {
                break;
            };
            performer.print(c);
            rest = further;
        }
        rest
    }

    /// ESC, and with it a control sequence or a command that it begins, as far as that stands here,
    /// or the byte after it.
    #[inline(always)]
    fn take_escape<'a, P: Perform>(
        &mut self,
        performer: &mut P,
        first: u8,
        behind: &'a [u8],
    ) -> &'a [u8]
        requires ground { self.old.state ≡ State.Ground }
        requires escape { first ≡ 0x1B }
        requires can { CanTakeAll C.takes self.old (first ∷ behind.now) }
        ensures { Takes C.takes C.taken P.means (stage self.old performer.old (first ∷ behind.now))
            (stage self.new performer.new result.now) }
    {
        match behind.split_first() {
            Some((next, rest)) if *next == b'[' => {
                self.begin_control_sequence();
                self.take_in_header(performer, rest)
            }
            _ => self.take_other_escape(performer, first, behind),
        }
    }

    /// ESC and `[`: the header is forgotten once, for both.
    #[inline(always)]
    pub(super) fn begin_control_sequence(&mut self)
        requires { self.old.state ≡ State.Ground }
        ensures { machine_of self.new ≡ step C.taken 0x5B (step C.taken 0x1B (machine_of self.old)) }
    {
        self.header.clear();
        self.state = State::CsiEntry;
    }

    /// ESC that begins no control sequence here.
    #[inline(always)]
    fn take_other_escape<'a, P: Perform>(
        &mut self,
        performer: &mut P,
        first: u8,
        behind: &'a [u8],
    ) -> &'a [u8]
        requires ground { self.old.state ≡ State.Ground }
        requires escape { first ≡ 0x1B }
        requires can { CanTakeAll C.takes self.old (first ∷ behind.now) }
        ensures { Takes C.takes C.taken P.means (stage self.old performer.old (first ∷ behind.now))
            (stage self.new performer.new result.now) }
    {
        self.step_by_answer(performer, State::Escape, Action::Nop, first);
        if let Some((next, rest)) = behind.split_first() {
            if *next == b']' {
                self.step_by_answer(performer, State::OscString, Action::Nop, *next);
                return self.take_command(performer, rest);
            }
            self.step_after_escape(performer, *next);
            return rest;
        }
        behind
    }
}

/// The header of a control sequence.
impl<C: CharAccumulator> Parser<C> {
    ghost use Rattle.anstyle_parse.specs.Views.Parser.{CanTakeAll, IsAtFields};

    /// Fields and the end of the sequence, as far as they stand here; or another byte.
    #[inline(always)]
    pub(super) fn take_in_header<'a, P: Perform>(
        &mut self,
        performer: &mut P,
        bytes: &'a [u8],
    ) -> &'a [u8]
        requires header { IsAtFields self.old }
        requires can { CanTakeAll C.takes self.old bytes.now }
        ensures leads { LeadsTo C.takes C.taken P.means (stage self.old performer.old bytes.now)
            (stage self.new performer.new result.now) }
        ensures onward { length result.now ≤ length bytes.now - 1 }
    {
        let rest = self.take_fields(bytes);
        match rest.split_first() {
            Some((last, behind)) => {
                if is_final_byte(*last) {
                    self.step_by_answer(performer, State::Ground, Action::CsiDispatch, *last);
                    return behind;
                }
                self.take_marker(performer, *last, behind)
            }
            None => rest,
        }
    }

    /// The same of a header that was begun before. It is out of line, so that the loop stays small.
    #[inline(never)]
    fn take_on_in_header<'a, P: Perform>(&mut self, performer: &mut P, bytes: &'a [u8]) -> &'a [u8]
        requires header { IsAtFields self.old }
        requires can { CanTakeAll C.takes self.old bytes.now }
        ensures leads { LeadsTo C.takes C.taken P.means (stage self.old performer.old bytes.now)
            (stage self.new performer.new result.now) }
        ensures onward { length result.now ≤ length bytes.now - 1 }
    {
        self.take_in_header(performer, bytes)
    }

    /// A private marker, where the header begins with it; or another byte.
    #[inline(always)]
    fn take_marker<'a, P: Perform>(
        &mut self,
        performer: &mut P,
        first: u8,
        behind: &'a [u8],
    ) -> &'a [u8]
        requires header { IsAtFields self.old }
        requires can { CanTakeAll C.takes self.old (first ∷ behind.now) }
        ensures { Takes C.takes C.taken P.means (stage self.old performer.old (first ∷ behind.now))
            (stage self.new performer.new result.now) }
    {
        match self.state {
            State::CsiEntry if is_marker(first) => {
                self.step_by_answer(performer, State::CsiParam, Action::Collect, first);
            }
            _ => self.step_in_header(performer, first),
        }
        behind
    }

    /// The bytes of fields. Often there are none.
    #[inline(always)]
    pub(super) fn take_fields<'a>(&mut self, bytes: &'a [u8]) -> &'a [u8]
        requires header { IsAtFields self.old }
        requires can { CanTakeAll C.takes self.old bytes.now }
        ensures leads { LeadsQuietlyTo C.takes C.taken is_parameter self.old bytes.now self.new result.now }
        ensures header { IsAtFields self.new }
        ensures within { length result.now ≤ length bytes.now }
    {
        let Some((first, _)) = bytes.split_first() else {
            return bytes;
        };
        if !is_parameter(*first) {
            return bytes;
        }
        let rest = self.header.fields(bytes);
        if rest.len() < bytes.len() {
            self.state = State::CsiParam;
        }
        rest
    }
}

/// An operating system command.
impl<C: CharAccumulator> Parser<C> {
    ghost use Rattle.anstyle_parse.specs.Views.Parser.{CanTakeAll};

    /// The text of a command, and the control after it, as far as they stand here. It is out of line, so that the loop
    /// stays small.
    #[inline(never)]
    fn take_command<'a, P: Perform>(&mut self, performer: &mut P, bytes: &'a [u8]) -> &'a [u8]
        requires command { self.old.state ≡ State.OscString }
        requires can { CanTakeAll C.takes self.old bytes.now }
        ensures leads { LeadsTo C.takes C.taken P.means (stage self.old performer.old bytes.now)
            (stage self.new performer.new result.now) }
        ensures onward { length result.now ≤ length bytes.now - 1 }
    {
        let rest = self.store_text(bytes);
        let Some((control, behind)) = rest.split_first() else {
            return rest;
        };
        self.step_in_command(performer, *control);
        self.take_string_end(performer, behind)
    }

    /// What mostly follows the ESC that ends a string, a backslash, if it stands here.
    #[inline(always)]
    fn take_string_end<'a, P: Perform>(&mut self, performer: &mut P, bytes: &'a [u8]) -> &'a [u8]
        requires { CanTakeAll C.takes self.old bytes.now }
        ensures { LeadsTo C.takes C.taken P.means (stage self.old performer.old bytes.now)
            (stage self.new performer.new result.now) }
    {
        match (self.state, bytes.split_first()) {
            (State::Escape, Some((next, behind))) if *next == b'\\' => {
                self.step_by_answer(performer, State::Ground, Action::EscDispatch, *next);
                behind
            }
            _ => bytes,
        }
    }

    /// Text of the command, up to a control.
    #[inline(always)]
    pub(super) fn store_text<'a>(&mut self, bytes: &'a [u8]) -> &'a [u8]
        requires command { self.old.state ≡ State.OscString }
        requires can { CanTakeAll C.takes self.old bytes.now }
        ensures leads { LeadsQuietlyTo C.takes C.taken is_of_command self.old bytes.now self.new result.now }
        ensures command { self.new.state ≡ State.OscString }
        ensures within { length result.now ≤ length bytes.now }
    {
        let mut rest = bytes;
        'text: while let Some((first, behind)) = rest.split_first() {
            if *first < SPACE {
                break;
            }
            rest = self.store_byte(*first, behind);
        }
        rest
    }

    /// A byte of it, and the plain text after that.
    #[inline(always)]
    fn store_byte<'a>(&mut self, first: u8, behind: &'a [u8]) -> &'a [u8]
        requires command { self.old.state ≡ State.OscString }
        requires text { 0x20 ≤ first }
        requires can { CanTakeAll C.takes self.old (first ∷ behind.now) }
        ensures leads { LeadsQuietlyTo C.takes C.taken is_of_command
            self.old (first ∷ behind.now) self.new result.now }
        ensures command { self.new.state ≡ State.OscString }
        ensures within { length result.now ≤ length behind.now }
    {
        self.command.put(first);
        match behind.split_first() {
            Some((next, _)) if is_plain_byte(*next) => self.store_plain(behind),
            _ => behind,
        }
    }

    /// Plain text, as much as there is room for.
    #[inline(always)]
    fn store_plain<'a>(&mut self, bytes: &'a [u8]) -> &'a [u8]
        requires command { self.old.state ≡ State.OscString }
        requires can { CanTakeAll C.takes self.old bytes.now }
        ensures leads { LeadsQuietlyTo C.takes C.taken is_of_command self.old bytes.now self.new result.now }
        ensures command { self.new.state ≡ State.OscString }
        ensures within { length result.now ≤ length bytes.now }
    {
        self.command.put_plain(bytes)
    }
}

/// A hooked device control string.
impl<C: CharAccumulator> Parser<C> {
    ghost use Rattle.anstyle_parse.specs.Views.Parser.{CanTakeAll};

    /// Directly after ESC P: what hooks the string; another byte by the table.
    #[inline(always)]
    fn take_device_final<'a, P: Perform>(
        &mut self,
        performer: &mut P,
        first: u8,
        behind: &'a [u8],
    ) -> &'a [u8]
        requires entry { self.old.state ≡ State.DcsEntry }
        requires can { CanTakeAll C.takes self.old (first ∷ behind.now) }
        ensures { Takes C.takes C.taken P.means (stage self.old performer.old (first ∷ behind.now))
            (stage self.new performer.new result.now) }
    {
        if is_final_byte(first) {
            self.step_by_answer(performer, State::DcsPassthrough, Action::Nop, first);
            return behind;
        }
        self.take_by_table(performer, first, behind)
    }

    /// Bytes that are put, and the byte after them, as far as they stand here.
    #[inline(always)]
    fn take_in_hooked_string<'a, P: Perform>(
        &mut self,
        performer: &mut P,
        bytes: &'a [u8],
    ) -> &'a [u8]
        requires hooked { self.old.state ≡ State.DcsPassthrough }
        requires can { CanTakeAll C.takes self.old bytes.now }
        ensures leads { LeadsTo C.takes C.taken P.means (stage self.old performer.old bytes.now)
            (stage self.new performer.new result.now) }
        ensures onward { length result.now ≤ length bytes.now - 1 }
    {
        let rest = self.take_chunks(performer, Run::OfHookedString, bytes);
        let Some((next, behind)) = rest.split_first() else {
            return rest;
        };
        self.step_after_puts(performer, *next);
        self.take_string_end(performer, behind)
    }
}
