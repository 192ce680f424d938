//! One byte: where the table leads, and the actions on the way.
ghost use Rattle.std.specs.Prelude.{true, false, ◌≡◌, ◌≢◌, ◌≤◌, ◌<◌, ◌∷◌, [], length};
ghost use Rattle.anstyle_parse.specs.Stream.Arguments.{max_osc_parts};
ghost use Rattle.anstyle_parse.specs.Stream.Bytes.{is_cancel};
ghost use Rattle.anstyle_parse.specs.Stream.Call.{Goes, osc_dispatch};
ghost use Rattle.anstyle_parse.specs.Stream.Groups.{total, cut};
ghost use Rattle.anstyle_parse.specs.Machine.Step.{exit_action as exit_of, entry_action as entry_of};

use super::Parser;
use super::command::{MAX_OSC_PARTS, set_parts};
use crate::accumulator::CharAccumulator;
use crate::controls::{BELL, CANCEL, ESCAPE, SUBSTITUTE};
use crate::perform::Perform;
use crate::state::{Action, State, state_change};
use crate::utf8::Taken;

/// One byte, inside a character or outside.
impl<C: CharAccumulator> Parser<C> {
    ghost use Rattle.std.specs.Prelude.{IsTrue, ◌↔◌};
    ghost use Rattle.anstyle_parse.specs.Stream.Call.{print};
    ghost use Rattle.anstyle_parse.specs.Views.Parser.{machine_of, CanTake, IsAtFields, ReachesAccumulator};
    ghost use Rattle.anstyle_parse.specs.Machine.Table.{◌by◌, change_at};
    ghost use Rattle.anstyle_parse.specs.Views.Steps.{Steps};
    ghost use Rattle.anstyle_parse.specs.Machine.Step.{after_continuation, print_answer, IsBroken, step_from, step_calls_from};

    /// One byte, as the machine takes it.
    #[inline(always)]
    pub(super) fn step<P: Perform>(&mut self, performer: &mut P, byte: u8)
        requires { CanTake C.takes C.taken self.old byte }
        ensures { Steps C.taken P.means byte self.old performer.old self.new performer.new }
    {
        let state = match self.state {
            State::Utf8 => {
                if !self.continue_character(performer, byte) {
                    return;
                }
                State::Ground
            }
            state => state,
        };
        self.step_by_table(performer, state, byte);
    }

    /// A byte inside a character: a character that the accumulator answers is printed, and leads
    /// back to the ground state. Answers whether the byte broke it, and has to be handled there.
    fn continue_character<P: Perform>(&mut self, performer: &mut P, byte: u8) -> bool
        requires inside { self.old.state ≡ State.Utf8 }
        requires takes { C.takes self.old.accumulator byte }
        ensures machine { machine_of self.new ≡ after_continuation C.taken byte (machine_of self.old) }
        ensures calls { Goes P.means performer.old
            (print_answer (C.taken self.old.accumulator byte).1) performer.new }
        ensures breaks { IsTrue result ↔ IsBroken (C.taken self.old.accumulator byte).1 }
    {
        match self.accumulator.take(byte) {
            Taken::More => false,
            Taken::Char(c) => {
                self.end_character(performer, c);
                false
            }
            Taken::Broken(c) => {
                self.end_character(performer, c);
                true
            }
        }
    }

    /// A character is printed, and leads back to the ground state.
    #[inline(always)]
    fn end_character<P: Perform>(&mut self, performer: &mut P, c: char)
        ensures machine { machine_of self.new ≡ record (machine_of self.old) { state = State.Ground } }
        ensures calls { Goes P.means performer.old (print c ∷ []) performer.new }
    {
        performer.print(c);
        self.state = State::Ground;
    }

    /// A byte outside a character, as the table has it.
    #[inline(always)]
    fn step_by_table<P: Perform>(&mut self, performer: &mut P, state: State, byte: u8)
        requires is { self.old.state ≡ state }
        requires outside { state ≢ State.Utf8 }
        requires takes { ReachesAccumulator state byte → C.takes self.old.accumulator byte }
        ensures machine { machine_of self.new ≡ step_from C.taken state byte (machine_of self.old) }
        ensures calls { Goes P.means performer.old
            (step_calls_from C.taken state byte (machine_of self.old)) performer.new }
    {
        let (next, action) = state_change(state, byte);
        // Mostly the state is kept: only where it is left is it asked what is done on the way out.
        if next == State::Anywhere {
            self.perform_action(performer, action, byte);
            return;
        }
        let exit = exit_action(state);
        self.change_state(performer, exit, next, action, byte);
    }

    /// A byte outside a character, of which the table's answer is known, in a state that is left
    /// with no action.
    #[inline(always)]
    pub(super) fn step_by_answer<P: Perform>(
        &mut self,
        performer: &mut P,
        state: State,
        action: Action,
        byte: u8,
    )
        requires exit { exit_of self.old.state ≡ Action.Nop }
        requires known { change_at self.old.state byte ≡ (state by action) }
        requires outside { self.old.state ≢ State.Utf8 }
        requires begins_none { action ≢ Action.BeginUtf8 }
        ensures { Steps C.taken P.means byte self.old performer.old self.new performer.new }
    {
        self.change_state(performer, Action::Nop, state, action, byte);
    }

    /// A control that is executed in the header of a control sequence, where CAN and SUB break off the sequence.
    #[inline(always)]
    pub(super) fn execute_in_header<P: Perform>(&mut self, performer: &mut P, control: u8)
        requires header { IsAtFields self.old }
        requires control { control < 0x1B }
        ensures { Steps C.taken P.means control self.old performer.old self.new performer.new }
    {
        let state = state_after(control);
        self.step_by_answer(performer, state, Action::Execute, control);
    }

    /// A byte that ends an operating system command, of which it is known where it leads.
    #[inline(always)]
    pub(super) fn end_command<P: Perform>(&mut self, performer: &mut P, state: State, byte: u8)
        requires command { self.old.state ≡ State.OscString }
        requires known { change_at self.old.state byte ≡ (state by Action.Nop) }
        ensures { Steps C.taken P.means byte self.old performer.old self.new performer.new }
    {
        self.change_state(performer, Action::OscEnd, state, Action::Nop, byte);
    }

    /// The ESC that ends a hooked string.
    #[inline(always)]
    pub(super) fn end_hooked_string<P: Perform>(&mut self, performer: &mut P, byte: u8)
        requires hooked { self.old.state ≡ State.DcsPassthrough }
        requires escape { byte ≡ 0x1B }
        ensures { Steps C.taken P.means byte self.old performer.old self.new performer.new }
    {
        self.change_state(performer, Action::Unhook, State::Escape, Action::Nop, byte);
    }
}

/// One byte in a state that is known: what mostly comes there goes by no table.
impl<C: CharAccumulator> Parser<C> {
    ghost use Rattle.anstyle_parse.specs.Views.Parser.{CanTake, IsAtFields};
    ghost use Rattle.anstyle_parse.specs.Views.Steps.{Steps};

    /// Any byte. It is out of line: there it stands once.
    #[inline(never)]
    pub(super) fn step_out_of_line<P: Perform>(&mut self, performer: &mut P, byte: u8)
        requires { CanTake C.takes C.taken self.old byte }
        ensures { Steps C.taken P.means byte self.old performer.old self.new performer.new }
    {
        self.step(performer, byte);
    }

    /// In a header: a control that is executed, or another byte. It is out of line, so that loops stay small.
    #[inline(never)]
    pub(super) fn step_in_header<P: Perform>(&mut self, performer: &mut P, byte: u8)
        requires { IsAtFields self.old }
        ensures { Steps C.taken P.means byte self.old performer.old self.new performer.new }
    {
        if byte < ESCAPE {
            self.execute_in_header(performer, byte);
        } else {
            self.step_out_of_line(performer, byte);
        }
    }

    /// Directly after ESC: what ends a string or begins one, or another byte. It is out of line, so that loops stay
    /// small.
    #[inline(never)]
    pub(super) fn step_after_escape<P: Perform>(&mut self, performer: &mut P, byte: u8)
        requires { self.old.state ≡ State.Escape }
        ensures { Steps C.taken P.means byte self.old performer.old self.new performer.new }
    {
        match byte {
            b'\\' => self.step_by_answer(performer, State::Ground, Action::EscDispatch, byte),
            b']' => self.step_by_answer(performer, State::OscString, Action::Nop, byte),
            b'P' => self.step_by_answer(performer, State::DcsEntry, Action::Nop, byte),
            _ => self.step_out_of_line(performer, byte),
        }
    }

    /// A control of a command: one of its ends, or another.
    #[inline(always)]
    pub(super) fn step_in_command<P: Perform>(&mut self, performer: &mut P, control: u8)
        requires { self.old.state ≡ State.OscString }
        ensures { Steps C.taken P.means control self.old performer.old self.new performer.new }
    {
        match control {
            ESCAPE => self.end_command(performer, State::Escape, control),
            BELL => self.end_command(performer, State::Ground, control),
            _ => self.step_out_of_line(performer, control),
        }
    }

    /// A byte of a hooked string that is not put: the ESC that ends it, or another.
    #[inline(always)]
    pub(super) fn step_after_puts<P: Perform>(&mut self, performer: &mut P, byte: u8)
        requires { self.old.state ≡ State.DcsPassthrough }
        ensures { Steps C.taken P.means byte self.old performer.old self.new performer.new }
    {
        if byte == ESCAPE {
            self.end_hooked_string(performer, byte);
        } else {
            self.step_out_of_line(performer, byte);
        }
    }
}

/// Where a control leads that is executed in a header, in the words of the table: Anywhere keeps the state.
#[inline(always)]
fn state_after(control: u8) -> State
    ensures cancels { is_cancel control ≡ true → result ≡ State.Ground }
    ensures stays { is_cancel control ≡ false → result ≡ State.Anywhere }
{
    if breaks_off(control) {
        State::Ground
    } else {
        State::Anywhere
    }
}

/// CAN and SUB, which break off a sequence.
#[inline(always)]
#[tactic(auto, unfolding(crate::specs::Stream::Bytes::is_cancel))]
fn breaks_off(byte: u8) -> bool
    ensures { result ≡ is_cancel byte }
{
    byte == CANCEL || byte == SUBSTITUTE
}

/// A change of state, and its actions.
impl<C: CharAccumulator> Parser<C> {
    ghost use Rattle.anstyle_parse.specs.Views.Parser.{machine_of};
    ghost use Rattle.anstyle_parse.specs.Views.Steps.{Acts};
    ghost use Rattle.anstyle_parse.specs.Machine.Step.{after_change, change_calls};

    /// A change of state: `exit`, the exit action of the old state, the action, the entry action
    /// of the new one. Anywhere keeps the state, with no exit and no entry.
    #[inline(always)]
    fn change_state<P: Perform>(
        &mut self,
        performer: &mut P,
        exit: Action,
        state: State,
        action: Action,
        byte: u8,
    )
        requires exit { exit_of self.old.state ≡ exit }
        requires takes { action ≡ Action.BeginUtf8 → C.takes self.old.accumulator byte }
        ensures machine { machine_of self.new ≡ after_change C.taken state action byte (machine_of self.old) }
        ensures calls { Goes P.means performer.old
            (change_calls C.taken state action byte (machine_of self.old)) performer.new }
    {
        match state {
            State::Anywhere => self.perform_action(performer, action, byte),
            state => {
                self.perform_action(performer, exit, byte);
                self.perform_action(performer, action, byte);
                self.perform_action(performer, entry_action(state), byte);
                self.state = state;
            }
        }
    }

    /// An action, and the calls that it makes.
    #[inline(always)]
    fn perform_action<P: Perform>(&mut self, performer: &mut P, action: Action, byte: u8)
        requires { action ≡ Action.BeginUtf8 → C.takes self.old.accumulator byte }
        ensures { Acts C.taken P.means action byte self.old performer.old self.new performer.new }
    {
        match action {
            Action::Print => performer.print(char::from(byte)),
            Action::Execute => performer.execute(byte),
            Action::Hook => self.hook(performer, byte),
            Action::Put => performer.put(byte),
            Action::Unhook => performer.unhook(),
            Action::OscStart => self.command.start(),
            Action::OscPut => self.command.put(byte),
            Action::OscEnd => self.osc_end(performer, byte),
            Action::CsiDispatch => self.csi_dispatch(performer, byte),
            Action::EscDispatch => {
                performer.esc_dispatch(self.header.collected(), self.header.is_ignoring(), byte)
            }
            Action::Collect => self.header.collect(byte),
            Action::Param => self.header.param(byte),
            Action::Clear => self.header.clear(),
            Action::BeginUtf8 => self.accumulate(performer, byte),
            Action::Ignore | Action::Nop => {}
        }
    }

    /// The header of a device control string is closed, and dispatched.
    #[inline(always)]
    fn hook<P: Perform>(&mut self, performer: &mut P, byte: u8)
        ensures { Acts C.taken P.means Action.Hook byte self.old performer.old self.new performer.new }
    {
        self.header.end_fields();
        let header = &self.header;
        performer.hook(
            header.params(),
            header.collected(),
            header.is_ignoring(),
            byte,
        );
    }

    /// The header of a control sequence is closed, and dispatched.
    #[inline(always)]
    fn csi_dispatch<P: Perform>(&mut self, performer: &mut P, byte: u8)
        ensures { Acts C.taken P.means Action.CsiDispatch byte self.old performer.old self.new performer.new }
    {
        self.header.end_fields();
        let header = &self.header;
        let ignore = header.is_ignoring();
        performer.csi_dispatch(header.params(), header.collected(), ignore, byte);
    }

    /// The command's last part is closed, and all of them are dispatched.
    fn osc_end<P: Perform>(&mut self, performer: &mut P, byte: u8)
        ensures { Acts C.taken P.means Action.OscEnd byte self.old performer.old self.new performer.new }
    {
        self.command.close_part();
        let (text, lengths) = self.command.text();
        dispatch(performer, text, lengths, byte == BELL);
    }

    /// The first byte of a character.
    #[inline]
    fn accumulate<P: Perform>(&mut self, performer: &mut P, byte: u8)
        requires { C.takes self.old.accumulator byte }
        ensures { Acts C.taken P.means Action.BeginUtf8 byte self.old performer.old self.new performer.new }
    {
        match self.accumulator.take(byte) {
            Taken::More => {}
            Taken::Char(c) | Taken::Broken(c) => performer.print(c),
        }
    }
}

/// Dispatches the parts of a command, from an array that has room for as many as there may be.
#[inline(always)]
fn dispatch<P: Perform>(performer: &mut P, text: &[u8], lengths: &[usize], bell_terminated: bool)
    requires few { length lengths.now ≤ max_osc_parts }
    requires within { total lengths.now ≤ length text.now }
    ensures { Goes P.means performer.old (osc_dispatch (cut lengths.now text.now) bell_terminated ∷ []) performer.new }
{
    let mut parts: [&[u8]; MAX_OSC_PARTS] = [&[]; MAX_OSC_PARTS];
    set_parts(&mut parts, text, lengths);
    performer.osc_dispatch(&parts[..lengths.len()], bell_terminated);
}

/// What is done on the way out of a state.
fn exit_action(state: State) -> Action
    ensures { result ≡ exit_of state }
{
    match state {
        State::DcsPassthrough => Action::Unhook,
        State::OscString => Action::OscEnd,
        _ => Action::Nop,
    }
}

/// What is done on the way into a state.
fn entry_action(state: State) -> Action
    ensures { result ≡ entry_of state }
{
    match state {
        State::Escape | State::CsiEntry | State::DcsEntry => Action::Clear,
        State::DcsPassthrough => Action::Hook,
        State::OscString => Action::OscStart,
        _ => Action::Nop,
    }
}
