//! The parser: a state, what a sequence has said so far, and an accumulator of characters.
//!
//! Calls go downwards: the public ones here, in `texts`, `passing` and `log`, many bytes in `runs`, one byte in
//! `step`, what a sequence has said in `header` and `command`.
mod command;
mod header;
mod log;
mod passing;
mod runs;
mod step;
mod texts;

ghost use Rattle.std.specs.Prelude.{◌≡◌, ◌≤◌, ◌<◌, ℕ, List, false, length};
ghost use Rattle.anstyle_parse.specs.Stream.Call.{Goes};

use crate::accumulator::{CharAccumulator, DefaultCharAccumulator, Utf8Parser};
use crate::params::Params;
use crate::perform::Perform;
use crate::state::State;
use command::Command;
use header::Header;
use std::alloc::AllocError;

/// Cuts a stream of bytes into calls of a [`Perform`].
#[derive(Debug, PartialEq, Eq, Drop)]
pub struct Parser<C = DefaultCharAccumulator> {
    state: State,
    /// What the header of a sequence has said.
    header: Header,
    /// The text of an operating system command.
    command: Command,
    accumulator: C,
}

impl<C: CharAccumulator> Default for Parser<C> {
    ghost use Rattle.anstyle_parse.specs.Views.Parser.{IsNew};

    ghost is_default = { IsNew C.Default.is_default };

    /// A new parser: in the ground state, outside a character, its accumulator at its default.
    fn default() -> Parser<C> {
        Parser {
            state: State::default(),
            header: Header::new(),
            command: Command::new(),
            accumulator: C::default(),
        }
    }
}

impl<C: Clone> Clone for Parser<C> {
    ghost use Rattle.anstyle_parse.specs.Views.Parser.{accumulator_of, given};

    // A clone is the parser with a clone of its accumulator: what is left over is the same too.
    ghost is_clone = { λ parser clone. C.is_clone (accumulator_of parser) (accumulator_of clone)
        × (clone ≡ given parser (accumulator_of clone)) };

    ghost is_infallible = { λ parser. C.is_infallible (accumulator_of parser) };

    /// A parser that stands where this one stands. It fails only where the clone of the
    /// accumulator does.
    fn clone(&self) -> Result<Parser<C>, AllocError> {
        Ok(Parser {
            state: self.state,
            header: self.header.clone()?,
            command: self.command.clone()?,
            accumulator: self.accumulator.clone()?,
        })
    }
}

impl<C: CharAccumulator> Parser<C> {
    ghost use Rattle.std.specs.Prelude.{◌++◌, ◌∷◌, [], IsTrue, ◌↔◌, ◌⊎◌};
    ghost use Rattle.anstyle_parse.specs.Stream.Bytes.{is_cancel, escape_byte};
    ghost use Rattle.std.specs.Bool.{OnFalse};
    ghost use Rattle.anstyle_parse.specs.Views.Parser.{machine_of, calls_made, IsNew, IsInCharacter, IsInString, IsOutOfSequences, HasOpenString, BreaksCharacter, CanTake, CanTakeAll, IsAfter, IsAfterAscii, AreBelow};
    ghost use Rattle.anstyle_parse.specs.Machine.Step.{step, step_calls, machine_after, IsWithinLimits};
    ghost use Rattle.anstyle_parse.specs.Stream.Calls.{Continues, AreCalls, HasReceived};
    ghost use Rattle.anstyle_parse.specs.Stream.Call.{Call};
    ghost use Rattle.anstyle_parse.specs.Stream.Canon.{canon};
    ghost use Rattle.anstyle_parse.specs.Laws.Lawful.{AreLawful};
    ghost use Rattle.anstyle_parse.specs.Machine.Stands.{EndsInCharacter};
    ghost use Rattle.anstyle_parse.specs.Views.Accumulator.{IsEmpty, front_of};

    /// A new parser of UTF-8, whatever `C` is.
    pub fn new() -> Parser<Utf8Parser>
        ensures fresh { IsNew IsEmpty result }
        ensures stands { IsAfter front_of result [] }
    {
        Parser::default()
    }

    /// Takes one byte, and makes its calls.
    ///
    /// With `Utf8Parser` there is no condition. With an accumulator that does not decode UTF-8
    /// it is that the accumulator takes the byte if it reaches it: inside a character, or in
    /// the ground state where the byte is C2..F4. Where the accumulator answers `Broken` inside
    /// a character and the byte is C2..F4, it reaches it once more, as it stands then.
    ///
    /// At most two calls are made, and two only where 18 or 1A ends an operating system command
    /// or a hooked device control string, or where the byte breaks a character that was begun:
    /// that is printed, and then the byte is handled in the ground state.
    #[inline]
    pub fn advance<P: Perform>(&mut self, performer: &mut P, byte: u8)
        requires { OnFalse C.decodes (CanTake C.takes C.taken self.old byte) }

        // The headline: the parser stands after all bytes, and a performer that has received
        // exactly the calls of the bytes before has received exactly those of all.
        ensures stands { (before : List ℕ) → IsTrue C.decodes → IsAfter C.front self.old before
            → IsAfter C.front self.new (before ++ byte ∷ []) }
        ensures received { (first : P) (before : List ℕ) → IsTrue C.decodes
            → IsAfter C.front self.old before
            → HasReceived P.means first before performer.old
            → HasReceived P.means first (before ++ byte ∷ []) performer.new }

        // One byte does what the machine does with it.
        ensures machine { machine_of self.new ≡ step C.taken byte (machine_of self.old) }
        ensures calls { Goes P.means performer.old (step_calls C.taken byte (machine_of self.old)) performer.new }
        ensures limits { IsWithinLimits (machine_of self.new) }

        // Two calls are made only where a cancel ends a command or a hooked string, or where
        // the byte breaks a character that was begun.
        ensures few { length (step_calls C.taken byte (machine_of self.old)) ≤ 2 }
        ensures two { length (step_calls C.taken byte (machine_of self.old)) ≡ 2
            → (IsTrue (is_cancel byte) × HasOpenString self.old)
            ⊎ BreaksCharacter C.taken self.old byte }

        // These calls continue those of the bytes before; over ASCII this is so for any
        // accumulator.
        ensures stream { (before : List ℕ) → IsTrue C.decodes → IsAfter C.front self.old before
            → Continues before (byte ∷ []) (step_calls C.taken byte (machine_of self.old)) }
        ensures ascii_stands { (before : List ℕ) → byte < 0x80 → IsAfterAscii self.old before
            → IsAfterAscii self.new (before ++ byte ∷ []) }
        ensures ascii_stream { (before : List ℕ) → byte < 0x80 → IsAfterAscii self.old before
            → Continues before (byte ∷ []) (step_calls C.taken byte (machine_of self.old)) }
    {
        self.step(performer, byte);
    }

    /// Takes bytes, one after another, as `advance` does.
    ///
    /// A stream may come in any pieces, by any mixture of both calls: after each call the
    /// performer has received exactly the calls of the bytes so far, none early and none late.
    ///
    /// With `Utf8Parser` there is no condition. With an accumulator that does not decode UTF-8
    /// it is that the accumulator takes every byte whatever it holds, or that the parser is
    /// outside a character and every byte is below 80.
    #[inline]
    pub fn advance_all<P: Perform>(&mut self, performer: &mut P, bytes: &[u8])
        requires { OnFalse C.decodes (CanTakeAll C.takes self.old bytes.now) }

        // The headline: the parser stands after all bytes, and a performer that has received
        // exactly the calls of the bytes before has received exactly those of all.
        ensures stands { (before : List ℕ) → IsTrue C.decodes → IsAfter C.front self.old before
            → IsAfter C.front self.new (before ++ bytes.now) }
        ensures received { (first : P) (before : List ℕ) → IsTrue C.decodes
            → IsAfter C.front self.old before
            → HasReceived P.means first before performer.old
            → HasReceived P.means first (before ++ bytes.now) performer.new }

        // All calls so far are a lawful list: so hooks exceed unhooks by at most one, and
        // between the two only put is called.
        ensures lawful { (before : List ℕ) (first : List Call) → IsTrue C.decodes
            → IsAfter C.front self.old before
            → AreCalls before first
            → AreLawful (first ++ calls_made C.taken self.old bytes.now) }

        // After one ESC byte the calls are those of ESC and these bytes; after 18 or 1A, those of
        // these bytes. Nothing before counts.
        ensures forgotten { (before : List ℕ) → IsTrue C.decodes
            → IsAfter C.front self.old (before ++ escape_byte ∷ [])
            → AreCalls (escape_byte ∷ bytes.now) (calls_made C.taken self.old bytes.now) }
        ensures cancelled { (before : List ℕ) (cancel : ℕ) → IsTrue C.decodes
            → IsTrue (is_cancel cancel)
            → IsAfter C.front self.old (before ++ cancel ∷ [])
            → AreCalls bytes.now (calls_made C.taken self.old bytes.now) }

        // A new parser makes of the canonical text of lawful calls exactly these calls.
        ensures replay { (calls : List Call) → IsTrue C.decodes → IsAfter C.front self.old []
            → AreLawful calls
            → bytes.now ≡ canon calls → Goes P.means performer.old calls performer.new }

        // The calls made here continue those of the bytes before.
        ensures stream { (before : List ℕ) → IsTrue C.decodes → IsAfter C.front self.old before
            → Continues before bytes.now (calls_made C.taken self.old bytes.now) }

        // Over ASCII the like holds for any accumulator.
        ensures ascii_stands { (before : List ℕ) → AreBelow 0x80 bytes.now
            → IsAfterAscii self.old before
            → IsAfterAscii self.new (before ++ bytes.now) }
        ensures ascii_stream { (before : List ℕ) → AreBelow 0x80 bytes.now
            → IsAfterAscii self.old before
            → Continues before bytes.now (calls_made C.taken self.old bytes.now) }
        ensures ascii_escape { (before : List ℕ) → AreBelow 0x80 bytes.now
            → IsAfterAscii self.old (before ++ escape_byte ∷ [])
            → AreCalls (escape_byte ∷ bytes.now) (calls_made C.taken self.old bytes.now) }
        ensures ascii_cancel { (before : List ℕ) (cancel : ℕ) → AreBelow 0x80 bytes.now
            → IsTrue (is_cancel cancel)
            → IsAfterAscii self.old (before ++ cancel ∷ [])
            → AreCalls bytes.now (calls_made C.taken self.old bytes.now) }

        // Whatever the bytes and the accumulator, the bytes do what the machine does with each in
        // turn, and what is kept stays within the limits.
        ensures machine { machine_of self.new ≡ machine_after C.taken bytes.now (machine_of self.old) }
        ensures calls { Goes P.means performer.old (calls_made C.taken self.old bytes.now) performer.new }
        ensures limits { IsWithinLimits (machine_of self.new) }
    {
        self.take_bytes(performer, bytes);
    }

    /// Whether a character has begun that is not whole yet.
    pub fn is_in_char(&self) -> bool
        ensures state { IsTrue result ↔ IsInCharacter self.now }
        ensures stream { (before : List ℕ) → IsTrue C.decodes → IsAfter C.front self.now before
            → (IsTrue result ↔ EndsInCharacter before) }
        ensures ascii { (before : List ℕ) → IsAfterAscii self.now before → result ≡ false }
    {
        matches!(self.state, State::Utf8)
    }

    /// Whether a string has begun that is not ended: an operating system command, a device control string after its
    /// header, or SOS, PM or APC. What comes is its text, up to its end.
    pub fn is_in_string(&self) -> bool
        ensures { IsTrue result ↔ IsInString self.now }
    {
        matches!(
            self.state,
            State::OscString | State::DcsPassthrough | State::DcsIgnore | State::SosPmApcString
        )
    }

    /// Whether a sequence has begun, or a string, that is not ended.
    pub fn is_in_sequence(&self) -> bool
        ensures { result ≡ false ↔ IsOutOfSequences self.now }
    {
        !matches!(self.state, State::Ground | State::Utf8)
    }
}

/// What the parser keeps, for a checkpoint.
impl<C: CharAccumulator> Parser<C> {
    ghost use Rattle.std.specs.Prelude.{drop};
    ghost use Rattle.anstyle_parse.specs.Stream.Groups.{total, cut};
    ghost use Rattle.anstyle_parse.specs.Views.Params.{closed_groups_of, open_group_of};
    ghost use Rattle.anstyle_parse.specs.Views.Parser.{machine_of};

    pub(crate) fn state(&self) -> State
        ensures { result ≡ (machine_of self.now).state }
    {
        self.state
    }

    /// The markers and intermediates that are kept.
    pub(crate) fn collected(&self) -> &[u8]
        ensures { result.now ≡ (machine_of self.now).collected }
    {
        self.header.collected()
    }

    /// Whether more fields or intermediates came than are kept.
    pub(crate) fn is_ignoring(&self) -> bool
        ensures { result ≡ (machine_of self.now).ignoring }
    {
        self.header.is_ignoring()
    }

    /// The fields, of which the last group may be open.
    pub(crate) fn params(&self) -> &Params
        ensures closed { closed_groups_of result.now ≡ (machine_of self.now).closed_groups }
        ensures open { open_group_of result.now ≡ (machine_of self.now).open_group }
    {
        self.header.params()
    }

    /// The field so far.
    pub(crate) fn number(&self) -> u16
        ensures { result ≡ (machine_of self.now).number }
    {
        self.header.number()
    }

    /// The text of an operating system command, and how long each closed part of it is.
    pub(crate) fn command(&self) -> (&[u8], &[usize])
        ensures within { total result.1.now ≤ length result.0.now }
        ensures closed { cut result.1.now result.0.now ≡ (machine_of self.now).closed_parts }
        ensures rest { drop (total result.1.now) result.0.now ≡ (machine_of self.now).open_part }
    {
        self.command.text()
    }

    pub(crate) fn accumulator(&self) -> &C
        ensures { result.now ≡ (machine_of self.now).accumulator }
    {
        &self.accumulator
    }
}
