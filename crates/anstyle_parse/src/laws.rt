//! Laws of streams, calls and canonical texts.
//!
//! They hold of all bytes and all calls. The first is what the crate promises; of the others
//! nearly each speaks of definitions alone, and is the contract of a function that does nothing.
ghost use Rattle.std.specs.Prelude.{◌≡◌, ◌≢◌, ◌≤◌, ◌+◌, ◌*◌, ◌↔◌, ℕ, List, [], ◌∷◌, ◌++◌, length, min, IsTrue};
ghost use Rattle.std.specs.Cmp.{IsEquivalence};
ghost use Rattle.std.specs.List.{AllByRecursion, flat_map, sum_by};
ghost use Rattle.std.specs.Str.{IsUtf8};
ghost use Rattle.anstyle_parse.specs.Views.Accumulator.{front_of, parser_after};
ghost use Rattle.anstyle_parse.specs.Stream.Bytes.{escape_byte, is_cancel};
ghost use Rattle.anstyle_parse.specs.Stream.Call.{Call, Goes};
ghost use Rattle.anstyle_parse.specs.Stream.Calls.{AreCalls, Continues, HasReceived};
ghost use Rattle.anstyle_parse.specs.Stream.Canon.{canon};
ghost use Rattle.anstyle_parse.specs.Views.CanonWriter.{output_of};
ghost use Rattle.anstyle_parse.specs.Stream.Characters.{is_proper_front, IsProperFront};
ghost use Rattle.anstyle_parse.specs.Stream.Items.{Item, IsDivision};
ghost use Rattle.anstyle_parse.specs.Laws.Lawful.{AreLawful, AreMade};
ghost use Rattle.anstyle_parse.specs.Laws.Lighter.{AreEnough};
ghost use Rattle.anstyle_parse.specs.Laws.LogItems.{IsLogDivision, read_items, read_items_whole};
ghost use Rattle.anstyle_parse.specs.Laws.TextLength.{text_length};
ghost use Rattle.anstyle_parse.specs.Io.Output.{Adds};
ghost use Rattle.anstyle_parse.specs.Machine.AsRead.{as_read, as_read_whole};
ghost use Rattle.anstyle_parse.specs.Machine.Step.{machine_calls};
ghost use Rattle.anstyle_parse.specs.Views.Parser.{machine_of, AreBelow, IsAfter, IsAfterAscii};
ghost use Rattle.anstyle_parse.specs.Machine.State.{state_number, action_number};

use crate::accumulator::{AsciiParser, CharAccumulator, Utf8Parser};
use crate::canon::CanonWriter;
use crate::io::{Fault, Sink, Stop};
use crate::parser::Parser;
use crate::perform::Perform;
use crate::state::{Action, State};
use crate::utf8::Taken;

/// The headline: for a new parser of UTF-8 and every list of bytes, in whatever pieces it is
/// handed on, the performer receives exactly the calls of the one division of the bytes into
/// items; the canonical text of these calls makes the same calls again; and after one ESC byte
/// the calls for what follows depend on nothing before it.
///
/// The body hands the pieces on by a mixture of both calls, [`Parser::advance`] and
/// [`Parser::advance_all`], whose clauses `received` and `stands` hold of any mixture.
pub fn headline<P: Perform>(performer: &mut P, pieces: &[&[u8]])
    // The performer has received exactly the calls of all the bytes.
    ensures received { HasReceived P.means performer.old (flat_map (λ piece. piece.now) pieces.now) performer.new }

    // Every list of bytes is divided into items in exactly one way.
    ensures one_division { (bytes : List ℕ) → (items : List Item) × IsDivision items bytes
        × ((others : List Item) → IsDivision others bytes → others ≡ items) }

    // The canonical text of these calls makes the same calls again.
    ensures again { (bytes : List ℕ) (calls : List Call) → AreCalls bytes calls
        → AreCalls (canon calls) calls }

    // After one ESC byte the calls are those of ESC and what follows.
    ensures forgotten { (before bytes : List ℕ) (first more : List Call)
        → AreCalls (before ++ escape_byte ∷ []) first
        → AreCalls (escape_byte ∷ bytes) more
        → AreCalls (before ++ escape_byte ∷ bytes) (first ++ more) }
{
    let mut parser = Parser::<Utf8Parser>::new();
    for piece in pieces {
        take_piece(&mut parser, performer, piece);
    }
}

/// A piece of one byte goes by `advance`, any other by `advance_all`.
fn take_piece<P: Perform>(parser: &mut Parser, performer: &mut P, piece: &[u8])
    ensures stands { (before : List ℕ) → IsAfter front_of parser.old before
        → IsAfter front_of parser.new (before ++ piece.now) }
    ensures received { (first : P) (before : List ℕ) → IsAfter front_of parser.old before
        → HasReceived P.means first before performer.old
        → HasReceived P.means first (before ++ piece.now) performer.new }
{
    match piece {
        [byte] => parser.advance(performer, *byte),
        _ => parser.advance_all(performer, piece),
    }
}

/// The front of a character: bytes pass the decoder's test over the table exactly if they are
/// begun and some bytes after them make them a well-formed sequence.
pub fn front_of_a_character()
    ensures { (bytes : List ℕ) → (IsTrue (is_proper_front bytes) ↔ IsProperFront bytes) }
{}

/// A performer that counts, up to a limit.
///
/// Where each call adds a number of its own to a count, a list of calls adds their sum; and where
/// each adds one, as many as they are.
pub fn counted<P: Perform>()
    ensures sum { (count : P → ℕ) (weight : Call → ℕ) (limit : ℕ)
        → ((old : P) (call : Call) (new : P) → P.means old call new
        → count new ≡ min limit (count old + weight call))
        → (first last : P) (calls : List Call) → count first ≤ limit → Goes P.means first calls last
        → count last ≡ min limit (count first + sum_by weight calls) }
    ensures number { (count : P → ℕ) (limit : ℕ)
        → ((old : P) (call : Call) (new : P) → P.means old call new
        → count new ≡ min limit (count old + 1))
        → (first last : P) (calls : List Call) → count first ≤ limit → Goes P.means first calls last
        → count last ≡ min limit (count first + length calls) }
{}

/// Bytes make one list of calls, and no other.
pub fn calls_of_bytes()
    ensures some { (bytes : List ℕ) → (calls : List Call) × AreCalls bytes calls }
    ensures only { (bytes : List ℕ) (calls others : List Call) → AreCalls bytes calls
        → AreCalls bytes others → others ≡ calls }
{}

/// Lawful exactly: the calls that bytes make are a lawful list, and every lawful list is made
/// by some bytes.
pub fn lawful_exactly()
    ensures { (calls : List Call) → (AreLawful calls ↔ AreMade calls) }
{}

/// The calls that any list of numbers makes, bytes or not, are lawful.
pub fn calls_are_lawful()
    ensures { (bytes : List ℕ) (calls : List Call) → AreCalls bytes calls → AreLawful calls }
{}

/// Replay: the canonical text of a lawful list of calls makes these calls, and no others.
pub fn replay()
    ensures makes { (calls : List Call) → AreLawful calls → AreCalls (canon calls) calls }
    ensures only { (calls others : List Call) → AreLawful calls → AreCalls (canon calls) others
        → others ≡ calls }
{}

/// Two inputs make equal calls exactly if their canonical texts are equal.
pub fn equal_texts()
    ensures { (bytes others : List ℕ) (calls other_calls : List Call) → AreCalls bytes calls
        → AreCalls others other_calls
        → ((calls ≡ other_calls) ↔ (canon calls ≡ canon other_calls)) }
{}

/// What was written canonically, read again, makes the same calls, and its canonical text is
/// itself.
pub fn canonical_again()
    ensures calls { (bytes : List ℕ) (calls others : List Call) → AreCalls bytes calls
        → AreCalls (canon calls) others → others ≡ calls }
    ensures text { (bytes : List ℕ) (calls others : List Call) → AreCalls bytes calls
        → AreCalls (canon calls) others → canon others ≡ canon calls }
{}

/// Bounds: bytes make at most as many calls as they are, and the canonical text of these is at
/// most three times as long.
///
/// A piece, whatever bytes came before it, leads to at most three bytes of text for each of its
/// own, and one more: where its first byte ends a character of four that was begun before.
pub fn bounds()
    ensures calls { (bytes : List ℕ) (calls : List Call) → AreCalls bytes calls
        → length calls ≤ length bytes }
    ensures text { (bytes : List ℕ) (calls : List Call) → AreCalls bytes calls
        → length (canon calls) ≤ 3 * length bytes }
    ensures piece { (before bytes : List ℕ) (calls : List Call) → Continues before bytes calls
        → sum_by text_length calls ≤ 3 * length bytes + 1 }
{}

/// By a list of calls a canonical writer adds their canonical text: all of it, or where the
/// writer fails a proper prefix.
pub fn canonical_text<W: Sink>()
    ensures { (calls : List Call) (old new : CanonWriter W)
        → Goes ⟦<CanonWriter<W> as Perform>⟧.means old calls new
        → Adds W.Sink (canon calls) (output_of old) (output_of new) }
{}

/// A log as it is read ([`Parser::advance_log`]), read again, is the same; and well-formed UTF-8 without ESC is read as
/// it is, also at its end. A log may be cut before any ESC byte, and its parts read apart.
pub fn read_logs()
    ensures again { (bytes : List ℕ) → as_read (as_read bytes) ≡ as_read bytes }
    ensures text { (bytes : List ℕ) → AreBelow 0x100 bytes → IsUtf8 bytes
        → AllByRecursion (λ b. b ≢ escape_byte) bytes → as_read bytes ≡ bytes }
    ensures text_end { (bytes : List ℕ) → AreBelow 0x100 bytes → IsUtf8 bytes
        → AllByRecursion (λ b. b ≢ escape_byte) bytes → as_read_whole bytes ≡ bytes }
    ensures parts { (before bytes : List ℕ)
        → as_read (before ++ escape_byte ∷ bytes) ≡ as_read before ++ as_read (escape_byte ∷ bytes) }
    ensures parts_end { (before bytes : List ℕ)
        → as_read_whole (before ++ escape_byte ∷ bytes) ≡ as_read before ++ as_read_whole (escape_byte ∷ bytes) }
{}

/// A log has one division into items, and no second one; and what is read of it is what is read of these, also at its end.
pub fn items_of_logs()
    ensures some { (log : List ℕ) → (items : List Item) × IsLogDivision items log }
    ensures only { (log : List ℕ) (items others : List Item) → IsLogDivision items log → IsLogDivision others log
        → others ≡ items }
    ensures read { (log : List ℕ) (items : List Item) → IsLogDivision items log → as_read log ≡ read_items items }
    ensures read_end { (log : List ℕ) (items : List Item) → IsLogDivision items log
        → as_read_whole log ≡ read_items_whole items }
{}

/// Bounds of logs: what is read of a log, also with its end, makes at most as many calls as the log has bytes, and leads
/// to at most three bytes of text for each. As many bytes as the log has are enough for its calls, but for U+FFFD.
pub fn log_bounds()
    ensures calls { (bytes : List ℕ) (calls : List Call) → AreCalls (as_read bytes) calls
        → length calls ≤ length bytes }
    ensures calls_end { (bytes : List ℕ) (calls : List Call) → AreCalls (as_read_whole bytes) calls
        → length calls ≤ length bytes }
    ensures text { (bytes : List ℕ) (calls : List Call) → AreCalls (as_read bytes) calls
        → sum_by text_length calls ≤ 3 * length bytes }
    ensures text_end { (bytes : List ℕ) (calls : List Call) → AreCalls (as_read_whole bytes) calls
        → sum_by text_length calls ≤ 3 * length bytes }
    ensures enough { (bytes : List ℕ) (calls : List Call) → AreCalls (as_read bytes) calls
        → AreEnough (length bytes) calls }
    ensures enough_end { (bytes : List ℕ) (calls : List Call) → AreCalls (as_read_whole bytes) calls
        → AreEnough (length bytes) calls }
{}

/// Forgotten: after one ESC byte nothing counts that came before.
///
/// A parser that stands after any bytes and ESC stands after ESC alone. So after any two
/// histories and one ESC byte the calls of all further bytes are the same, although what is
/// still stored may differ.
pub fn forgotten<C: CharAccumulator>()
    ensures stands { (parser : Parser C) (before : List ℕ)
        → IsAfter C.front parser (before ++ escape_byte ∷ [])
        → IsAfter C.front parser (escape_byte ∷ []) }
    ensures ascii { (parser : Parser C) (before : List ℕ)
        → IsAfterAscii parser (before ++ escape_byte ∷ [])
        → IsAfterAscii parser (escape_byte ∷ []) }
    ensures calls { (before bytes : List ℕ) (more : List Call)
        → (Continues (escape_byte ∷ []) bytes more ↔ Continues (before ++ escape_byte ∷ []) bytes more) }
{}

/// After 18 or 1A a parser stands as a new one, whatever came before.
pub fn cancelled<C: CharAccumulator>()
    ensures stands { (parser : Parser C) (before : List ℕ) (byte : ℕ) → IsTrue (is_cancel byte)
        → IsAfter C.front parser (before ++ byte ∷ []) → IsAfter C.front parser [] }
    ensures ascii { (parser : Parser C) (before : List ℕ) (byte : ℕ) → IsTrue (is_cancel byte)
        → IsAfterAscii parser (before ++ byte ∷ []) → IsAfterAscii parser [] }
    ensures calls { (before bytes : List ℕ) (byte : ℕ) (more : List Call) → IsTrue (is_cancel byte)
        → (Continues [] bytes more ↔ Continues (before ++ byte ∷ []) bytes more) }
{}

/// `==` of parsers is reflexive, symmetric and transitive. Equal parsers stand after the same
/// bytes, and make equal calls of all further bytes.
///
/// Parsers that make equal calls may differ: what is left over from an earlier sequence is
/// compared too.
pub fn equal_parsers()
    ensures equivalence { IsEquivalence ⟦<Parser as PartialEq>⟧.eq }
    ensures stands { (a b : Parser Utf8Parser) (before : List ℕ)
        → IsTrue (⟦<Parser as PartialEq>⟧.eq a b)
        → (IsAfter front_of a before ↔ IsAfter front_of b before) }
    ensures calls { (a b : Parser Utf8Parser) (bytes : List ℕ)
        → IsTrue (⟦<Parser as PartialEq>⟧.eq a b)
        → machine_calls parser_after bytes (machine_of a) ≡ machine_calls parser_after bytes (machine_of b) }
{}

/// `==` of accumulators is reflexive, symmetric and transitive. Two decoders of UTF-8 are equal
/// exactly if they hold equal fronts, and any two accumulators of ASCII are equal.
pub fn equal_accumulators()
    ensures equivalence { IsEquivalence ⟦<Utf8Parser as PartialEq>⟧.eq }
    ensures fronts { (a b : Utf8Parser)
        → (IsTrue (⟦<Utf8Parser as PartialEq>⟧.eq a b) ↔ (front_of a ≡ front_of b)) }
    ensures ascii { (a b : AsciiParser) → IsTrue (⟦<AsciiParser as PartialEq>⟧.eq a b) }
{}

/// A clone of a decoder of UTF-8 is that decoder, and a clone of a parser of UTF-8 that parser,
/// with what is left over from earlier sequences: so `==` of both is true. Neither fails.
pub fn clones()
    ensures decoders { (decoder clone : Utf8Parser)
        → ⟦<Utf8Parser as Clone>⟧.is_clone decoder clone → clone ≡ decoder }
    ensures parsers { (parser clone : Parser Utf8Parser)
        → ⟦<Parser as Clone>⟧.is_clone parser clone → clone ≡ parser }
    ensures equal { (parser clone : Parser Utf8Parser)
        → ⟦<Parser as Clone>⟧.is_clone parser clone
        → IsTrue (⟦<Parser as PartialEq>⟧.eq parser clone) }
    ensures decoders_always { (decoder : Utf8Parser)
        → ⟦<Utf8Parser as Clone>⟧.is_infallible decoder }
    ensures parsers_always { (parser : Parser Utf8Parser)
        → ⟦<Parser as Clone>⟧.is_infallible parser }
{}

/// `==` of states, of actions, of faults and of a run's ends holds exactly between equal
/// variants, and `==` of an accumulator's answers exactly between equal ones.
pub fn equal_variants()
    ensures states { (a b : State) → (IsTrue (⟦<State as PartialEq>⟧.eq a b) ↔ (a ≡ b)) }
    ensures actions { (a b : Action) → (IsTrue (⟦<Action as PartialEq>⟧.eq a b) ↔ (a ≡ b)) }
    ensures faults { (a b : Fault) → (IsTrue (⟦<Fault as PartialEq>⟧.eq a b) ↔ (a ≡ b)) }
    ensures stops { (a b : Stop) → (IsTrue (⟦<Stop as PartialEq>⟧.eq a b) ↔ (a ≡ b)) }
    ensures taken { (a b : Taken) → (IsTrue (⟦<Taken as PartialEq>⟧.eq a b) ↔ (a ≡ b)) }
{}

/// A clone of a state, of an action, of a fault, of a run's end or of an accumulator's answer is the same.
pub fn cloned_variants()
    ensures states { (state clone : State) → ⟦<State as Clone>⟧.is_clone state clone → clone ≡ state }
    ensures actions { (action clone : Action) → ⟦<Action as Clone>⟧.is_clone action clone → clone ≡ action }
    ensures faults { (fault clone : Fault) → ⟦<Fault as Clone>⟧.is_clone fault clone → clone ≡ fault }
    ensures stops { (stop clone : Stop) → ⟦<Stop as Clone>⟧.is_clone stop clone → clone ≡ stop }
    ensures taken { (taken clone : Taken) → ⟦<Taken as Clone>⟧.is_clone taken clone → clone ≡ taken }
{}

/// `as u8` gives the number of a state.
pub fn state_as_number(state: State) -> u8
    ensures { result ≡ state_number state }
{
    state as u8
}

/// `as u8` gives the number of an action.
pub fn action_as_number(action: Action) -> u8
    ensures { result ≡ action_number action }
{
    action as u8
}

/// The default state is Ground, and the default action Nop.
pub fn default_variants()
    ensures state { (value : State)
        → (⟦<State as Default>⟧.is_default value ↔ (value ≡ State.Ground)) }
    ensures action { (value : Action)
        → (⟦<Action as Default>⟧.is_default value ↔ (value ≡ Action.Nop)) }
{}
