//! Laws of stripped text, and of inert text. Each is the contract of a function that does nothing.
ghost use Rattle.std.specs.Prelude.{◌≡◌, ◌≤◌, ◌+◌, ◌*◌, ◌++◌, ◌∷◌, [], ℕ, List, length, filter, IsTrue, IsUtf8};
ghost use Rattle.std.specs.List.{AllByRecursion};
ghost use Rattle.anstyle_parse.specs.Stream.Bytes.{escape_byte};
ghost use Rattle.anstyle_parse.specs.Stream.Call.{Call};
ghost use Rattle.anstyle_parse.specs.Stream.Calls.{AreCalls, Continues};
ghost use Rattle.ansi_strip.specs.EightBit.{AreEightBitCalls, is_shown};
ghost use Rattle.ansi_strip.specs.Inert.{is_inert, inert_text, IsInertText};
ghost use Rattle.ansi_strip.specs.LineFeeds.{without_returns, HasNone, waiting, decided};
ghost use Rattle.ansi_strip.specs.Strip.{is_left, IsClean, stripped};

use anstyle_parse::laws::{bounds, calls_are_lawful, calls_of_bytes, replay};

/// Nothing but text is left: a parser that reads stripped text makes exactly those calls that
/// were left, and so no other.
///
/// And stripping twice is stripping once.
pub fn stripped_twice()
    ensures text { (bytes : List ℕ) (calls : List Call) → AreCalls bytes calls
        → AreCalls (stripped calls) (filter is_left calls) }
    ensures twice { (bytes : List ℕ) (calls again : List Call) → AreCalls bytes calls
        → AreCalls (stripped calls) again → stripped again ≡ stripped calls }
{
    calls_are_lawful();
    replay();
}

/// Stripped text is at most three times as long as what was stripped: at worst each byte breaks
/// a character, and U+FFFD has three bytes.
pub fn stripped_length()
    ensures { (bytes : List ℕ) (calls : List Call) → AreCalls bytes calls
        → length (stripped calls) ≤ 3 * length bytes }
{
    bounds();
}

/// Stripped text is UTF-8, whatever the bytes are; and so is the text of each piece of a stream.
pub fn stripped_utf8()
    ensures whole { (bytes : List ℕ) (calls : List Call) → AreCalls bytes calls
        → IsUtf8 (stripped calls) }
    ensures piece { (before bytes : List ℕ) (calls : List Call) → Continues before bytes calls
        → IsUtf8 (stripped calls) }
{
    calls_are_lawful();
    calls_of_bytes();
}

/// No text is lost: well-formed UTF-8 with no C0 control but tab, line feed and carriage return is
/// left as it is, byte for byte.
pub fn clean_text()
    ensures { (text : List ℕ) (calls : List Call) → IsClean text → AreCalls text calls
        → stripped calls ≡ text }
{}

/// The text of a piece, whatever bytes came before it, is at most three times as long as the
/// piece, and one byte more: where its first byte ends a character of four that was begun before.
pub fn piece_length()
    ensures { (before bytes : List ℕ) (calls : List Call) → Continues before bytes calls
        → length (stripped calls) ≤ 3 * length bytes + 1 }
{
    bounds();
}

/// A stream may be cut before any ESC byte, and its parts stripped apart: what is left of the
/// first part with an ESC after it, and then what is left of the rest, which begins with that ESC,
/// is what is left of the whole.
///
/// The ESC after the first part is needed: it breaks a character that is begun there.
pub fn cut_before_escape()
    ensures { (before bytes : List ℕ) (first rest whole : List Call)
        → AreCalls (before ++ escape_byte ∷ []) first → AreCalls (escape_byte ∷ bytes) rest
        → AreCalls (before ++ escape_byte ∷ bytes) whole
        → stripped whole ≡ stripped first ++ stripped rest }
{
    calls_of_bytes();
}

/// Inert text drives no terminal: one that also takes U+0080 to U+009F for the controls that they are makes of it
/// prints and layout alone, those that were left, and none of its prints is of DEL or of such a character.
pub fn drives_nothing()
    ensures calls { (bytes : List ℕ) (calls : List Call) → AreCalls bytes calls
        → AreEightBitCalls (inert_text calls) (filter is_left (filter is_inert calls)) }
    ensures only { (bytes : List ℕ) (calls made : List Call) → AreCalls bytes calls
        → AreEightBitCalls (inert_text calls) made → made ≡ filter is_left (filter is_inert calls) }
    ensures shown { (bytes : List ℕ) (calls made : List Call) → AreCalls bytes calls
        → AreEightBitCalls (inert_text calls) made → AllByRecursion (λ call. IsTrue (is_shown call)) made }
{
    calls_are_lawful();
    replay();
}

/// Nothing but inert text is left: a parser that reads it makes exactly those calls that were left.
///
/// And what is made of it is itself, also where it is stripped alone.
pub fn inert_twice()
    ensures text { (bytes : List ℕ) (calls : List Call) → AreCalls bytes calls
        → AreCalls (inert_text calls) (filter is_left (filter is_inert calls)) }
    ensures twice { (bytes : List ℕ) (calls again : List Call) → AreCalls bytes calls
        → AreCalls (inert_text calls) again → inert_text again ≡ inert_text calls }
    ensures stripped { (bytes : List ℕ) (calls again : List Call) → AreCalls bytes calls
        → AreCalls (inert_text calls) again → stripped again ≡ inert_text calls }
{
    calls_are_lawful();
    replay();
}

/// Inert text is no longer than stripped text: at most three times as long as what it is made of, and for a piece of a
/// stream one byte more.
pub fn inert_length()
    ensures whole { (bytes : List ℕ) (calls : List Call) → AreCalls bytes calls
        → length (inert_text calls) ≤ 3 * length bytes }
    ensures piece { (before bytes : List ℕ) (calls : List Call) → Continues before bytes calls
        → length (inert_text calls) ≤ 3 * length bytes + 1 }
{
    bounds();
}

/// Inert text is UTF-8 of inert characters alone, whatever the bytes are; and so is that of each piece of a stream.
pub fn inert_utf8()
    ensures whole { (bytes : List ℕ) (calls : List Call) → AreCalls bytes calls
        → IsInertText (inert_text calls) }
    ensures piece { (before bytes : List ℕ) (calls : List Call) → Continues before bytes calls
        → IsInertText (inert_text calls) }
{
    calls_are_lawful();
    calls_of_bytes();
}

/// No other text is lost: well-formed UTF-8 of inert characters is left as it is, byte for byte.
pub fn inert_clean_text()
    ensures { (text : List ℕ) (calls : List Call) → IsInertText text → AreCalls text calls
        → inert_text calls ≡ text }
{}

/// A stream may be cut before any ESC byte, as [`cut_before_escape`] says of stripped text.
pub fn inert_cut_before_escape()
    ensures { (before bytes : List ℕ) (first rest whole : List Call)
        → AreCalls (before ++ escape_byte ∷ []) first → AreCalls (escape_byte ∷ bytes) rest
        → AreCalls (before ++ escape_byte ∷ bytes) whole
        → inert_text whole ≡ inert_text first ++ inert_text rest }
{
    calls_of_bytes();
}

/// What a [`LineFeeds`](crate::LineFeeds) writes of a text, and then what waits at its end, is the text without each
/// carriage return right before a line feed. A text that has none is left as it is; and inert text without these is
/// inert text.
pub fn line_feeds()
    ensures whole { (text : List ℕ) → decided text ++ waiting text ≡ without_returns text }
    ensures same { (text : List ℕ) → HasNone text → without_returns text ≡ text }
    ensures inert { (text : List ℕ) → IsInertText text → IsInertText (without_returns text) }
{}
