//! The laws of texts of pieces. Each is the contract of a function that does nothing.
ghost use Rattle.std.specs.Prelude.{◌≡◌, ◌≤◌, ◌*◌, ℕ, List, [], ◌∷◌, ◌++◌, length};
ghost use Rattle.anstyle_parse.specs.Stream.Bytes.{escape_byte};
ghost use Rattle.anstyle_parse.specs.Stream.Call.{Call};
ghost use Rattle.anstyle_parse.specs.Stream.Calls.{AreCalls};
ghost use Rattle.anstyle_parse.specs.Machine.AsRead.{as_read, as_read_whole};
ghost use Rattle.ansi_strip.specs.Inert.{inert_text, IsInertText};
ghost use Rattle.ansi_strip.specs.LineFeeds.{without_returns};
ghost use Rattle.strip_pieces.specs.Feed.{IsTextOf, IsEndOf};
ghost use Rattle.strip_pieces.specs.Lines.{StandsForText, AreLinesOf, AreEndOf};

use crate::lines::LineState;
use ansi_strip::laws::{
    inert_clean_text, inert_cut_before_escape, inert_twice, inert_utf8, line_feeds,
};
use anstyle_parse::laws::{log_bounds, read_logs};

/// The texts of pieces, one after another, are the text of the whole; and the text of all bytes
/// of a stream is the inert text of the calls of what is read of them, also with what its end leads to. It is at most
/// three times as long as the stream.
pub fn texts_joined()
    ensures pieces { (before bytes more text rest : List ℕ) → IsTextOf before bytes text
        → IsTextOf (before ++ bytes) more rest
        → IsTextOf before (bytes ++ more) (text ++ rest) }
    ensures whole { (bytes text : List ℕ) → IsTextOf [] bytes text → (calls : List Call)
        × AreCalls (as_read bytes) calls × (text ≡ inert_text calls) }
    ensures ended { (bytes text end : List ℕ) → IsTextOf [] bytes text → IsEndOf bytes end
        → (calls : List Call) × AreCalls (as_read_whole bytes) calls × (text ++ end ≡ inert_text calls) }
    ensures length { (bytes text end : List ℕ) → IsTextOf [] bytes text → IsEndOf bytes end
        → length (text ++ end) ≤ 3 * length bytes }
{
    logs();
}

/// What `ansi2text` and the library write of a log: the inert text of what is read of it, to its end
/// ([`Parser::advance_log`](anstyle_parse::Parser::advance_log), `end_log`). It is at most three times as long as the
/// log. A log may be cut before any ESC byte, and its parts stripped apart, each but the last with that ESC after it.
/// What was stripped, stripped again, is the same, and so is any inert text: also at its end nothing is added.
pub fn logs()
    ensures length { (log : List ℕ) (calls : List Call) → AreCalls (as_read_whole log) calls
        → length (inert_text calls) ≤ 3 * length log }
    ensures so_far { (log : List ℕ) (calls : List Call) → AreCalls (as_read log) calls
        → length (inert_text calls) ≤ 3 * length log }
    ensures parts { (before bytes : List ℕ) (first rest whole : List Call)
        → AreCalls (as_read_whole (before ++ escape_byte ∷ [])) first
        → AreCalls (as_read_whole (escape_byte ∷ bytes)) rest
        → AreCalls (as_read_whole (before ++ escape_byte ∷ bytes)) whole
        → inert_text whole ≡ inert_text first ++ inert_text rest }
    ensures twice { (log : List ℕ) (calls again : List Call) → AreCalls (as_read_whole log) calls
        → AreCalls (as_read_whole (inert_text calls)) again → inert_text again ≡ inert_text calls }
    ensures clean { (text : List ℕ) (calls : List Call) → IsInertText text → AreCalls (as_read_whole text) calls
        → inert_text calls ≡ text }
{
    log_bounds();
    read_logs();
    inert_cut_before_escape();
    inert_twice();
    inert_utf8();
    inert_clean_text();
}

/// What is left of pieces of a text by a [`LineState`], one after another, and then what waits at its end, is the whole
/// text without each carriage return right before a line feed, however it is cut: what a
/// [`LineFeeds`](ansi_strip::LineFeeds) writes of it.
pub fn lines_joined()
    ensures pieces { (before text more lines rest : List ℕ) → AreLinesOf before text lines
        → AreLinesOf (before ++ text) more rest
        → AreLinesOf before (text ++ more) (lines ++ rest) }
    ensures whole { (text lines end : List ℕ) → AreLinesOf [] text lines → AreEndOf text end
        → lines ++ end ≡ without_returns text }
{
    line_feeds();
}

/// A state of a zero byte begins a text, and a clone of one is the same.
pub fn line_states()
    ensures zero { (state : LineState) → state.waits ≡ 0 → StandsForText state [] }
    ensures clones { (state clone : LineState) → ⟦<LineState as Clone>⟧.is_clone state clone → clone ≡ state }
{}
