//! Laws of states and of the safe text of pieces. Each is the contract of a function that does nothing.
ghost use Rattle.std.specs.Prelude.{◌≡◌, ◌++◌, [], ℕ, List};
ghost use Rattle.anstyle_parse.specs.Stream.Call.{Call};
ghost use Rattle.anstyle_parse.specs.Stream.Calls.{AreCalls};
ghost use Rattle.anstyle_parse.specs.Machine.AsRead.{as_read_whole};
ghost use Rattle.safe_text.specs.Marks.{safe_marked};
ghost use Rattle.safe_pieces.specs.State.{IsZero, StandsFor};
ghost use Rattle.safe_pieces.specs.Feed.{IsSafeOf, IsEndOf};

use crate::state::SafeState;

/// A state of zero bytes begins a stream.
pub fn states()
    ensures { (state : SafeState) → IsZero state → StandsFor state [] }
{}

/// The safe text of pieces, one after another, and then what ends it, is the safe text of the whole stream, however it
/// is cut: what [`write_safe`](safe_text::write_safe) writes of what is read of it, as of a log, with the marks where
/// hidden text begins and ends.
pub fn safe_joined()
    ensures pieces { (before bytes more text rest : List ℕ) → IsSafeOf before bytes text
        → IsSafeOf (before ++ bytes) more rest
        → IsSafeOf before (bytes ++ more) (text ++ rest) }
    ensures whole { (bytes text end : List ℕ) → IsSafeOf [] bytes text → IsEndOf bytes end
        → (calls : List Call) → AreCalls (as_read_whole bytes) calls → text ++ end ≡ safe_marked calls }
{}

/// A clone of a state is the same.
pub fn clones()
    ensures { (state clone : SafeState) → ⟦<SafeState as Clone>⟧.is_clone state clone → clone ≡ state }
{}
