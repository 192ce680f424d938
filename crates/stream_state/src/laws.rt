//! Laws of states and of `==`. Each is the contract of a function that does nothing.
ghost use Rattle.std.specs.Prelude.{◌≡◌, ◌↔◌, ℕ, List, [], IsTrue};
ghost use Rattle.stream_state.specs.Log.{StandsForLog};
ghost use Rattle.stream_state.specs.State.{pending_of, StandsFor};

use crate::fed::Fed;
use crate::state::StreamState;

/// Any bytes in a state stand for some stream: for one that had what the state holds, and as a log is read for
/// another. Where that is nothing, as in a state of zero bytes, the stream begins.
pub fn states()
    ensures any { (state : StreamState) → StandsFor state (pending_of state) }
    ensures any_log { (state : StreamState) → (before : List ℕ) × StandsForLog state before }
    ensures zero { (state : StreamState) → state.length ≡ 0 → StandsFor state [] }
    ensures zero_log { (state : StreamState) → state.length ≡ 0 → StandsForLog state [] }
{}

/// `==` of what calls took and wrote is equality.
pub fn equality()
    ensures { (a b : Fed) → (IsTrue (⟦<Fed as PartialEq>⟧.eq a b) ↔ (a ≡ b)) }
{}

/// A clone of a state, or of what calls took and wrote, is the same.
pub fn clones()
    ensures states { (state clone : StreamState) → ⟦<StreamState as Clone>⟧.is_clone state clone → clone ≡ state }
    ensures fed { (fed clone : Fed) → ⟦<Fed as Clone>⟧.is_clone fed clone → clone ≡ fed }
{}
