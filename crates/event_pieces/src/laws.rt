//! Laws of events of pieces and of `==`. Each is the contract of a function that does nothing.
ghost use Rattle.std.specs.Prelude.{◌≡◌, ◌≤◌, ◌<◌, ◌↔◌, ℕ, List, [], ◌++◌, length, get_or, IsTrue};
ghost use Rattle.anstyle_parse.specs.Stream.Call.{Call};
ghost use Rattle.anstyle_parse.specs.Stream.Calls.{AreCalls, Continues};
ghost use Rattle.event_pieces.specs.Ends.{AreEnds};
ghost use Rattle.event_pieces.specs.Event.{read_events};
ghost use Rattle.event_pieces.specs.Feed.{AreEventsOf};

use crate::event::Event;
use crate::feeding::Fed;

/// The calls that the records of pieces say, one after another, are those of the whole stream, however it is
/// cut: they continue one another, and those of all bytes of a stream are its calls.
pub fn events_joined()
    ensures pieces { (before bytes more room more_room : List ℕ) (events others : List Event)
        → AreEventsOf before bytes room events → AreEventsOf (before ++ bytes) more more_room others
        → Continues before (bytes ++ more) (read_events room events ++ read_events more_room others) }
    ensures whole { (bytes room : List ℕ) (events : List Event) → AreEventsOf [] bytes room events
        → AreCalls bytes (read_events room events) }
{}

/// Ends never go down, and lie within the bytes; and no others are ends of these records.
pub fn ends()
    ensures ordered { (before bytes room : List ℕ) (events : List Event) (ends : List ℕ)
        → AreEventsOf before bytes room events → AreEnds before bytes room events ends
        → (place other : ℕ) → place ≤ other → other < length ends → get_or ends place 0 ≤ get_or ends other 0 }
    ensures within { (before bytes room : List ℕ) (events : List Event) (ends : List ℕ)
        → AreEventsOf before bytes room events → AreEnds before bytes room events ends
        → (place : ℕ) → place < length ends → get_or ends place 0 ≤ length bytes }
    ensures only { (before bytes room : List ℕ) (events : List Event) (ends others : List ℕ)
        → AreEventsOf before bytes room events → AreEnds before bytes room events ends
        → AreEnds before bytes room events others → length others ≡ length ends → others ≡ ends }
{}

/// `==` of what calls took and wrote is equality.
pub fn equality()
    ensures { (a b : Fed) → (IsTrue (⟦<Fed as PartialEq>⟧.eq a b) ↔ (a ≡ b)) }
{}

/// A clone of a record, or of what calls took and wrote, is the same.
pub fn clones()
    ensures events { (event clone : Event) → ⟦<Event as Clone>⟧.is_clone event clone → clone ≡ event }
    ensures fed { (fed clone : Fed) → ⟦<Fed as Clone>⟧.is_clone fed clone → clone ≡ fed }
{}
