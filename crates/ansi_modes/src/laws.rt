//! Laws of what is asked for.
ghost use Rattle.std.specs.Prelude.{◌≡◌, ◌↔◌, ℕ, List, map, IsTrue};
ghost use Rattle.std.specs.List.{flat_map};
ghost use Rattle.anstyle_parse.specs.Stream.Call.{Call, print};
ghost use Rattle.ansi_modes.specs.declared.asked.Asked.{Asked as State};
ghost use Rattle.ansi_modes.specs.Asked.{renewed, softly_reset, asked_after, asked_after_all};
ghost use Rattle.ansi_modes.specs.Laws.{Asks, IsLeft, reset, soft_reset, untold};

use crate::asked::Asked;
use crate::colors::Rgb;
use crate::cursor::Shape;
use crate::modes::{Encoding, Field, Switch, Tracking};
use crate::progress::{Progress, ProgressState};

/// After any bytes, in whatever pieces they are handed to a new parser, it is what the definition says of the whole
/// stream.
pub fn any_pieces(asked: &mut Asked, pieces: &[&[u8]])
    ensures { Asks asked.old (flat_map (λ piece. piece.now) pieces.now) asked.new }
{
    anstyle_parse::laws::headline(asked, pieces);
}

/// What is asked for is determined: from the same equal bytes lead to the same.
pub fn determined()
    ensures { (old first second : State) (bytes : List ℕ) → Asks old bytes first → Asks old bytes second
        → first ≡ second }
{}

/// RIS leaves nothing of what came before but titles, the folder, the colours of text, background and cursor, the count
/// of bells, what the wheel does on the alternate screen, and what was told of; DECSTR resets what its definition says.
#[tactic(auto, unfolding(crate::specs::Asked::escaped, crate::specs::Asked::sequenced, crate::specs::Asked::controlled, crate::specs::Asked::function_of))]
pub fn resets()
    ensures hard { (asked : State) → asked_after reset asked ≡ renewed asked }
    ensures forgets { (a b : State) → IsLeft a b → asked_after reset a ≡ asked_after reset b }
    ensures soft { (asked : State) → asked_after soft_reset asked ≡ softly_reset asked }
{}

/// What was told of decides nothing else: whatever it was, the same is asked for after a call.
pub fn telling()
    ensures { (call : Call) (asked : State) → untold (asked_after call (untold asked)) ≡ untold (asked_after call asked) }
{}

/// What is printed asks for nothing.
pub fn printed()
    ensures { (asked : State) (text : List ℕ) → asked_after_all (map print text) asked ≡ asked }
{}

/// `==` of each of these is equality.
pub fn equality()
    ensures colors { (a b : Rgb) → (IsTrue (⟦<Rgb as PartialEq>⟧.eq a b) ↔ (a ≡ b)) }
    ensures shapes { (a b : Shape) → (IsTrue (⟦<Shape as PartialEq>⟧.eq a b) ↔ (a ≡ b)) }
    ensures switches { (a b : Switch) → (IsTrue (⟦<Switch as PartialEq>⟧.eq a b) ↔ (a ≡ b)) }
    ensures tracking { (a b : Tracking) → (IsTrue (⟦<Tracking as PartialEq>⟧.eq a b) ↔ (a ≡ b)) }
    ensures encodings { (a b : Encoding) → (IsTrue (⟦<Encoding as PartialEq>⟧.eq a b) ↔ (a ≡ b)) }
    ensures fields { (a b : Field) → (IsTrue (⟦<Field as PartialEq>⟧.eq a b) ↔ (a ≡ b)) }
    ensures states { (a b : ProgressState) → (IsTrue (⟦<ProgressState as PartialEq>⟧.eq a b) ↔ (a ≡ b)) }
    ensures progress { (a b : Progress) → (IsTrue (⟦<Progress as PartialEq>⟧.eq a b) ↔ (a ≡ b)) }
{}
