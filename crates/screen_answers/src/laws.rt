//! Laws of a screen that answers.
ghost use Rattle.std.specs.List.{flat_map};
ghost use Rattle.std.specs.Prelude.{◌≡◌, true, List};
ghost use Rattle.anstyle_parse.specs.Stream.Call.{Call};
ghost use Rattle.screen_answers.specs.declared.answering.Answering.{Answering as Inside};
ghost use Rattle.screen_answers.specs.Answering.{answering_after_all};
ghost use Rattle.ansi_screen.specs.After.{State, after_all};
ghost use Rattle.ansi_screen.specs.Leaving.{all_left};
ghost use Rattle.screen_answers.specs.Kept.{all_kept};
ghost use Rattle.screen_answers.specs.Laws.{Answers, GoByThemselves};

use crate::answering::Answering;

/// After any bytes, in whatever pieces they are handed to a new parser, it is what the definition says of the whole
/// stream: so each call had its one answer, or none.
pub fn any_pieces(answering: &mut Answering, pieces: &[&[u8]])
    ensures { Answers answering.old (flat_map (λ piece. piece.now) pieces.now) answering.new }
{
    anstyle_parse::laws::headline(answering, pieces);
}

/// Its screen, its links, what is asked for beside it and the setting that is being asked for go by the calls as each goes
/// by itself; of the rows that leave the screen keeps the last of those that are kept. The terminal's own colours stay.
pub fn parts()
    ensures { (calls : List Call) (old new : Inside) → new ≡ answering_after_all calls old
        → GoByThemselves calls old new }
{}

/// Where what ED and RIS take away is kept too, all rows that leave are kept: its screen goes by itself in all.
pub fn all_are_kept()
    ensures rows { (calls : List Call) (screen : State) → all_kept true calls screen ≡ all_left calls screen }
    ensures screen { (calls : List Call) (old new : Inside) → old.keeps_erased ≡ true
        → new ≡ answering_after_all calls old → new.screen ≡ after_all calls old.screen }
{}
