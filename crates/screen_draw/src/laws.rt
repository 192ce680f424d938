//! Laws of drawing. Each is the contract of a function that does nothing.
ghost use Rattle.std.specs.Prelude.{◌≡◌, ◌<◌, ◌≤◌, ◌+◌, ◌*◌, ℕ, true, List, [], length};
ghost use Rattle.ansi_screen.specs.After.{State, after_all, Shows};
ghost use Rattle.ansi_screen.specs.Leaving.{unkept};
ghost use Rattle.ansi_screen.specs.Display.{Display, IsSized};
ghost use Rattle.ansi_screen.specs.Following.{IsShownOf};
ghost use Rattle.ansi_screen.specs.Reachable.{IsScreen, HasContents};
ghost use Rattle.ansi_screen.specs.Text.{text_of};
ghost use Rattle.ansi_style.specs.Style.{HasBytes};
ghost use Rattle.screen_draw.specs.Bound.{differing_cells, calls_of_cell, calls_of_rest};
ghost use Rattle.screen_draw.specs.Draw.{drawn_calls};
ghost use Rattle.screen_draw.specs.Laws.{HasModes};
ghost use Rattle.ansi_screen.specs.Laws.{with_shown};
ghost use Rattle.screen_draw.specs.Redrawn.{redrawn, drawn_state, ShowsFrom};
ghost use Rattle.screen_draw.specs.Alike.{are_alike, is_steady};
ghost use Rattle.screen_draw.specs.Update.{move_calls, change_calls, update_calls};
ghost use Rattle.screen_draw.specs.Updates.{AreScreens, followed_calls, last_of, joined};
ghost use Rattle.screen_draw.specs.declared.changes.Brush.{Brush};
ghost use Rattle.anstyle_parse.specs.Stream.Call.{Call};
ghost use Rattle.ansi_screen.specs.declared.cell.Cell.{Cell};

/// Whatever stood there, nothing of it counts: the calls that draw a screen lead any two screens of one
/// size to the same one. Each of them keeps the picture from which on it notes what changes, and the rows that left it.
pub fn forgets()
    ensures { (drawn : Display) (a b : State)
        → a.display.width ≡ b.display.width → a.display.height ≡ b.display.height
        → unkept (after_all (drawn_calls drawn) a)
        ≡ with_shown a.shown (unkept (after_all (drawn_calls drawn) b)) }
{}

/// A drawing leaves the modes, and the style and the character sets of what comes next, as they are on the
/// screen that is drawn.
pub fn selected()
    ensures modes { (drawn : Display) (old : State) → HasModes drawn (after_all (drawn_calls drawn) old).display }
    ensures style { (drawn : Display) (old : State) → HasBytes drawn.cursor.style.foreground
        → HasBytes drawn.cursor.style.background
        → (after_all (drawn_calls drawn) old).display.cursor.style ≡ drawn.cursor.style }
    ensures sets { (drawn : Display) (old : State)
        → (after_all (drawn_calls drawn) old).display.cursor.charsets ≡ drawn.cursor.charsets }
{}

/// The same screen shows: the calls that draw a screen lead every screen of its size to it, all of it but links, what
/// REP repeats, whether a row goes on, whether a space was printed or nothing stands there, and the rows that left, of
/// which each screen keeps its own.
pub fn redrawn()
    ensures { (drawn : Display) (old : State) → IsScreen drawn → HasContents drawn
        → old.display.width ≡ drawn.width → old.display.height ≡ drawn.height
        → unkept (after_all (drawn_calls drawn) old) ≡ drawn_state old.shown drawn }
{}

/// The other screen shows: the calls of an update lead a terminal that shows the one, as a drawing or an update
/// leaves it, to what a drawing of the other leads to, but for the rows that left, which it keeps.
pub fn updated()
    ensures { (shown wanted : Display) (old : State) → IsScreen shown → HasContents shown
        → IsScreen wanted → HasContents wanted → shown.width ≡ wanted.width → shown.height ≡ wanted.height
        → old.display ≡ redrawn shown
        → ShowsFrom old (after_all (update_calls shown wanted) old) wanted }
{}

/// A terminal follows a stream: the calls of a drawing, and of an update after each piece, lead every screen of the
/// size to the one that all pieces lead to, but for the rows that left, which it keeps; and so after each of the
/// pieces, since these may be any.
pub fn followed()
    ensures shown { (first old : State) (pieces : List (List ℕ)) (screens : List State)
        → IsScreen first.display → HasContents first.display
        → old.display.width ≡ first.display.width → old.display.height ≡ first.display.height
        → AreScreens first [] pieces screens
        → ShowsFrom old (after_all (followed_calls first screens) old) (last_of first screens).display }
    ensures whole { (first : State) (pieces : List (List ℕ)) (screens : List State)
        → AreScreens first [] pieces screens → Shows first (joined pieces) (last_of first screens) }
{}

/// The text of a drawing is the text of the screen (`drawn`): what a drawing can't tell is no part of it. So a terminal
/// that follows a stream shows the text of the screen that the stream leads to (`followed`): what `--updates` writes of
/// a stream has the text of the stream.
pub fn same_text()
    ensures shown { (d : Display) → text_of (redrawn d) ≡ text_of d }
    ensures drawn { (drawn : Display) (old : State) → IsScreen drawn → HasContents drawn
        → old.display.width ≡ drawn.width → old.display.height ≡ drawn.height
        → text_of (after_all (drawn_calls drawn) old).display ≡ text_of drawn }
    ensures followed { (first old : State) (pieces : List (List ℕ)) (screens : List State)
        → IsScreen first.display → HasContents first.display
        → old.display.width ≡ first.display.width → old.display.height ≡ first.display.height
        → AreScreens first [] pieces screens
        → text_of (after_all (followed_calls first screens) old).display ≡ text_of (last_of first screens).display }
{}

/// What differs from a screen that is shown stays noted: where a screen has noted all in which it differs from the one
/// that is shown, it has after any calls.
pub fn noted()
    ensures { (calls : List Call) (screen shown : State) → IsSized screen.display
        → IsShownOf screen shown → IsShownOf (after_all calls screen) shown }
{}

/// What is the same is not drawn: nothing of a screen that shows, and no cell that is like the one that stands there,
/// but for the last character of the cursor's row where a wrap is pending. So where no more differs than cells, the
/// cursor, margins, DECAWM and DECTCEM, an update has five calls at most for each cell that differs, and nine more.
pub fn unchanged()
    ensures screen { (shown : Display) → update_calls shown shown ≡ [] }
    ensures cell { (row column : ℕ) (brush : Brush) (old new : Cell) (olds news : List Cell) → are_alike old new ≡ true
        → change_calls row column brush old new olds news ≡ [] }
    ensures few { (shown wanted : Display) → is_steady shown wanted ≡ true
        → length (update_calls shown wanted) ≤ calls_of_cell * differing_cells shown wanted + calls_of_rest }
    ensures cursor { (shown : Display) (row column : ℕ)
        → is_steady (record shown { cursor = record shown.cursor { row = row; column = column } }) shown ≡ true
        → shown.cursor.column < shown.width
        → update_calls (record shown { cursor = record shown.cursor { row = row; column = column } }) shown
        ≡ move_calls (record shown.cursor { row = row; column = column }) shown.cursor.row shown.cursor.column }
{}
