//! Draws a screen: bytes after which a terminal shows it, whatever it showed before; and updates: bytes that lead from
//! one screen to another. So a terminal follows a stream, after each piece of which only what differs is written:
//!
//! ```
//! wanted.forget();
//! parser.advance_all(wanted, piece);
//! update_noted(shown, wanted, output);
//! shown.catch_up(wanted);
//! // both screens have taken the piece: the next one may come
//! ```
#![tactic(auto)]

mod alike;
mod buffer;
mod calls;
mod cells;
mod changed;
mod changes;
mod cleared;
mod cursors;
pub mod laws;
mod rest;
mod showing;
mod updates;
mod whole;

ghost use Rattle.anstyle_parse.specs.Io.Output.{Adds};
ghost use Rattle.anstyle_parse.specs.Laws.Lawful.{AreLawful};
ghost use Rattle.anstyle_parse.specs.Stream.Calls.{AreCalls};
ghost use Rattle.anstyle_parse.specs.Stream.Canon.{canon};
ghost use Rattle.screen_draw.specs.Bound.{draw_bound, update_bound};
ghost use Rattle.screen_draw.specs.Draw.{drawn_calls};
ghost use Rattle.screen_draw.specs.Drawing.{IsDrawing, HaveNoReset};
ghost use Rattle.ansi_screen.specs.Following.{IsShownOf};
ghost use Rattle.screen_draw.specs.Redrawn.{redrawn, drawn_state, ShowsFrom};
ghost use Rattle.screen_draw.specs.Update.{update_calls};
ghost use Rattle.ansi_screen.specs.After.{State, Shows};
ghost use Rattle.ansi_screen.specs.Leaving.{unkept};
ghost use Rattle.ansi_screen.specs.Display.{IsSized};
ghost use Rattle.ansi_screen.specs.Reachable.{IsScreen, HasContents};
ghost use Rattle.std.specs.Prelude.{◌≡◌, ◌≤◌, ◌++◌, ℕ, List, length};
ghost use Rattle.std.specs.List.{AllByRecursion};

use ansi_screen::Screen;
use anstyle_parse::io::{Output, Sink};
use changed::Compared;
pub use showing::{Form, show_to_end};
pub use updates::{Stopped, update_to_end};
use whole::{put_all, put_update};

/// Writes the bytes that make a terminal of the screen's size show it.
///
/// The terminal is reset first. All is drawn: cells with their styles, what the alternate screen covers,
/// what is saved, tabs, margins, modes, and the cursor with its style. No memory is taken.
///
/// Not drawn are links, what REP would repeat, whether a row goes on in the next, and the rows that left the screen. Those
/// that the terminal keeps stay, and by the reset the rows of its main screen come to them. A space stands as a printed
/// one where nothing was printed: where half of a wide character was lost, where marks came after nothing, and in the
/// last column, where a wrap is pending.
pub fn draw<W: Sink>(screen: &Screen, output: &mut Output<W>)
    // It adds the canonical text of these calls.
    ensures text { Adds W.Sink (canon (drawn_calls screen.now.display)) output.old output.new }

    // A parser makes these calls of it, and no others.
    ensures made { AreCalls (canon (drawn_calls screen.now.display)) (drawn_calls screen.now.display) }
    ensures lawful { AreLawful (drawn_calls screen.now.display) }

    // A terminal of that size that takes this text shows the screen, whatever it showed before, but for the rows that
    // left it, which it keeps: each screen that a stream leads to has these premises (`ansi_screen::laws::reachable`,
    // `contents`).
    ensures redrawn { (old new : State) → IsScreen screen.now.display → HasContents screen.now.display
        → old.display.width ≡ screen.now.display.width → old.display.height ≡ screen.now.display.height
        → Shows old (canon (drawn_calls screen.now.display)) new
        → unkept new ≡ drawn_state old.shown screen.now.display }

    // So it does after any bytes, also where these have begun a string or a character.
    ensures anywhere { (before : List ℕ) (old new : State) → IsScreen screen.now.display
        → HasContents screen.now.display → IsScreen old.display
        → old.display.width ≡ screen.now.display.width → old.display.height ≡ screen.now.display.height
        → Shows old (before ++ canon (drawn_calls screen.now.display)) new
        → unkept new ≡ drawn_state old.shown screen.now.display }

    // They print what is shown, and have no controls but SO and SI, and no strings.
    ensures only { AllByRecursion IsDrawing (drawn_calls screen.now.display) }

    // So many bytes for each cell and each column, and for the rest.
    ensures bound { length (canon (drawn_calls screen.now.display)) ≤ draw_bound screen.now.display }
{
    put_all(output, screen);
}

/// Writes the bytes that make a terminal which shows one screen show another, of the same size.
///
/// Of cells only those are drawn that differ; and where a wrap is to be pending, the last character of the cursor's row
/// once more, unless the cursor stands there already. Where more differs than cells, margins, the cursor with its
/// style, DECAWM and DECTCEM, as where the alternate screen comes, all is drawn, without a reset; so it is, unless
/// nothing differs, where one of them has origin mode, IRM or line drawing, or in the shown one a wrap is pending after
/// what is erased. No memory is taken.
///
/// Not drawn is what [`draw`] doesn't draw. The rows that left the terminal, if it keeps any, stay; where all is drawn,
/// those of its main screen come to them.
pub fn update<W: Sink>(shown: &Screen, wanted: &Screen, output: &mut Output<W>)
    requires columns { shown.now.display.width ≡ wanted.now.display.width }
    requires rows { shown.now.display.height ≡ wanted.now.display.height }

    // It adds the canonical text of these calls.
    ensures text { Adds W.Sink (canon (update_calls shown.now.display wanted.now.display)) output.old output.new }

    // A parser makes these calls of it, and no others.
    ensures made { AreCalls (canon (update_calls shown.now.display wanted.now.display))
        (update_calls shown.now.display wanted.now.display) }
    ensures lawful { AreLawful (update_calls shown.now.display wanted.now.display) }

    // A terminal that shows the one, as a drawing or an update leaves it, shows by this text the other, but for the
    // rows that left it, which it keeps.
    ensures updated { (old new : State) → IsScreen shown.now.display → HasContents shown.now.display
        → IsScreen wanted.now.display → HasContents wanted.now.display
        → old.display ≡ redrawn shown.now.display
        → Shows old (canon (update_calls shown.now.display wanted.now.display)) new
        → ShowsFrom old new wanted.now.display }

    // They print what is shown, and have no controls but SO and SI, and no strings; there is neither RIS nor DECSTR.
    ensures only { AllByRecursion IsDrawing (update_calls shown.now.display wanted.now.display) }
    ensures no_reset { HaveNoReset (update_calls shown.now.display wanted.now.display) }

    // As many as a drawing, where all is drawn, and so many to clear what is shown.
    ensures bound { IsSized wanted.now.display → length (canon (update_calls shown.now.display wanted.now.display))
        ≤ update_bound shown.now.display wanted.now.display }
{
    put_update(output, shown, wanted, Compared::All);
}

/// Writes what [`update`] writes, and compares only what the wanted screen has noted, to the column.
///
/// That has to be all in which it differs from what is shown. So it is where both were the same when
/// [`Screen::forget`] was called, whatever `wanted` has taken since ([`laws::noted`]).
// Out of line `tests/cells` finds it, and counts what it alone takes, in `ansi2screen`.
#[inline(never)]
pub fn update_noted<W: Sink>(shown: &Screen, wanted: &Screen, output: &mut Output<W>)
    requires noted { IsShownOf wanted.now shown.now }

    // It adds the canonical text of these calls.
    ensures text { Adds W.Sink (canon (update_calls shown.now.display wanted.now.display)) output.old output.new }

    // A parser makes these calls of it, and no others.
    ensures made { AreCalls (canon (update_calls shown.now.display wanted.now.display))
        (update_calls shown.now.display wanted.now.display) }
    ensures lawful { AreLawful (update_calls shown.now.display wanted.now.display) }

    // A terminal that shows the one, as a drawing or an update leaves it, shows by this text the other, but for the
    // rows that left it, which it keeps.
    ensures updated { (old new : State) → IsScreen shown.now.display → HasContents shown.now.display
        → IsScreen wanted.now.display → HasContents wanted.now.display
        → old.display ≡ redrawn shown.now.display
        → Shows old (canon (update_calls shown.now.display wanted.now.display)) new
        → ShowsFrom old new wanted.now.display }

    // They print what is shown, and have no controls but SO and SI, and no strings; there is neither RIS nor DECSTR.
    ensures only { AllByRecursion IsDrawing (update_calls shown.now.display wanted.now.display) }
    ensures no_reset { HaveNoReset (update_calls shown.now.display wanted.now.display) }

    // As many as a drawing, where all is drawn, and so many to clear what is shown.
    ensures bound { IsSized wanted.now.display → length (canon (update_calls shown.now.display wanted.now.display))
        ≤ update_bound shown.now.display wanted.now.display }
{
    put_update(output, shown, wanted, Compared::Noted);
}
