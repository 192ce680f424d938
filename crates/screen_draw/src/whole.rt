//! A whole screen, and the one that it covers.
ghost use Rattle.screen_draw.specs.Changed.{AreCompared};
ghost use Rattle.screen_draw.specs.Draw.{covered_calls, shown_screen_calls, drawn_calls};
ghost use Rattle.screen_draw.specs.Drawing.{Draws};
ghost use Rattle.screen_draw.specs.Update.{update_calls};
ghost use Rattle.std.specs.Prelude.{◌≡◌};

use crate::alike::{is_steady, looks_same};
use crate::buffer::Buffer;
use crate::calls::{ALTERNATE, put_escape, put_private_mode};
use crate::changed::Compared;
use crate::changes::put_changes;
use crate::cleared::put_cleared;
use crate::cursors::put_screen;
use crate::rest::put_rest;
use ansi_screen::Screen;
use anstyle_parse::io::{Output, Sink};

/// Draws what the alternate screen covers.
fn put_covered<W: Sink>(output: &mut Output<W>, screen: &Screen)
    ensures { Draws W.Sink (covered_calls screen.now.display) output.old output.new }
{
    if screen.is_alternate() {
        put_screen(output, screen, Buffer::Hidden);
        put_escape(output, b'8');
        put_private_mode(output, ALTERNATE, true);
    }
}

/// Draws all, on a new screen.
pub(crate) fn put_shown_screen<W: Sink>(output: &mut Output<W>, screen: &Screen)
    ensures { Draws W.Sink (shown_screen_calls screen.now.display) output.old output.new }
{
    put_covered(output, screen);
    put_screen(output, screen, Buffer::Shown);
    put_rest(output, screen);
}

/// Resets the terminal and draws all.
pub(crate) fn put_all<W: Sink>(output: &mut Output<W>, screen: &Screen)
    ensures { Draws W.Sink (drawn_calls screen.now.display) output.old output.new }
{
    put_escape(output, b'c');
    put_shown_screen(output, screen);
}

/// Draws what differs; all, where more differs than cells, margins, the cursor, DECAWM and DECTCEM.
pub(crate) fn put_update<W: Sink>(
    output: &mut Output<W>,
    shown: &Screen,
    wanted: &Screen,
    compared: Compared,
)
    requires { AreCompared compared shown.now wanted.now }
    ensures { Draws W.Sink (update_calls shown.now.display wanted.now.display) output.old output.new }
{
    if is_steady(shown, wanted, compared) {
        put_changes(output, shown, wanted, compared);
    } else if !looks_same(shown, wanted) {
        put_cleared(output, shown);
        put_shown_screen(output, wanted);
    }
}
