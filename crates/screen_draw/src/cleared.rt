//! A screen as a new one, without a reset.
ghost use Rattle.std.specs.Prelude.{◌≡◌, ◌<◌, ◌≤◌, length};
ghost use Rattle.ansi_screen.specs.Display.{most_columns};
ghost use Rattle.screen_draw.specs.Drawing.{Draws};
ghost use Rattle.screen_draw.specs.Update.{reset_stop_calls, reset_stops_calls, leave_calls, reset_modes, cleared_calls};

use crate::calls::{ALTERNATE, put_escape, put_number, put_plain, put_private_mode};
use crate::rest::{STOPS_EACH, put_clear_stop, put_set_stop};
use ansi_screen::Screen;
use anstyle_parse::io::{Output, Sink};

/// Sets or clears a stop, so that it is as on a new screen.
fn put_reset_stop<W: Sink>(output: &mut Output<W>, column: usize, stops: bool)
    requires { column < most_columns }
    ensures { Draws W.Sink (reset_stop_calls column stops) output.old output.new }
{
    match (stops, column % STOPS_EACH == 0) {
        (true, false) => put_clear_stop(output, column),
        (false, true) => put_set_stop(output, column),
        (true, true) | (false, false) => {}
    }
}

/// Sets and clears stops, so that they are as on a new screen.
fn put_reset_stops<W: Sink>(output: &mut Output<W>, stops: &[bool])
    requires { length stops.now ≤ most_columns }
    ensures { Draws W.Sink (reset_stops_calls 0 stops.now) output.old output.new }
{
    for (column, stops) in stops.iter().enumerate() {
        put_reset_stop(output, column, *stops);
    }
}

/// Goes to the main screen.
fn put_leave<W: Sink>(output: &mut Output<W>, is_alternate: bool)
    ensures { Draws W.Sink (leave_calls is_alternate) output.old output.new }
{
    if is_alternate {
        put_private_mode(output, ALTERNATE, false);
    }
}

/// All rows between the margins; IRM, DECAWM and DECTCEM as on a new screen.
fn put_reset_modes<W: Sink>(output: &mut Output<W>)
    ensures { Draws W.Sink reset_modes output.old output.new }
{
    put_number(output, 0, b'r');
    put_number(output, 4, b'l');
    put_private_mode(output, 7, true);
    put_private_mode(output, 25, true);
}

/// Makes all as on a new screen, without a reset.
pub(crate) fn put_cleared<W: Sink>(output: &mut Output<W>, shown: &Screen)
    ensures { Draws W.Sink (cleared_calls shown.now.display) output.old output.new }
{
    put_leave(output, shown.is_alternate());
    put_reset_modes(output);
    put_plain(output);
    put_reset_stops(output, shown.stops());
    put_plain(output);
    put_number(output, 2, b'J');
    put_escape(output, b'7');
}
