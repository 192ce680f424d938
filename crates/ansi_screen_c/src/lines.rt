//! Rows that left the screen and rows that show, as lines, for C.
ghost use Rattle.std.specs.Prelude.{◌≡◌};
ghost use Rattle.std.specs.Bool.{OnTrue, OnFalse};
ghost use Rattle.screen_pieces.specs.Rows.{lines_of, html_of_lines};
ghost use Rattle.ansi_screen_c.specs.Calls.{Holds, ReadsOf, IsRefusedOf, HasNoRoomOf};

use crate::handle::Handle;
use crate::told;
use std::alloc::Global;

/// Writes rows as lines of text to the front of the room, and how many bytes these have: 1 is for the rows that left,
/// of which the last are kept; 2 for these and then what still shows; any other number for the rows that show. A row
/// that goes on and the next one are one line. It answers false where no screen is held, with the number 0, and where
/// the room has fewer bytes than the number.
#[unsafe(no_mangle)]
pub extern "C" fn ansi_screen_lines(
    alloc: Global,
    screen: &mut Handle,
    which: u8,
    room: &mut [u8],
    written: &mut usize,
) -> bool
    ensures text { OnTrue result (Holds (ReadsOf (lines_of which) room.old room.new written.new) screen.old.value) }
    ensures kept { screen.new.value ≡ screen.old.value }
    ensures refused { OnFalse result (HasNoRoomOf (lines_of which) room.old written.new screen.old.value) }
{
    match screen.take(alloc) {
        None => {
            *written = 0;
            false
        }
        Some(held) => {
            let answer = held.lines(which, room);
            screen.put(held);
            told(answer, written)
        }
    }
}

/// The same as HTML, in the styling of a number. It also answers false where memory is wanting, which is taken while it
/// is made: then the number is 0.
#[unsafe(no_mangle)]
pub extern "C" fn ansi_screen_lines_html(
    alloc: Global,
    screen: &mut Handle,
    which: u8,
    styling: u8,
    room: &mut [u8],
    written: &mut usize,
) -> bool
    ensures text { OnTrue result (Holds (ReadsOf (html_of_lines which styling) room.old room.new written.new)
        screen.old.value) }
    ensures kept { screen.new.value ≡ screen.old.value }
    ensures refused { OnFalse result (IsRefusedOf (html_of_lines which styling) room.old written.new screen.old.value) }
{
    match screen.take(alloc) {
        None => {
            *written = 0;
            false
        }
        Some(held) => {
            let answer = held.lines_html(alloc, which, styling, room);
            screen.put(held);
            told(answer, written)
        }
    }
}
