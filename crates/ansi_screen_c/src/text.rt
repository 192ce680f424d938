//! Text of the screen, for C.
ghost use Rattle.std.specs.Prelude.{◌≡◌};
ghost use Rattle.std.specs.Bool.{OnTrue, OnFalse};
ghost use Rattle.ansi_screen.specs.Text.{text_of};
ghost use Rattle.screen_pieces.specs.Text.{text_of_row, text_of_part, LacksRow, LacksPart};
ghost use Rattle.screen_pieces.specs.Terminal.{display_of};
ghost use Rattle.ansi_screen_c.specs.Calls.{Holds, Reads, IsRefused, HasNoRoomOf};

use crate::handle::Handle;
use crate::told;
use std::alloc::Global;

/// Writes the text of the screen to the front of the room, and how many bytes it has. It answers false where no screen
/// is held, with the number 0, and where the room has fewer bytes than the number.
#[unsafe(no_mangle)]
pub extern "C" fn ansi_screen_text(
    alloc: Global,
    screen: &mut Handle,
    room: &mut [u8],
    written: &mut usize,
) -> bool
    ensures text { OnTrue result (Holds (Reads text_of room.old room.new written.new) screen.old.value) }
    ensures kept { screen.new.value ≡ screen.old.value }
    ensures refused { OnFalse result (HasNoRoomOf (λ terminal. text_of (display_of terminal)) room.old written.new
        screen.old.value) }
{
    match screen.take(alloc) {
        None => {
            *written = 0;
            false
        }
        Some(held) => {
            let answer = held.text(room);
            screen.put(held);
            told(answer, written)
        }
    }
}

/// The same with a row, counted from 0, without the blanks at its end. It also answers false, with the number 0, where
/// there is no such row.
#[unsafe(no_mangle)]
pub extern "C" fn ansi_screen_row_text(
    alloc: Global,
    screen: &mut Handle,
    row: usize,
    room: &mut [u8],
    written: &mut usize,
) -> bool
    ensures text { OnTrue result (Holds (Reads (text_of_row row) room.old room.new written.new) screen.old.value) }
    ensures kept { screen.new.value ≡ screen.old.value }
    ensures refused { OnFalse result
        (IsRefused (LacksRow row) (text_of_row row) room.old written.new screen.old.value) }
{
    match screen.take(alloc) {
        None => {
            *written = 0;
            false
        }
        Some(held) => {
            let answer = held.row_text(row, room);
            screen.put(held);
            told(answer, written)
        }
    }
}

/// The same with the cells of a row from the column `start` up to the column `end`, blanks too. It also answers false,
/// with the number 0, where there is no such row or there are no such columns.
#[unsafe(no_mangle)]
pub extern "C" fn ansi_screen_part_text(
    alloc: Global,
    screen: &mut Handle,
    row: usize,
    start: usize,
    end: usize,
    room: &mut [u8],
    written: &mut usize,
) -> bool
    ensures text { OnTrue result (Holds (Reads (text_of_part row start end) room.old room.new written.new)
        screen.old.value) }
    ensures kept { screen.new.value ≡ screen.old.value }
    ensures refused { OnFalse result (IsRefused (LacksPart row start end) (text_of_part row start end) room.old
        written.new screen.old.value) }
{
    match screen.take(alloc) {
        None => {
            *written = 0;
            false
        }
        Some(held) => {
            let answer = held.part_text(row, start, end, room);
            screen.put(held);
            told(answer, written)
        }
    }
}
