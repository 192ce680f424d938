//! What decides on a screen beside what shows, and the colours of its numbers, for C.
ghost use Rattle.std.specs.Prelude.{◌≡◌, ◌<◌, ◌⊎◌, None, [], ◌∷◌, length};
ghost use Rattle.std.specs.Bool.{OnTrue, OnFalse};
ghost use Rattle.screen_pieces.specs.Palette.{rgb_numbered};
ghost use Rattle.screen_pieces.specs.Parts.{place_numbered, HasPlace, HasStops, HasHiddenRow, LacksHidden};
ghost use Rattle.screen_pieces.specs.Terminal.{display_of};
ghost use Rattle.ansi_screen_c.specs.Calls.{Holds, IsNoneOr};

use crate::handle::Handle;
use screen_pieces::{CellBytes, PlaceBytes, color_rgb};
use std::alloc::Global;

/// Writes the place of a number: 0 the cursor's, 1 what DECSC saved on the screen that shows, and while the alternate one
/// does, 2 what is saved on the main one. It answers false, and writes nothing, where no screen is held, and where there is
/// no such place.
#[unsafe(no_mangle)]
pub extern "C" fn ansi_screen_place(
    alloc: Global,
    screen: &mut Handle,
    which: u8,
    place: &mut PlaceBytes,
) -> bool
    ensures place { OnTrue result (Holds (HasPlace which place.new) screen.old.value) }
    ensures kept { screen.new.value ≡ screen.old.value }
    ensures refused { OnFalse result (place.new ≡ place.old) }
    ensures lacking { OnFalse result
        (IsNoneOr (λ terminal. place_numbered which (display_of terminal) ≡ None) screen.old.value) }
{
    match screen.take(alloc) {
        None => false,
        Some(held) => {
            let found = held.place(which);
            screen.put(held);
            match found {
                None => false,
                Some(bytes) => {
                    *place = bytes;
                    true
                }
            }
        }
    }
}

/// Writes the margins, counted from 0: the row of the upper one, and the row after the lower one. It answers false, and
/// writes nothing, where no screen is held.
#[unsafe(no_mangle)]
pub extern "C" fn ansi_screen_margins(
    alloc: Global,
    screen: &mut Handle,
    top: &mut usize,
    bottom: &mut usize,
) -> bool
    ensures margins { OnTrue result (Holds (λ terminal. (top.new ≡ (display_of terminal).top)
        × (bottom.new ≡ (display_of terminal).bottom)) screen.old.value) }
    ensures kept { screen.new.value ≡ screen.old.value }
    ensures refused { OnFalse result ((top.new ≡ top.old) × (bottom.new ≡ bottom.old)) }
    ensures none { OnFalse result (screen.old.value ≡ None) }
{
    match screen.take(alloc) {
        None => false,
        Some(held) => {
            let margins = held.margins();
            screen.put(held);
            (*top, *bottom) = margins;
            true
        }
    }
}

/// Writes a byte for each column to the front of the room, 1 where a tab stops there and else 0. It answers false, and
/// writes nothing, where no screen is held, and where the room has fewer bytes than the screen columns.
#[unsafe(no_mangle)]
pub extern "C" fn ansi_screen_stops(alloc: Global, screen: &mut Handle, room: &mut [u8]) -> bool
    ensures stops { OnTrue result (Holds (HasStops room.old room.new) screen.old.value) }
    ensures kept { screen.new.value ≡ screen.old.value }
    ensures refused { OnFalse result (room.new ≡ room.old) }
    ensures lacking { OnFalse result
        (IsNoneOr (λ terminal. length room.old < (display_of terminal).width) screen.old.value) }
{
    match screen.take(alloc) {
        None => false,
        Some(held) => {
            let written = held.put_stops(room);
            screen.put(held);
            written
        }
    }
}

/// As [`ansi_screen_row`](crate::ansi_screen_row), of the main screen while the alternate one shows. It answers false, and
/// writes none, also where the main one does.
#[unsafe(no_mangle)]
pub extern "C" fn ansi_screen_hidden_row(
    alloc: Global,
    screen: &mut Handle,
    row: usize,
    room: &mut [CellBytes],
) -> bool
    ensures row { OnTrue result (Holds (HasHiddenRow row room.old room.new) screen.old.value) }
    ensures kept { screen.new.value ≡ screen.old.value }
    ensures refused { OnFalse result (room.new ≡ room.old) }
    ensures lacking { OnFalse result (IsNoneOr (λ terminal. LacksHidden row (display_of terminal)
        ⊎ (length room.old < (display_of terminal).width)) screen.old.value) }
{
    match screen.take(alloc) {
        None => false,
        Some(held) => {
            let written = held.put_hidden_row(row, room);
            screen.put(held);
            written
        }
    }
}

/// Writes the red, the green and the blue of one of xterm's 256 colours.
#[unsafe(no_mangle)]
pub extern "C" fn ansi_screen_color_rgb(index: u8, rgb: &mut [u8; 3])
    ensures { rgb.new ≡ (rgb_numbered index).red ∷ (rgb_numbered index).green ∷ (rgb_numbered index).blue ∷ [] }
{
    let color = color_rgb(index);
    *rgb = [color.red, color.green, color.blue];
}
