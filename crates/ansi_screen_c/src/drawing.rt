//! What leads to a screen, for C.
ghost use Rattle.std.specs.Prelude.{◌≡◌};
ghost use Rattle.std.specs.Bool.{OnTrue, OnFalse};
ghost use Rattle.screen_pieces.specs.Drawing.{drawing_of};
ghost use Rattle.screen_pieces.specs.Terminal.{display_of};
ghost use Rattle.ansi_screen_c.specs.Calls.{Both, Holds, Reads, IsRefusedOf, ReadsUpdate, IsRefusedUpdate};

use crate::handle::Handle;
use crate::told;
use std::alloc::Global;

/// Writes the bytes after which a terminal of its size shows the screen to the front of the room, and how many there
/// are. It answers false where no screen is held, or memory is wanting, which is taken while they are made: then the
/// number is 0; and where the room has fewer bytes than the number.
#[unsafe(no_mangle)]
pub extern "C" fn ansi_screen_draw(
    alloc: Global,
    screen: &mut Handle,
    room: &mut [u8],
    written: &mut usize,
) -> bool
    ensures text { OnTrue result (Holds (Reads drawing_of room.old room.new written.new) screen.old.value) }
    ensures kept { screen.new.value ≡ screen.old.value }
    ensures refused { OnFalse result (IsRefusedOf (λ terminal. drawing_of (display_of terminal)) room.old written.new
        screen.old.value) }
{
    match screen.take(alloc) {
        None => {
            *written = 0;
            false
        }
        Some(held) => {
            let answer = held.draw(alloc, room);
            screen.put(held);
            told(answer, written)
        }
    }
}

/// The same with the bytes after which a terminal that shows the one screen shows the other. It also answers false,
/// with the number 0, where they have different sizes.
#[unsafe(no_mangle)]
pub extern "C" fn ansi_screen_update(
    alloc: Global,
    shown: &mut Handle,
    wanted: &mut Handle,
    room: &mut [u8],
    written: &mut usize,
) -> bool
    ensures text { OnTrue result
        (Both (ReadsUpdate room.old room.new written.new) shown.old.value wanted.old.value) }
    ensures shown_kept { shown.new.value ≡ shown.old.value }
    ensures wanted_kept { wanted.new.value ≡ wanted.old.value }
    ensures refused { OnFalse result (IsRefusedUpdate room.old written.new shown.old.value wanted.old.value) }
{
    *written = 0;
    match shown.take(alloc) {
        None => false,
        Some(first) => match wanted.take(alloc) {
            None => {
                shown.put(first);
                false
            }
            Some(second) => {
                let answer = first.update(alloc, &second, room);
                shown.put(first);
                wanted.put(second);
                told(answer, written)
            }
        },
    }
}
