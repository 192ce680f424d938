//! What the screen shows as HTML, and the URIs of its links, for C.
ghost use Rattle.std.specs.Prelude.{◌≡◌};
ghost use Rattle.std.specs.Bool.{OnTrue, OnFalse};
ghost use Rattle.screen_html.specs.Links.{link_at};
ghost use Rattle.screen_pieces.specs.Page.{html_of};
ghost use Rattle.screen_pieces.specs.Terminal.{links_of};
ghost use Rattle.ansi_screen_c.specs.Calls.{Holds, ReadsOf, IsRefusedOf, HasNoRoomOf};

use crate::handle::Handle;
use crate::told;
use std::alloc::Global;

/// Writes what the screen shows as HTML, in the styling of a number, to the front of the room, and how many bytes it
/// has. It answers false where no screen is held, or memory is wanting, which is taken while they are made: then the
/// number is 0; and where the room has fewer bytes than the number.
#[unsafe(no_mangle)]
pub extern "C" fn ansi_screen_html(
    alloc: Global,
    screen: &mut Handle,
    styling: u8,
    room: &mut [u8],
    written: &mut usize,
) -> bool
    ensures text { OnTrue result (Holds (ReadsOf (html_of styling) room.old room.new written.new) screen.old.value) }
    ensures kept { screen.new.value ≡ screen.old.value }
    ensures refused { OnFalse result (IsRefusedOf (html_of styling) room.old written.new screen.old.value) }
{
    match screen.take(alloc) {
        None => {
            *written = 0;
            false
        }
        Some(held) => {
            let answer = held.html(alloc, styling, room);
            screen.put(held);
            told(answer, written)
        }
    }
}

/// The same with the URI of a link by its number: no bytes, where no link of the number is kept.
#[unsafe(no_mangle)]
pub extern "C" fn ansi_screen_link(
    alloc: Global,
    screen: &mut Handle,
    number: u32,
    room: &mut [u8],
    written: &mut usize,
) -> bool
    ensures uri { OnTrue result (Holds (ReadsOf (λ terminal. link_at number (links_of terminal)) room.old room.new
        written.new) screen.old.value) }
    ensures kept { screen.new.value ≡ screen.old.value }
    ensures refused { OnFalse result (HasNoRoomOf (λ terminal. link_at number (links_of terminal)) room.old written.new
        screen.old.value) }
{
    match screen.take(alloc) {
        None => {
            *written = 0;
            false
        }
        Some(held) => {
            let answer = held.link_uri(number, room);
            screen.put(held);
            told(answer, written)
        }
    }
}
