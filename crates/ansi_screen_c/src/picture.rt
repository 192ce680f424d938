//! What the screen shows, or showed, as a picture, for C.
ghost use Rattle.std.specs.Prelude.{◌≡◌, IsUtf8};
ghost use Rattle.std.specs.Bool.{OnTrue, OnFalse};
ghost use Rattle.screen_pieces.specs.Picture.{svg_of};
ghost use Rattle.ansi_screen_c.specs.Calls.{Holds, ReadsOf, IsRefusedOf};

use crate::handle::Handle;
use crate::told;
use screen_pieces::PictureBytes;
use std::alloc::Global;
use std::str;

/// Writes the picture of what the screen shows, or of all that it showed, as SVG to the front of the room, and how many
/// bytes it has. It answers false where no screen is held, where the title or the fonts are no UTF-8, or memory is
/// wanting, which is taken while it is made: then the number is 0; and where the room has fewer bytes than the number.
#[unsafe(no_mangle)]
pub extern "C" fn ansi_screen_svg(
    alloc: Global,
    screen: &mut Handle,
    picture: &PictureBytes,
    title: &[u8],
    font: &[u8],
    room: &mut [u8],
    written: &mut usize,
) -> bool
    ensures text { OnTrue result (Holds (ReadsOf (svg_of picture.now title.now font.now) room.old room.new written.new)
        screen.old.value) }
    ensures kept { screen.new.value ≡ screen.old.value }
    ensures title_utf8 { OnTrue result (IsUtf8 title.now) }
    ensures font_utf8 { OnTrue result (IsUtf8 font.now) }
    ensures refused { OnFalse result (IsRefusedOf (svg_of picture.now title.now font.now) room.old written.new
        screen.old.value) }
{
    *written = 0;
    let Ok(named) = str::from_utf8(title) else {
        return false;
    };
    let Ok(in_font) = str::from_utf8(font) else {
        return false;
    };
    match screen.take(alloc) {
        None => false,
        Some(held) => {
            let answer = held.svg(alloc, *picture, named, in_font, room);
            screen.put(held);
            told(answer, written)
        }
    }
}
