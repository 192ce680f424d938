//! What the stream asked for beside the screen, and what a program reads by it, for C.
ghost use Rattle.std.specs.Prelude.{◌≡◌, None, IsUtf8};
ghost use Rattle.std.specs.Bool.{OnTrue, OnFalse};
ghost use Rattle.ansi_modes.specs.Changes.{bits_of};
ghost use Rattle.ansi_style.specs.Bytes.{is_set};
ghost use Rattle.screen_pieces.specs.Telling.{title_of, key_told, mouse_told, paste_told, focus_told};
ghost use Rattle.screen_pieces.specs.Terminal.{asked_of, Tells};
ghost use Rattle.ansi_screen_c.specs.Calls.{Holds, Both, ReadsOf, HasNoRoomOf, IsNotPasted};

use crate::handle::Handle;
use crate::told;
use screen_pieces::{KeyBytes, MouseBytes};
use std::alloc::Global;
use std::str;

/// Writes what was set since the last such call, as a word of bits, and forgets it. It answers false, and writes nothing,
/// where no screen is held.
#[unsafe(no_mangle)]
pub extern "C" fn ansi_screen_asked(alloc: Global, screen: &mut Handle, bits: &mut u16) -> bool
    ensures bits { OnTrue result (Holds (λ terminal. bits.new ≡ bits_of (asked_of terminal).changes) screen.old.value) }
    ensures told { OnTrue result (Both Tells screen.old.value screen.new.value) }
    ensures refused { OnFalse result ((screen.old.value ≡ None) × (screen.new.value ≡ None)) }
    ensures kept { OnFalse result (bits.new ≡ bits.old) }
{
    match screen.take(alloc) {
        None => false,
        Some(mut held) => {
            let told = held.take_asked();
            screen.put(held);
            *bits = told;
            true
        }
    }
}

/// Writes the window's title to the front of the room, and how many bytes it has. It answers false where no screen is
/// held, with the number 0, and where the room has fewer bytes than the number.
#[unsafe(no_mangle)]
pub extern "C" fn ansi_screen_title(
    alloc: Global,
    screen: &mut Handle,
    room: &mut [u8],
    written: &mut usize,
) -> bool
    ensures text { OnTrue result (Holds (ReadsOf title_of room.old room.new written.new) screen.old.value) }
    ensures kept { screen.new.value ≡ screen.old.value }
    ensures refused { OnFalse result (HasNoRoomOf title_of room.old written.new screen.old.value) }
{
    match screen.take(alloc) {
        None => {
            *written = 0;
            false
        }
        Some(held) => {
            let answer = held.title(room);
            screen.put(held);
            told(answer, written)
        }
    }
}

/// Writes what a program reads of a key to the front of the room, and how many bytes there are: 0, where it reads nothing.
/// It answers false where no screen is held, with the number 0, and where the room has fewer bytes than the number.
#[unsafe(no_mangle)]
pub extern "C" fn ansi_screen_key(
    alloc: Global,
    screen: &mut Handle,
    key: &KeyBytes,
    room: &mut [u8],
    written: &mut usize,
) -> bool
    ensures text { OnTrue result (Holds (ReadsOf (key_told key.now) room.old room.new written.new) screen.old.value) }
    ensures kept { screen.new.value ≡ screen.old.value }
    ensures refused { OnFalse result (HasNoRoomOf (key_told key.now) room.old written.new screen.old.value) }
{
    match screen.take(alloc) {
        None => {
            *written = 0;
            false
        }
        Some(held) => {
            let answer = held.key(*key, room);
            screen.put(held);
            told(answer, written)
        }
    }
}

/// The same of the mouse.
#[unsafe(no_mangle)]
pub extern "C" fn ansi_screen_mouse(
    alloc: Global,
    screen: &mut Handle,
    mouse: &MouseBytes,
    room: &mut [u8],
    written: &mut usize,
) -> bool
    ensures text { OnTrue result (Holds (ReadsOf (mouse_told mouse.now) room.old room.new written.new) screen.old.value) }
    ensures kept { screen.new.value ≡ screen.old.value }
    ensures refused { OnFalse result (HasNoRoomOf (mouse_told mouse.now) room.old written.new screen.old.value) }
{
    match screen.take(alloc) {
        None => {
            *written = 0;
            false
        }
        Some(held) => {
            let answer = held.mouse(*mouse, room);
            screen.put(held);
            told(answer, written)
        }
    }
}

/// The same of the focus, which the terminal has now, or where that is 0 no longer.
#[unsafe(no_mangle)]
pub extern "C" fn ansi_screen_focus(
    alloc: Global,
    screen: &mut Handle,
    gained: u8,
    room: &mut [u8],
    written: &mut usize,
) -> bool
    ensures text { OnTrue result (Holds (ReadsOf (focus_told (is_set gained)) room.old room.new written.new) screen.old.value) }
    ensures kept { screen.new.value ≡ screen.old.value }
    ensures refused { OnFalse result (HasNoRoomOf (focus_told (is_set gained)) room.old written.new screen.old.value) }
{
    match screen.take(alloc) {
        None => {
            *written = 0;
            false
        }
        Some(held) => {
            let answer = held.focus(gained != 0, room);
            screen.put(held);
            told(answer, written)
        }
    }
}

/// The same of a text that is pasted. It also answers false, with the number 0, where the text is no UTF-8.
#[unsafe(no_mangle)]
pub extern "C" fn ansi_screen_paste(
    alloc: Global,
    screen: &mut Handle,
    text: &[u8],
    room: &mut [u8],
    written: &mut usize,
) -> bool
    ensures text { OnTrue result (Holds (ReadsOf (paste_told text.now) room.old room.new written.new) screen.old.value) }
    ensures kept { screen.new.value ≡ screen.old.value }
    ensures utf8 { OnTrue result (IsUtf8 text.now) }
    ensures refused { OnFalse result (IsNotPasted text.now room.old written.new screen.old.value) }
{
    *written = 0;
    let Ok(typed) = str::from_utf8(text) else {
        return false;
    };
    match screen.take(alloc) {
        None => false,
        Some(held) => {
            let answer = held.paste(typed, room);
            screen.put(held);
            told(answer, written)
        }
    }
}
