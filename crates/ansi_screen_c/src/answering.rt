//! What a program that asked is answered, and the terminal's own colours, for C.
ghost use Rattle.std.specs.Prelude.{◌≡◌, None};
ghost use Rattle.std.specs.Bool.{OnTrue, OnFalse};
ghost use Rattle.screen_pieces.specs.Answers.{theme_told};
ghost use Rattle.screen_pieces.specs.Terminal.{answers_of, waiting_of, HasTheme, TakesAnswers};
ghost use Rattle.ansi_style.specs.Bytes.{is_set};
ghost use Rattle.ansi_screen_c.specs.Calls.{Holds, Both, ReadsOf, HasNoRoomOf};

use crate::handle::Handle;
use screen_pieces::ThemeBytes;
use std::alloc::Global;

/// Writes the answers that wait, the oldest first, to the front of the room, how many bytes they have, and whether older
/// ones were lost since the last such call; and forgets them. It answers false where no screen is held, with the number
/// 0, and where the room has fewer bytes than the number: then they wait on.
#[unsafe(no_mangle)]
pub extern "C" fn ansi_screen_answers(
    alloc: Global,
    screen: &mut Handle,
    room: &mut [u8],
    written: &mut usize,
    lost: &mut u8,
) -> bool
    ensures text { OnTrue result (Holds (ReadsOf answers_of room.old room.new written.new) screen.old.value) }
    ensures lost { OnTrue result
        (Holds (λ terminal. is_set lost.new ≡ (waiting_of terminal).has_lost) screen.old.value) }
    ensures taken { OnTrue result (Both TakesAnswers screen.old.value screen.new.value) }
    ensures refused { OnFalse result (HasNoRoomOf answers_of room.old written.new screen.old.value) }
    ensures kept { OnFalse result (screen.new.value ≡ screen.old.value) }
    ensures lost_kept { OnFalse result (lost.new ≡ lost.old) }
{
    match screen.take(alloc) {
        None => {
            *written = 0;
            false
        }
        Some(mut held) => {
            let answer = held.answers(room);
            screen.put(held);
            match answer {
                Ok((length, has_lost)) => {
                    *written = length;
                    *lost = u8::from(has_lost);
                    true
                }
                Err(needed) => {
                    *written = needed;
                    false
                }
            }
        }
    }
}

/// Tells the terminal's own colours. It answers false where no screen is held.
#[unsafe(no_mangle)]
pub extern "C" fn ansi_screen_colors(
    alloc: Global,
    screen: &mut Handle,
    colors: &ThemeBytes,
) -> bool
    ensures told { OnTrue result (Both (HasTheme (theme_told colors.now)) screen.old.value screen.new.value) }
    ensures refused { OnFalse result ((screen.old.value ≡ None) × (screen.new.value ≡ None)) }
{
    match screen.take(alloc) {
        None => false,
        Some(mut held) => {
            held.tell_theme(colors.theme());
            screen.put(held);
            true
        }
    }
}
