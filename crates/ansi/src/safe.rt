//! Safe text of a stream in pieces. `include/ansi_safe.h` declares these functions, and says what their caller owes.
ghost use Rattle.std.specs.Prelude.{◌≡◌, []};
ghost use Rattle.std.specs.Bool.{OnTrue, OnFalse};
ghost use Rattle.safe_pieces.specs.State.{StandsFor};
ghost use Rattle.safe_pieces.specs.Feed.{Feeds, Refuses, Ends, RefusesEnd};

use safe_pieces::SafeState;

/// Makes the state one that begins a stream.
#[unsafe(no_mangle)]
pub extern "C" fn ansi_safe_init(state: &mut SafeState)
    ensures { StandsFor state.new [] }
{
    *state = SafeState::new();
}

/// Takes bytes from the front of the piece, and writes their safe text to the front of the room:
/// [`SafeState::feed`]. The numbers are 0 where it answers false.
#[unsafe(no_mangle)]
pub extern "C" fn ansi_safe_feed(
    state: &mut SafeState,
    piece: &[u8],
    room: &mut [u8],
    taken: &mut usize,
    written: &mut usize,
) -> bool
    ensures fed { OnTrue result (Feeds state.old state.new piece.now room.old room.new taken.new written.new) }
    ensures refused { OnFalse result (Refuses state.old state.new piece.now room.old room.new) }
    ensures none_taken { OnFalse result (taken.new ≡ 0) }
    ensures none_written { OnFalse result (written.new ≡ 0) }
{
    match state.feed(piece, room) {
        Some(fed) => {
            (*taken, *written) = (fed.taken, fed.written);
            true
        }
        None => {
            (*taken, *written) = (0, 0);
            false
        }
    }
}

/// Writes the rest of the safe text to the front of the room, and the state begins a stream:
/// [`SafeState::end`]. The number is 0 where it answers false.
#[unsafe(no_mangle)]
pub extern "C" fn ansi_safe_end(state: &mut SafeState, room: &mut [u8], written: &mut usize) -> bool
    ensures ended { OnTrue result (Ends state.old state.new room.old room.new written.new) }
    ensures refused { OnFalse result (RefusesEnd state.old state.new room.old room.new) }
    ensures none_written { OnFalse result (written.new ≡ 0) }
{
    match state.end(room) {
        Some(count) => {
            *written = count;
            true
        }
        None => {
            *written = 0;
            false
        }
    }
}
