//! Text whose lines are to end with a line feed alone, in pieces. `include/ansi_strip.h` declares these functions, and
//! says what their caller owes.
ghost use Rattle.std.specs.Prelude.{◌≡◌, []};
ghost use Rattle.std.specs.Bool.{OnTrue, OnFalse};
ghost use Rattle.strip_pieces.specs.Lines.{StandsForText, Feeds, Refuses, Ends, RefusesEnd};

use strip_pieces::LineState;

/// Makes the state one that begins a text.
#[unsafe(no_mangle)]
pub extern "C" fn ansi_lf_init(state: &mut LineState)
    ensures { StandsForText state.new [] }
{
    *state = LineState::new();
}

/// Takes bytes from the front of the text, and writes them to the front of the room, without each carriage return right
/// before a line feed: [`LineState::feed`]. The numbers are 0 where it answers false.
#[unsafe(no_mangle)]
pub extern "C" fn ansi_lf_feed(
    state: &mut LineState,
    text: &[u8],
    room: &mut [u8],
    taken: &mut usize,
    written: &mut usize,
) -> bool
    ensures fed { OnTrue result (Feeds state.old state.new text.now room.old room.new taken.new written.new) }
    ensures refused { OnFalse result (Refuses state.old state.new text.now room.old room.new) }
    ensures none_taken { OnFalse result (taken.new ≡ 0) }
    ensures none_written { OnFalse result (written.new ≡ 0) }
{
    match state.feed(text, room) {
        Some(fed) => {
            (*taken, *written) = (fed.taken, fed.written);
            true
        }
        None => {
            (*taken, *written) = (0, 0);
            false
        }
    }
}

/// Writes the carriage return that waits to the front of the room, if one does, and the state begins a text:
/// [`LineState::end`]. The number is 0 where it answers false.
#[unsafe(no_mangle)]
pub extern "C" fn ansi_lf_end(state: &mut LineState, room: &mut [u8], written: &mut usize) -> bool
    ensures ended { OnTrue result (Ends state.old state.new room.old room.new written.new) }
    ensures refused { OnFalse result (RefusesEnd state.old state.new room.old room.new) }
    ensures none_written { OnFalse result (written.new ≡ 0) }
{
    match state.end(room) {
        Some(count) => {
            *written = count;
            true
        }
        None => {
            *written = 0;
            false
        }
    }
}
