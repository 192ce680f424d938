//! The calls of a stream in pieces. `include/ansi_events.h` declares these functions, and says what their
//! caller owes.
ghost use Rattle.std.specs.Prelude.{◌≡◌, []};
ghost use Rattle.std.specs.Bool.{OnTrue, OnFalse};
ghost use Rattle.stream_state.specs.State.{StandsFor};
ghost use Rattle.event_pieces.specs.Cut.{TellsCut};
ghost use Rattle.event_pieces.specs.Ends.{FindsEnds};
ghost use Rattle.event_pieces.specs.Feed.{Feeds, Refuses};
ghost use Rattle.ansi.specs.Counts.{counts};

use event_pieces::{Event, feed, find_ends, may_be_cut};
use stream_state::StreamState;

/// Makes the state one that begins a stream.
#[unsafe(no_mangle)]
pub extern "C" fn ansi_events_init(state: &mut StreamState)
    ensures { StandsFor state.new [] }
{
    *state = StreamState::new();
}

/// Takes bytes from the front of the piece, and writes their calls to the front of the events and of the
/// room: [`feed`]. The numbers are 0 where it answers false.
#[unsafe(no_mangle)]
pub extern "C" fn ansi_events_feed(
    state: &mut StreamState,
    piece: &[u8],
    events: &mut [Event],
    room: &mut [u8],
    taken: &mut usize,
    written: &mut usize,
    used: &mut usize,
) -> bool
    ensures fed { OnTrue result (Feeds state.old state.new piece.now events.old events.new room.old room.new
        (counts taken.new written.new used.new)) }
    ensures refused { OnFalse result (Refuses state.old state.new piece.now events.old events.new room.old room.new) }
    ensures none_taken { OnFalse result (taken.new ≡ 0) }
    ensures none_written { OnFalse result (written.new ≡ 0) }
    ensures none_used { OnFalse result (used.new ≡ 0) }
{
    match feed(state, piece, events, room) {
        Some(fed) => {
            (*taken, *written, *used) = (fed.taken, fed.written, fed.used);
            true
        }
        None => {
            (*taken, *written, *used) = (0, 0, 0);
            false
        }
    }
}

/// Writes where each record of these bytes ends, of as many as there are places for, and answers how many:
/// [`find_ends`]. The state is that before the bytes.
#[unsafe(no_mangle)]
pub extern "C" fn ansi_events_ends(before: &StreamState, bytes: &[u8], ends: &mut [usize]) -> usize
    ensures { FindsEnds before.now bytes.now ends.old ends.new result }
{
    find_ends(before, bytes, ends)
}

/// Whether a command may have been cut: [`may_be_cut`].
#[unsafe(no_mangle)]
pub extern "C" fn ansi_events_may_be_cut(event: &Event, room: &[u8]) -> bool
    ensures { TellsCut room.now event.now result }
{
    may_be_cut(event, room)
}
