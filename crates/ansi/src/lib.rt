//! The stripper, safe text, the HTML and the calls of a stream in pieces, for C and for what calls C.
//! `include/ansi_strip.h`, `include/ansi_safe.h`, `include/ansi_html.h` and `include/ansi_events.h` declare them, and
//! say what their caller owes.
#![tactic(auto)]

ghost use Rattle.std.specs.Prelude.{◌≡◌, []};
ghost use Rattle.std.specs.Bool.{OnTrue, OnFalse};
ghost use Rattle.strip_pieces.specs.Feed.{Feeds, Refuses, Ends as EndsText, RefusesEnd as RefusesEndOfText};
ghost use Rattle.stream_state.specs.Log.{StandsForLog};
ghost use Rattle.html_pieces.specs.State.{styling_in, styling_numbered, StandsFor as HtmlStandsFor};
ghost use Rattle.html_pieces.specs.Feed.{Feeds as FeedsHtml, Refuses as RefusesHtml, Ends, RefusesEnd};

mod events;
mod lf;
mod safe;

use html_pieces::HtmlState;
use stream_state::StreamState;

/// Makes the state one that begins a stream.
#[unsafe(no_mangle)]
pub extern "C" fn ansi_strip_init(state: &mut StreamState)
    ensures { StandsForLog state.new [] }
{
    *state = StreamState::new();
}

/// Takes bytes from the front of the piece, and writes their inert text to the front of the
/// room: [`strip_pieces::feed`]. The numbers are 0 where it answers false.
#[unsafe(no_mangle)]
pub extern "C" fn ansi_strip_feed(
    state: &mut StreamState,
    piece: &[u8],
    room: &mut [u8],
    taken: &mut usize,
    written: &mut usize,
) -> bool
    ensures fed { OnTrue result (Feeds state.old state.new piece.now room.old room.new taken.new written.new) }
    ensures refused { OnFalse result (Refuses state.old state.new piece.now room.old room.new) }
    ensures none_taken { OnFalse result (taken.new ≡ 0) }
    ensures none_written { OnFalse result (written.new ≡ 0) }
{
    match strip_pieces::feed(state, piece, room) {
        Some(fed) => {
            *taken = fed.taken;
            *written = fed.written;
            true
        }
        None => {
            *taken = 0;
            *written = 0;
            false
        }
    }
}

/// Writes what the end of the stream leads to, to the front of the room, and the state begins a stream:
/// [`strip_pieces::end`]. The number is 0 where it answers false.
#[unsafe(no_mangle)]
pub extern "C" fn ansi_strip_end(
    state: &mut StreamState,
    room: &mut [u8],
    written: &mut usize,
) -> bool
    ensures ended { OnTrue result (EndsText state.old state.new room.old room.new written.new) }
    ensures refused { OnFalse result (RefusesEndOfText state.old state.new room.old room.new) }
    ensures none_written { OnFalse result (written.new ≡ 0) }
{
    match strip_pieces::end(state, room) {
        Some(count) => {
            *written = count;
            true
        }
        None => {
            *written = 0;
            false
        }
    }
}

/// Makes the state one that begins a stream, in the styling of this number.
#[unsafe(no_mangle)]
pub extern "C" fn ansi_html_init(state: &mut HtmlState, styling: u8)
    ensures begins { HtmlStandsFor state.new [] }
    ensures styling { styling_in state.new ≡ styling_numbered styling }
{
    *state = HtmlState::of(styling);
}

/// Takes bytes from the front of the piece, and writes their HTML to the front of the room:
/// [`HtmlState::feed`]. The numbers are 0 where it answers false.
#[unsafe(no_mangle)]
pub extern "C" fn ansi_html_feed(
    state: &mut HtmlState,
    piece: &[u8],
    room: &mut [u8],
    taken: &mut usize,
    written: &mut usize,
) -> bool
    ensures fed { OnTrue result (FeedsHtml state.old state.new piece.now room.old room.new taken.new written.new) }
    ensures refused { OnFalse result (RefusesHtml state.old state.new piece.now room.old room.new) }
    ensures none_taken { OnFalse result (taken.new ≡ 0) }
    ensures none_written { OnFalse result (written.new ≡ 0) }
{
    match state.feed(piece, room) {
        Some(fed) => {
            (*taken, *written) = (fed.taken, fed.written);
            true
        }
        None => {
            (*taken, *written) = (0, 0);
            false
        }
    }
}

/// Writes what ends the HTML to the front of the room, and the state begins a stream:
/// [`HtmlState::end`]. The number is 0 where it answers false.
#[unsafe(no_mangle)]
pub extern "C" fn ansi_html_end(state: &mut HtmlState, room: &mut [u8], written: &mut usize) -> bool
    ensures ended { OnTrue result (Ends state.old state.new room.old room.new written.new) }
    ensures refused { OnFalse result (RefusesEnd state.old state.new room.old room.new) }
    ensures none_written { OnFalse result (written.new ≡ 0) }
{
    match state.end(room) {
        Some(count) => {
            *written = count;
            true
        }
        None => {
            *written = 0;
            false
        }
    }
}
