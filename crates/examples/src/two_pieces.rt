//! A stream in two pieces, as the page of the crate `strip_pieces` shows it.
use stream_state::{Fed, StreamState};
use strip_pieces::feed;

pub fn strip_two_pieces(room: &mut [u8; 64]) -> (Option<Fed>, Option<Fed>) {
    let mut state = StreamState::new();
    let first = feed(&mut state, b"\x1B[3", room);
    let second = feed(&mut state, b"1mhi", room);
    (first, second)
}
