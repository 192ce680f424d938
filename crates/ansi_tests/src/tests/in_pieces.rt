//! A stream in pieces of one byte, by a state that is kept between them.
use super::assert_bytes;
use safe_pieces::SafeState;
use std::alloc::AllocError;
use std::process::Abort;
use stream_state::Fed;
use strip_pieces::LineState;

/// What is kept of a stream between two pieces.
pub trait Kept {
    /// Takes a piece, and says how much of it, and how much was written to the room.
    fn take(&mut self, piece: &[u8], room: &mut [u8]) -> Option<Fed>;

    /// Ends the stream, and says how much was written to the room.
    fn finish(&mut self, room: &mut [u8]) -> Option<usize>;
}

impl Kept for LineState {
    fn take(&mut self, piece: &[u8], room: &mut [u8]) -> Option<Fed> {
        self.feed(piece, room)
    }

    fn finish(&mut self, room: &mut [u8]) -> Option<usize> {
        self.end(room)
    }
}

impl Kept for SafeState {
    fn take(&mut self, piece: &[u8], room: &mut [u8]) -> Option<Fed> {
        self.feed(piece, room)
    }

    fn finish(&mut self, room: &mut [u8]) -> Option<usize> {
        self.end(room)
    }
}

/// Adds the front of a room to a text.
fn add(text: &mut Vec<u8>, room: &[u8], written: usize) -> Result<(), AllocError> {
    if written <= room.len() {
        text.extend_from_slice(&room[..written])?;
    }
    Ok(())
}

/// The bytes of a stream one by one, and then its end, lead to this text.
pub fn assert_text<K: Kept>(
    rt: &(impl Abort + AllocGlobal),
    state: &mut K,
    room: &mut [u8],
    stream: &[u8],
    wanted: &[u8],
) -> Result<(), AllocError> {
    let mut text = Vec::new(rt.alloc());
    for byte in stream {
        let Some(Fed { taken: 1, written }) = state.take(&[*byte], room) else {
            assert!(rt; false, "{byte} was not taken");
            return Ok(());
        };
        add(&mut text, room, written)?;
    }
    if let Some(written) = state.finish(room) {
        add(&mut text, room, written)?;
    }
    assert_bytes(rt, text.as_slice(), wanted);
    Ok(())
}
