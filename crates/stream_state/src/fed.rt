//! What a call did with a piece.

/// What a call took and wrote.
#[derive(Debug, Clone, Copy, PartialEq, Eq)]
pub struct Fed {
    /// The bytes that were taken from the front of the piece.
    pub taken: usize,
    /// The bytes that were written to the front of the room.
    pub written: usize,
}
