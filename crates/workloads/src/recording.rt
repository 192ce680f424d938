//! A recording of a full-screen program, which is read frame by frame.
ghost use Rattle.std.specs.Prelude.{None, false};

use anstyle_parse::io::Source;
use std::alloc::AllocError;

/// What is left of a recording. Before each frame stands its length, in two bytes, the lower one first.
#[derive(Drop)]
pub struct Recording<'a> {
    left: &'a [u8],
}

/// Adds a frame to a recording: no more of it than two bytes can count.
pub fn put_frame(recording: &mut Vec<u8>, frame: &[u8]) -> Result<(), AllocError> {
    let length = frame.len().min(usize::from(u16::MAX)) as u16;
    recording.extend_from_slice(&length.to_le_bytes())?;
    recording.extend_from_slice(&frame[..usize::from(length)])
}

impl<'a> Recording<'a> {
    /// All of a recording.
    pub fn new(recording: &'a [u8]) -> Recording<'a> {
        Recording { left: recording }
    }

    /// Takes the next frame; `None` at the end.
    fn next_frame(&mut self) -> Option<&'a [u8]> {
        let [low, high, rest @ ..] = self.left else {
            return None;
        };
        let length = usize::from(u16::from_le_bytes([*low, *high]));
        let (frame, left) = rest.split_at_checked(length)?;
        self.left = left;
        Some(frame)
    }
}

/// One read gives one frame, as one write of the program gave it; or its front, where it doesn't fit.
impl Source for Recording<'_> {
    ghost remaining = { λ _. None };

    ghost has_failed = { λ _. false };

    ghost zero_is_end = { false };

    fn read(&mut self, into: &mut [u8]) -> Option<usize> {
        let frame = self.next_frame().unwrap_or(&[]);
        let count = frame.len().min(into.len());
        into[..count].copy_from_slice(&frame[..count]);
        Some(count)
    }
}
