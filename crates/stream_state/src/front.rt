//! A short text put by a whole chunk, whatever its length is.
ghost use Rattle.std.specs.Prelude.{◌≡◌, ◌++◌, length, drop};

use anstyle_parse::Padded;
use std::simd::prelude::*;

/// How many bytes are put at once.
const CHUNK: usize = 16;

/// The place of each byte in a chunk.
const NUMBERS: [u8; CHUNK] = [0, 1, 2, 3, 4, 5, 6, 7, 8, 9, 10, 11, 12, 13, 14, 15];

/// A text, and after it the bytes that a chunk has there.
#[inline(always)]
fn with_front(front: &Padded<'_>, behind: &[u8; CHUNK]) -> [u8; CHUNK]
    ensures { result ≡ front.now ++ drop (length front.now) behind.now }
{
    u8x16::from_array(NUMBERS)
        .simd_lt(u8x16::splat(front.len() as u8))
        .select(
            u8x16::from_array(*front.chunk()),
            u8x16::from_array(*behind),
        )
        .to_array()
}

/// Puts a text at the front of a place of sixteen bytes. What the place has after it stays. The whole place is
/// written, so the copy has a fixed length, whatever the text's length is.
#[inline(always)]
pub fn put_over(place: &mut [u8], text: &Padded<'_>)
    requires sixteen { length place.old ≡ 16 }
    ensures { place.new ≡ text.now ++ drop (length text.now) place.old }
{
    let mut there = [0; CHUNK];
    there.copy_from_slice(place);
    place.copy_from_slice(&with_front(text, &there));
}
