//! Tests of sixteen bytes at once, by SIMD.
ghost use Rattle.std.specs.Prelude.{◌≡◌, ◌≤◌, map, not, IsTrue, length, take};
ghost use Rattle.std.specs.Simd.Lanes.{mask_l};
ghost use Rattle.ansi_html.specs.Chunks.{PassAtEnd};
ghost use Rattle.ansi_html.specs.Grammar.{is_special, AreClear};
ghost use Rattle.ansi_html.specs.Links.{is_visible};

use std::simd::prelude::*;

/// How many bytes are tested at once.
pub(crate) const CHUNK: usize = 16;

/// A bit for each byte, the lowest for the first: whether it has a meaning in HTML.
#[inline(always)]
pub(crate) fn specials(bytes: u8x16) -> u64
    ensures { result ≡ mask_l (map is_special bytes) }
{
    (bytes.simd_eq(u8x16::splat(b'&'))
        | (bytes.simd_eq(u8x16::splat(b'<'))
            | (bytes.simd_eq(u8x16::splat(b'>'))
                | (bytes.simd_eq(u8x16::splat(b'"'))
                    | (bytes.simd_eq(u8x16::splat(b'\''))
                        | bytes.simd_eq(u8x16::splat(b'\r'))))))).to_bitmask()
}

/// How many bytes of a chunk come before the first with a meaning in HTML.
#[inline(always)]
pub(crate) fn clear_count(chunk: &[u8; CHUNK]) -> usize
    ensures within { result ≤ length chunk.now }
    ensures clear { AreClear (take result chunk.now) }
{
    let found = specials(u8x16::from_array(*chunk));
    if found == 0 {
        CHUNK
    } else {
        found.trailing_zeros() as usize
    }
}

/// A bit for each byte: whether it is a control, a space or not of ASCII.
#[inline(always)]
pub(crate) fn invisibles(bytes: u8x16) -> u64
    ensures { result ≡ mask_l (map (λ b. not (is_visible b)) bytes) }
{
    (bytes.simd_lt(u8x16::splat(0x21)) | bytes.simd_gt(u8x16::splat(0x7E))).to_bitmask()
}

/// Whether there are sixteen bytes, and none of the last sixteen is invisible.
#[inline(always)]
pub(crate) fn are_last_visible(bytes: &[u8]) -> bool
    ensures { IsTrue result → PassAtEnd is_visible bytes.now }
{
    match bytes.last_chunk::<CHUNK>() {
        Some(last) => invisibles(u8x16::from_array(*last)) == 0,
        None => false,
    }
}
