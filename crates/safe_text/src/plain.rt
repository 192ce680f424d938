//! Plain text, which is written as it is.
ghost use Rattle.std.specs.Prelude.{IsTrue};
ghost use Rattle.anstyle_parse.specs.Stream.Items.{EachIs};
ghost use Rattle.safe_text.specs.Plain.{is_plain};

use anstyle_parse::Padded;
use lanes::{AsciiKind, Kind};
use std::simd::prelude::*;

/// The characters of plain text.
pub(crate) struct Plain;

impl Kind for Plain {
    ghost use Rattle.safe_text.specs.Plain.{is_plain};

    ghost holds = { is_plain };

    #[inline(always)]
    #[tactic(auto, unfolding(anstyle_parse::specs::Stream::Bytes::is_within))]
    fn holds(byte: u8) -> bool {
        matches!(byte, 0x09..=0x0A | 0x20..=0x3B | 0x3D..=0x7E)
    }

    // 0x20 is subtracted, and a byte below that wraps to 0xE0 or more: so one comparison finds what is outside of 0x20
    // to 0x7E. In the same way one finds what is neither 0x09 nor 0x0A.
    #[inline(always)]
    fn others(bytes: u8x16) -> u64 {
        let unprinted = (bytes - u8x16::splat(0x20)).simd_ge(u8x16::splat(0x5F));
        let no_layout = (bytes - u8x16::splat(b'\t')).simd_ge(u8x16::splat(2));
        (unprinted & no_layout | bytes.simd_eq(u8x16::splat(b'<'))).to_bitmask()
    }
}

impl AsciiKind for Plain {
    ghost use Rattle.safe_text.specs.TakingProof.{plain-low};

    ghost is_ascii = { plain-low };
}

/// Whether a text is plain that may be read sixteen bytes past its start.
#[inline(always)]
pub(crate) fn is_plain_padded(text: &Padded<'_>) -> bool
    ensures { IsTrue result → EachIs is_plain text.now }
{
    let others = Plain::others(u8x16::from_array(*text.chunk()));
    others.trailing_zeros() as usize >= text.len()
}
