//! Printed ASCII in texts.
use lanes::{AsciiKind, Kind};
use std::simd::prelude::*;

/// The characters of ASCII that are printed.
pub(crate) struct PrintedAscii;

impl Kind for PrintedAscii {
    ghost use Rattle.ansi_screen.specs.Runs.{is_printed_ascii};

    ghost holds = { is_printed_ascii };

    #[inline(always)]
    #[tactic(auto, unfolding(anstyle_parse::specs::Stream::Bytes::is_within))]
    fn holds(byte: u8) -> bool {
        matches!(byte, 0x20..=0x7E)
    }

    // 0x20 is subtracted, and a byte below that wraps to 0xE0 or more: so one comparison finds what is outside of 0x20
    // to 0x7E.
    #[inline(always)]
    fn others(bytes: u8x16) -> u64 {
        (bytes - u8x16::splat(0x20))
            .simd_ge(u8x16::splat(0x5F))
            .to_bitmask()
    }
}

impl AsciiKind for PrintedAscii {
    ghost use Rattle.ansi_screen.specs.TextsProof.{printed-low};

    ghost is_ascii = { printed-low };
}
