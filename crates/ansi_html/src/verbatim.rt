//! Verbatim text, which is its own HTML.
ghost use Rattle.std.specs.Prelude.{◌≡◌};
ghost use Rattle.std.specs.List.{prefix_len};
ghost use Rattle.ansi_html.specs.Verbatim.{is_verbatim};

use lanes::{Kind, after_front};
use std::simd::prelude::*;

/// The bytes of verbatim text.
struct Verbatim;

impl Kind for Verbatim {
    ghost use Rattle.ansi_html.specs.Verbatim.{is_verbatim};

    ghost holds = { is_verbatim };

    #[inline(always)]
    #[tactic(auto, unfolding(crate::specs::Verbatim::is_verbatim, crate::specs::Grammar::is_text_byte, crate::specs::Grammar::is_special))]
    fn holds(byte: u8) -> bool {
        matches!(byte, 0x09..=0x0A | 0x20..=0x21 | 0x23..=0x25 | 0x28..=0x3B | 0x3D | 0x3F..=0x7F)
    }

    // 0x20 is subtracted, and a byte below that wraps to 0xE0 or more: so one comparison finds what is outside of 0x20
    // to 0x7F. In the same way one finds what is neither 0x09 nor 0x0A. `"` and `&` differ in one bit, which is masked
    // so that one comparison finds both; so do `<` and `>`.
    #[inline(always)]
    fn others(bytes: u8x16) -> u64 {
        let unprinted = (bytes - u8x16::splat(0x20)).simd_ge(u8x16::splat(0x60));
        let no_layout = (bytes - u8x16::splat(b'\t')).simd_ge(u8x16::splat(2));
        let special = (bytes & u8x16::splat(0xFB)).simd_eq(u8x16::splat(b'"'))
            | (bytes.simd_eq(u8x16::splat(b'\''))
                | (bytes & u8x16::splat(0xFD)).simd_eq(u8x16::splat(b'<')));
        (unprinted & no_layout | special).to_bitmask()
    }
}

/// How many bytes of verbatim text come first: ASCII from the space on, tabs and line feeds, but none of
/// `& < > " '`. In the midst of text of an element they are their own HTML.
pub fn verbatim_length(bytes: &[u8]) -> usize
    ensures { result ≡ prefix_len is_verbatim bytes.now }
{
    bytes.len() - after_front::<Verbatim>(bytes).len()
}
