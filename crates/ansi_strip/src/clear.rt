//! Whether a text is clear: of ASCII alone, and with no DEL. That is looked at many bytes at once.
ghost use Rattle.std.specs.Prelude.{◌≡◌, ◌<◌, ◌≤◌, ◌*◌, length, IsTrue};
ghost use Rattle.anstyle_parse.specs.Stream.Items.{EachIs};
ghost use Rattle.ansi_strip.specs.Driving.{is_clear, PassTo};

use anstyle_parse::Padded;
use std::simd::prelude::*;

/// The bytes of a block of a long text.
const LONG: usize = 128;

/// The bytes of a block of any other.
const BLOCK: usize = 32;

/// A bit for each place where the first `N` bytes or the last are not clear: where the larger of two is 7F or more.
#[inline(always)]
fn unclear<const N: usize>(first: Simd<u8, N>, last: Simd<u8, N>) -> u64
    requires { N ≤ 64 }
    ensures { result ≡ 0 → EachIs is_clear first.entry × EachIs is_clear last.entry }
{
    first.simd_max(last).simd_ge(Simd::splat(0x7F)).to_bitmask()
}

/// Whether bytes are clear that are `N` to twice as many.
#[inline(always)]
fn are_clear<const N: usize>(bytes: &[u8]) -> bool
    requires { N ≤ 64 }
    ensures { IsTrue result → length bytes.now ≤ 2 * N → EachIs is_clear bytes.now }
{
    match (bytes.first_chunk::<N>(), bytes.last_chunk::<N>()) {
        (Some(first), Some(last)) => {
            unclear(Simd::from_array(*first), Simd::from_array(*last)) == 0
        }
        _ => false,
    }
}

/// What comes after the blocks at the front that are clear, each of `WHOLE` bytes: of two halves of `HALF`.
/// No const parameter is computed from another, so both are given.
#[inline(always)]
fn after_blocks<const WHOLE: usize, const HALF: usize>(bytes: &[u8]) -> &[u8]
    requires some { 0 < WHOLE }
    requires halves { WHOLE ≤ 2 * HALF }
    requires few { HALF ≤ 64 }
    ensures { PassTo is_clear bytes.now result.now }
{
    let mut rest = bytes;
    'many: while let Some((block, behind)) = rest.split_first_chunk::<WHOLE>() {
        if !are_clear::<HALF>(block) {
            break;
        }
        rest = behind;
    }
    rest
}

/// Whether a text is clear that is not short.
#[inline(never)]
fn is_long_clear(bytes: &[u8]) -> bool
    ensures { IsTrue result → EachIs is_clear bytes.now }
{
    let rest = after_blocks::<LONG, 64>(bytes);
    let few = after_blocks::<BLOCK, 16>(rest);
    is_short_clear(few)
}

/// Whether a byte is clear.
#[inline(always)]
#[tactic(auto, unfolding(crate::specs::Driving::may_begin_driving))]
fn is_clear_byte(byte: u8) -> bool
    ensures { IsTrue result → IsTrue (is_clear byte) }
{
    byte < 0x7F
}

/// Whether the few bytes of a short text, or what is left of a long one, are clear.
#[inline(always)]
fn is_short_clear(bytes: &[u8]) -> bool
    ensures { IsTrue result → EachIs is_clear bytes.now }
{
    match bytes {
        [] => true,
        [first] => is_clear_byte(*first),
        [first, second] => is_clear_byte(*first) && is_clear_byte(*second),
        [first, second, third] => {
            is_clear_byte(*first) && is_clear_byte(*second) && is_clear_byte(*third)
        }
        _ if bytes.len() <= 8 => are_clear::<4>(bytes),
        _ if bytes.len() <= 16 => are_clear::<8>(bytes),
        _ if bytes.len() <= BLOCK => are_clear::<16>(bytes),
        _ => false,
    }
}

/// Whether a text is clear, so that no character in it drives a terminal: of ASCII alone, with no DEL.
#[inline(always)]
pub fn is_clear(bytes: &[u8]) -> bool
    ensures { IsTrue result → EachIs is_clear bytes.now }
{
    if bytes.len() <= BLOCK {
        is_short_clear(bytes)
    } else {
        is_long_clear(bytes)
    }
}

/// The same of a text that may be read sixteen bytes past its start. 0xFF is subtracted, and what falls below 0 wraps:
/// so 0x7F to 0xFE become 0x80 to 0xFF, which one comparison finds. 0xFF becomes 0 and passes: it begins no
/// character that drives a terminal.
#[inline(always)]
pub fn is_clear_padded(text: &Padded<'_>) -> bool
    ensures { IsTrue result → EachIs is_clear text.now }
{
    let unclear = (u8x16::from_array(*text.chunk()) - u8x16::splat(0xFF))
        .simd_ge(u8x16::splat(0x80))
        .to_bitmask();
    unclear.trailing_zeros() as usize >= text.len()
}
