//! Sixteen bytes, tested by one comparison.
ghost use Rattle.std.specs.Prelude.{◌≡◌, ◌≤◌, ◌<◌, ◌+◌, ◌-◌, map, not};
ghost use Rattle.std.specs.Simd.Lanes.{mask_l};
ghost use Rattle.anstyle_parse.specs.Stream.Bytes.{is_within, is_parameter, is_plain_text};
ghost use Rattle.anstyle_parse.specs.Stream.Texts.{is_layout};

use crate::controls::SPACE;
use std::simd::prelude::*;

/// How many bytes are tested at once.
pub(crate) const CHUNK: usize = 16;

/// The bytes of a chunk. They are loaded at once, also where some of them were looked at before.
#[inline(always)]
pub(crate) fn lanes(chunk: &[u8; CHUNK]) -> u8x16
    ensures { result ≡ chunk.now }
{
    u8x16::from_slice(chunk)
}

/// A bit for each byte, the lowest for the first: whether it is none of the `count` from `first` on. `first` is
/// subtracted, and a byte below that wraps to `count` or more: so one comparison with `count` finds what is below and
/// what is above.
#[inline(always)]
pub(crate) fn outside(bytes: u8x16, first: u8, count: u8) -> u64
    requires some { 0 < first }
    requires within { first + count ≤ 0x100 }
    ensures { result ≡ mask_l (map (λ b. not (is_within first (first - 1 + count) b)) bytes) }
{
    (bytes - u8x16::splat(first))
        .simd_ge(u8x16::splat(count))
        .to_bitmask()
}

/// The same: whether it is a layout control.
#[inline(always)]
pub(crate) fn layouts(bytes: u8x16) -> u64
    ensures { result ≡ mask_l (map is_layout bytes) }
{
    (bytes.simd_eq(u8x16::splat(b'\t'))
        | bytes.simd_eq(u8x16::splat(b'\n'))
        | bytes.simd_eq(u8x16::splat(b'\r'))).to_bitmask()
}

/// The same: whether it is a control below 20, or the separator of a command's parts.
#[inline(always)]
pub(crate) fn unplain(bytes: u8x16) -> u64
    ensures { result ≡ mask_l (map (λ b. not (is_plain_text b)) bytes) }
{
    (bytes.simd_lt(u8x16::splat(SPACE)) | bytes.simd_eq(u8x16::splat(b';'))).to_bitmask()
}

/// The same: whether it is no digit.
#[inline(always)]
pub(crate) fn beyond_digits(bytes: u8x16) -> u64
    ensures { result ≡ mask_l (map (λ b. not (is_within 0x30 0x39 b)) bytes) }
{
    outside(bytes, b'0', 10)
}

/// The same: whether it is none of the digits and separators of fields. These twelve stand one after another.
#[inline(always)]
pub(crate) fn beyond_fields(bytes: u8x16) -> u64
    ensures { result ≡ mask_l (map (λ b. not (is_parameter b)) bytes) }
{
    outside(bytes, b'0', 12)
}
