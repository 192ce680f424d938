//! Where a text has carriage returns.
ghost use Rattle.std.specs.Prelude.{◌≡◌, ◌==◌, ◌++◌, ◌∷◌, map, IfSome, IfNone};
ghost use Rattle.std.specs.Simd.Lanes.{mask_l};
ghost use Rattle.anstyle_parse.specs.Stream.Items.{EachIs};
ghost use Rattle.ansi_strip.specs.Driving.{PassTo};
ghost use Rattle.ansi_strip.specs.LineFeeds.{is_of_line};

use std::simd::prelude::*;

/// A carriage return.
pub(crate) const RETURN: u8 = b'\r';

/// How many bytes are tested at once.
const CHUNK: usize = 16;

/// A bit for each of sixteen bytes: whether it is a carriage return.
#[inline(always)]
fn returns(bytes: u8x16) -> u64
    ensures { result ≡ mask_l (map (λ byte. byte == 0x0D) bytes) }
{
    bytes.simd_eq(u8x16::splat(RETURN)).to_bitmask()
}

/// What comes after the chunks at the front that have none.
#[inline(always)]
fn after_chunks(bytes: &[u8]) -> &[u8]
    ensures { PassTo is_of_line bytes.now result.now }
{
    let mut rest = bytes;
    'chunks: while let Some((chunk, behind)) = rest.split_first_chunk::<CHUNK>() {
        if returns(u8x16::from_array(*chunk)) != 0 {
            break;
        }
        rest = behind;
    }
    rest
}

/// The bytes up to the first carriage return; and what comes after that.
#[inline]
pub(crate) fn split_at_return(bytes: &[u8]) -> (&[u8], Option<&[u8]>)
    ensures line { EachIs is_of_line result.0.now }
    ensures found { IfSome result.1 (λ behind. bytes.now ≡ result.0.now ++ 0x0D ∷ behind.now) }
    ensures none { IfNone result.1 (bytes.now ≡ result.0.now) }
{
    let mut rest = after_chunks(bytes);
    'bytes: while let Some((first, behind)) = rest.split_first() {
        if *first == RETURN {
            return (&bytes[..bytes.len() - rest.len()], Some(behind));
        }
        rest = behind;
    }
    (bytes, None)
}
