//! What comes after the bytes of a kind, and what begins with one.
ghost use Rattle.std.specs.Prelude.{◌≡◌, drop};
ghost use Rattle.std.specs.List.{prefix_len, position_or_len};

use crate::kind::{CHUNK, Kind};
use std::simd::prelude::*;

/// What comes after the bytes of the kind at the front, which are looked for by sixteen at once.
#[inline(always)]
pub fn after_front<K: Kind>(bytes: &[u8]) -> &[u8]
    ensures { result.now ≡ drop (prefix_len K.holds bytes.now) bytes.now }
{
    let mut rest = bytes;
    'chunks: while let Some((chunk, further)) = rest.split_first_chunk::<CHUNK>() {
        let found = K::others(u8x16::from_array(*chunk));
        if found != 0 {
            let (_, others) = rest.split_at(found.trailing_zeros() as usize);
            return others;
        }
        rest = further;
    }
    after_few::<K>(rest)
}

/// The same, byte by byte.
#[inline(always)]
fn after_few<K: Kind>(bytes: &[u8]) -> &[u8]
    ensures { result.now ≡ drop (prefix_len K.holds bytes.now) bytes.now }
{
    let mut rest = bytes;
    'bytes: while let Some((first, further)) = rest.split_first() {
        if !K::holds(*first) {
            break;
        }
        rest = further;
    }
    rest
}

/// What begins at the first byte of the kind, which is looked for byte by byte.
pub fn from_first<K: Kind>(bytes: &[u8]) -> &[u8]
    ensures { result.now ≡ drop (position_or_len K.holds bytes.now) bytes.now }
{
    let mut rest = bytes;
    'bytes: while let Some((first, further)) = rest.split_first() {
        if K::holds(*first) {
            break;
        }
        rest = further;
    }
    rest
}
