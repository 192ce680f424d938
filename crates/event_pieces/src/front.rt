//! Short texts and few fields: looked at and moved by a whole block, whatever their length is.
ghost use Rattle.std.specs.Prelude.{◌≡◌, ◌≤◌, ◌<◌, ◌-◌, ◌*◌, ◌++◌, ◌∷◌, [], ℕ, map, length, take, drop, get_or, not, IsTrue};
ghost use Rattle.std.specs.Simd.Lanes.{mask_l};
ghost use Rattle.anstyle_parse.specs.Stream.Items.{EachIs};
ghost use Rattle.anstyle_parse.specs.Stream.Texts.{is_layout};
ghost use Rattle.event_pieces.specs.Event.{groups_bytes};

use anstyle_parse::Padded;
use std::simd::prelude::*;

/// How many bytes are moved at once.
pub(crate) const BLOCK: usize = 16;

/// How many fields stand in so many bytes.
pub(crate) const FIELDS_OF_A_BLOCK: usize = 5;

/// Where each byte of a block of fields comes from: a field has two bytes, and a zero after them. The zero is number
/// 16, the first of the zero bytes that the sixteen bytes of the fields are shuffled with.
const PLACES: [usize; BLOCK] = [0, 1, 16, 2, 3, 16, 4, 5, 16, 6, 7, 16, 8, 9, 16, 16];

/// The first fields of a header as they stand in the room, each of them a group of its own.
#[inline(always)]
pub(crate) fn fields_block(fields: &[u16; 32]) -> [u8; BLOCK]
    ensures { (count : ℕ) → count ≤ 5 → take (3 * count) result
        ≡ groups_bytes (map (λ field. field ∷ []) (take count fields.now)) }
{
    spread(u16x8::from_slice(fields))
}

/// The same, of no more fields.
#[inline(always)]
fn spread(fields: u16x8) -> [u8; BLOCK]
    ensures { (count : ℕ) → count ≤ 5 → take (3 * count) result
        ≡ groups_bytes (map (λ field. field ∷ []) (take count fields)) }
{
    fields
        .to_le_bytes()
        .shuffle(u8x16::splat(0), PLACES)
        .to_array()
}

/// A bit for each byte, the lowest for the first: whether it is a layout control.
#[inline(always)]
fn layouts(bytes: u8x16) -> u64
    ensures { result ≡ mask_l (map is_layout bytes) }
{
    (bytes.simd_eq(u8x16::splat(b'\t'))
        | bytes.simd_eq(u8x16::splat(b'\n'))
        | bytes.simd_eq(u8x16::splat(b'\r'))).to_bitmask()
}

/// How many bytes of a text come before its first layout control.
#[inline(always)]
pub(crate) fn before_layout(text: &Padded<'_>) -> usize
    ensures within { result ≤ length text.now }
    ensures shown { EachIs (λ b. not (is_layout b)) (take result text.now) }
    ensures ends { result < length text.now → IsTrue (is_layout (get_or text.now result 0)) }
{
    let found = layouts(u8x16::from_array(*text.chunk()));
    (found.trailing_zeros() as usize).min(text.len())
}

/// What a text has from a place on, at the front of another block.
#[inline(always)]
pub(crate) fn from_place(text: &Padded<'_>, place: usize) -> [u8; BLOCK]
    requires { place ≤ length text.now }
    ensures { take (length text.now - place) result ≡ drop place text.now }
{
    let mut wide = [0; 2 * BLOCK];
    wide[..BLOCK].copy_from_slice(text.chunk());
    let mut moved = [0; BLOCK];
    moved.copy_from_slice(&wide[place..place + BLOCK]);
    moved
}
