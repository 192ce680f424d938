//! Where a text has characters that terminals take for controls.
ghost use Rattle.std.specs.Prelude.{◌≡◌, ◌<◌, ◌≤◌, ◌++◌, length, not, filter, map, IsUtf8};
ghost use Rattle.std.specs.Str.{chars};
ghost use Rattle.std.specs.Simd.Lanes.{mask_l};
ghost use Rattle.anstyle_parse.specs.Stream.Items.{EachIs};
ghost use Rattle.ansi_strip.specs.Driving.{is_clear, may_begin_driving, driving_width, StopsAtDriving, PassTo};
ghost use Rattle.ansi_strip.specs.EightBit.{is_eight_bit};
ghost use Rattle.ansi_strip.specs.Inert.{is_driving};

use std::simd::prelude::*;

/// How many bytes are tested at once in a long text.
const BLOCK: usize = 64;

/// How many bytes are tested at once in a shorter text, or in what is left of a long one.
const CHUNK: usize = 16;

/// The character of one byte that drives a terminal.
const DEL: u8 = 0x7F;

/// The byte that U+0080 to U+009F begin with, as U+00A0 to U+00BF do.
const LEAD: u8 = 0xC2;

/// Whether a terminal takes the character for a control, though it is no C0 control: DEL or U+0080 to U+009F.
#[inline(always)]
#[tactic(auto, unfolding(crate::specs::Inert::is_driving))]
pub fn is_driving(c: char) -> bool
    ensures { result ≡ is_driving c }
{
    let number = u32::from(c);
    0x7F <= number && number <= 0x9F
}

/// Whether such a character may begin with the byte.
#[inline(always)]
#[tactic(auto, unfolding(crate::specs::Driving::may_begin_driving))]
fn may_begin_driving(byte: u8) -> bool
    ensures { result ≡ may_begin_driving byte }
{
    byte == DEL || byte == LEAD
}

/// A bit for each of many bytes: whether such a character may begin with it.
#[inline(always)]
fn beginnings<const N: usize>(bytes: Simd<u8, N>) -> u64
    requires { N ≤ 64 }
    ensures { result ≡ mask_l (map may_begin_driving bytes.entry) }
{
    (bytes.simd_eq(Simd::splat(DEL)) | bytes.simd_eq(Simd::splat(LEAD))).to_bitmask()
}

/// What comes after the blocks of `N` bytes at the front in which no such character may begin.
#[inline(always)]
fn after_blocks<const N: usize>(bytes: &[u8]) -> &[u8]
    requires some { 0 < N }
    requires few { N ≤ 64 }
    ensures { PassTo is_clear bytes.now result.now }
{
    let mut rest = bytes;
    'many: while let Some((block, behind)) = rest.split_first_chunk::<N>() {
        if beginnings(Simd::from_array(*block)) != 0 {
            break;
        }
        rest = behind;
    }
    rest
}

/// What comes after the bytes at the front with which none may begin.
#[inline(always)]
fn after_bytes(bytes: &[u8]) -> &[u8]
    ensures { PassTo is_clear bytes.now result.now }
{
    let mut rest = bytes;
    'bytes: while let Some((first, behind)) = rest.split_first() {
        if may_begin_driving(*first) {
            break;
        }
        rest = behind;
    }
    rest
}

/// What begins at the first byte with which one may begin.
#[inline(always)]
fn from_beginning(bytes: &[u8]) -> &[u8]
    ensures { PassTo is_clear bytes.now result.now }
{
    let rest = after_blocks::<BLOCK>(bytes);
    let few = after_blocks::<CHUNK>(rest);
    after_bytes(few)
}

/// Whether the two bytes are one of U+0080 to U+009F.
#[inline(always)]
#[tactic(auto, unfolding(crate::specs::EightBit::is_eight_bit))]
fn is_eight_bit(first: u8, second: u8) -> bool
    ensures { result ≡ is_eight_bit first second }
{
    first == LEAD && 0x80 <= second && second <= 0x9F
}

/// How many bytes the character has that comes first, if it is such a one; else 0.
#[inline(always)]
fn driving_width(bytes: &[u8]) -> usize
    ensures { result ≡ driving_width bytes.now }
{
    let Some((first, behind)) = bytes.split_first() else {
        return 0;
    };
    if *first == DEL {
        return 1;
    }
    let Some((second, _)) = behind.split_first() else {
        return 0;
    };
    if is_eight_bit(*first, *second) { 2 } else { 0 }
}

/// What begins at the first such character.
fn from_driving(bytes: &[u8]) -> &[u8]
    ensures { StopsAtDriving bytes.now result.now }
{
    let mut at = from_beginning(bytes);
    'at: while driving_width(at) == 0 {
        let Some((_, behind)) = at.split_first() else {
            break;
        };
        at = from_beginning(behind);
    }
    at
}

/// The front of a text, up to the first character that [`is_driving`], and what comes after that character.
pub fn split_at_driving(text: &str) -> (&str, &str)
    ensures characters { filter (λ c. not (is_driving c)) (chars text.now)
        ≡ chars result.0.now ++ filter (λ c. not (is_driving c)) (chars result.1.now) }
    ensures shorter { 0 < length text.now → length result.1.now < length text.now }
    ensures front { IsUtf8 result.0.now }
    ensures text { IsUtf8 result.1.now }
{
    let bytes = text.as_bytes();
    let rest = from_driving(bytes);
    let end = bytes.len() - rest.len();
    let behind = end + driving_width(rest);
    (&text[..end], &text[behind..])
}
