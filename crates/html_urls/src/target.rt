//! What a link to an address has: the address in ASCII.
ghost use Rattle.std.specs.Prelude.{◌≡◌, ◌<◌, ◌≤◌, ◌+◌, ◌++◌, ◌∷◌, [], ◌==◌, IfSome, IfNone, IsTrue, true, false, codes, length, map, take, count_by, nat_lt, encode_utf8};
ghost use Rattle.std.specs.List.{flat_map, slice_split};
ghost use Rattle.arrayvec.specs.ArrayVec.{array_vec_len};
ghost use Rattle.anstyle_parse.specs.Stream.Bytes.{semicolon};
ghost use Rattle.html_urls.specs.Addresses.{digit, escaped, in_link, scheme_of, target_of, max_held, max_separators, fits};

use crate::address::begins_with;
use crate::held::ROOM;
use arrayvec::ArrayVec;

/// The bytes of a link at most, and those of the one character more that shows that these are too few.
const CAPACITY: usize = ROOM - 1 + 12;

/// The separators in a link at most: the parser hands on sixteen parts of a command, and of fifteen none is cut off.
pub(crate) const MAX_SEPARATORS: usize = 12;

/// The parts of the command that begins a link at most: its number, no parameters, and those of the link.
pub(crate) const MAX_PARTS: usize = 3 + MAX_SEPARATORS;

/// What a link has, as far as it is written.
pub(crate) type Target = ArrayVec<u8, CAPACITY>;

/// A digit of sixteen.
fn digit(value: u8) -> u8
    requires { value < 16 }
    ensures { result ≡ digit value }
{
    if value < 10 {
        b'0' + value
    } else {
        b'A' - 10 + value
    }
}

/// Writes a byte as `%` and two digits.
fn put_escaped(target: &mut Target, byte: u8)
    requires room { array_vec_len target.old + 3 ≤ CAPACITY }
    ensures { target.new.items ≡ target.old.items ++ escaped byte }
{
    target.push(b'%');
    target.push(digit(byte / 16 % 16));
    target.push(digit(byte % 16));
}

/// Writes a character beyond ASCII.
fn put_beyond(target: &mut Target, c: char)
    requires room { array_vec_len target.old < ROOM }
    ensures { target.new.items ≡ target.old.items ++ flat_map escaped (encode_utf8 c) }
{
    let mut room = [0; 4];
    for byte in c.encode_utf8(&mut room).as_bytes() {
        put_escaped(target, *byte);
    }
}

/// Writes a character.
fn put_character(target: &mut Target, c: char)
    requires room { array_vec_len target.old < ROOM }
    ensures { target.new.items ≡ target.old.items ++ in_link c }
{
    let number = u32::from(c);
    if number < 0x80 {
        target.push(number as u8);
    } else {
        put_beyond(target, c);
    }
}

/// Writes a text, and tells whether a link has room for it.
fn put_text(target: &mut Target, text: &[char]) -> bool
    requires room { array_vec_len target.old < ROOM }
    ensures written { IsTrue result → target.new.items ≡ target.old.items ++ flat_map in_link text.now }
    ensures room { result ≡ nat_lt (length (target.old.items ++ flat_map in_link text.now)) max_held }
{
    for c in text {
        put_character(target, *c);
        if target.len() >= ROOM {
            return false;
        }
    }
    true
}

/// The scheme of an address.
fn scheme_of(address: &[char]) -> &'static [u8]
    ensures value { result.now ≡ scheme_of address.now }
    ensures within { length result.now ≤ length address.now }
    ensures short { length result.now ≤ 8 }
{
    if begins_with(address, b"https://") {
        b"https://"
    } else if begins_with(address, b"http://") {
        b"http://"
    } else if begins_with(address, b"mailto:") {
        b"mailto:"
    } else {
        b""
    }
}

/// How many separators of commands stand in the bytes.
pub(crate) fn separators(bytes: &[u8]) -> usize
    ensures { result ≡ count_by (λ b. b == semicolon) bytes.now }
{
    bytes.iter().filter(|byte| **byte == b';').count()
}

/// What a link to an address has, if a command has room for it.
#[tactic(auto, unfolding(crate::specs::Addresses::target_of, crate::specs::Addresses::fits))]
pub(crate) fn target_of(address: &[char]) -> Option<Target>
    ensures target { IfSome result (λ target. target.items ≡ target_of address.now) }
    ensures fits { IfSome result (λ _. fits (target_of address.now) ≡ true) }
    ensures few { IfSome result (λ target. count_by (λ b. b == semicolon) target.items ≤ max_separators) }
    ensures none { IfNone result (fits (target_of address.now) ≡ false) }
{
    let scheme = scheme_of(address);
    let mut target = ArrayVec::new();
    let _ = target.try_extend_from_slice(scheme);
    if put_text(&mut target, &address[scheme.len()..])
        && separators(target.as_slice()) <= MAX_SEPARATORS
    {
        Some(target)
    } else {
        None
    }
}

/// What stands before the first separator of a command, and after it.
fn split_at_separator(bytes: &[u8]) -> Option<(&[u8], &[u8])>
    ensures some { IfSome result (λ split. slice_split (λ b. b == semicolon) bytes.now
        ≡ split.0.now ∷ slice_split (λ b. b == semicolon) split.1.now) }
    ensures none { IfNone result (slice_split (λ b. b == semicolon) bytes.now ≡ bytes.now ∷ []) }
{
    let mut count = 0;
    'bytes: while count < bytes.len() {
        if bytes[count] == b';' {
            return Some((&bytes[..count], &bytes[count + 1..]));
        }
        count += 1;
    }
    None
}

/// The parts of the command that begins a link, and how many they are.
pub(crate) fn link_parts(target: &[u8]) -> ([&[u8]; MAX_PARTS], usize)
    requires few { count_by (λ b. b == semicolon) target.now ≤ max_separators }
    ensures parts { map (λ part. part.now) (take result.1 result.0)
        ≡ codes "8" ∷ [] ∷ slice_split (λ b. b == semicolon) target.now }
    ensures within { result.1 ≤ MAX_PARTS }
{
    let mut parts: [&[u8]; MAX_PARTS] = [b""; MAX_PARTS];
    parts[0] = b"8";
    let mut count = 2;
    let mut rest = target;
    'rest: while let Some((part, behind)) = split_at_separator(rest) {
        parts[count] = part;
        count += 1;
        rest = behind;
    }
    parts[count] = rest;
    (parts, count + 1)
}
