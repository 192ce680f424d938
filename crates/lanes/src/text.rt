//! Texts, cut where characters of ASCII of a kind begin and end.
ghost use Rattle.std.specs.Prelude.{◌≡◌, ◌<◌, ◌++◌, length, drop, IsUtf8};
ghost use Rattle.std.specs.List.{take_while, position_or_len};
ghost use Rattle.anstyle_parse.specs.Stream.Items.{EachIs};

use crate::front::{after_front, from_first};
use crate::kind::AsciiKind;

/// The bytes of the kind at the front of a text, and what comes after them.
#[inline]
pub fn split_front<K: AsciiKind>(text: &str) -> (&[u8], &str)
    ensures joined { text.now ≡ result.0.now ++ result.1.now }
    ensures front { result.0.now ≡ take_while K.Kind.holds text.now }
    ensures each { EachIs K.Kind.holds result.0.now }
    ensures text { IsUtf8 result.1.now }
{
    let bytes = text.as_bytes();
    let rest = after_front::<K>(bytes);
    let end = bytes.len() - rest.len();
    (&bytes[..end], &text[end..])
}

/// The first character of a text with what follows it, up to one of the kind; and the rest.
#[inline]
pub fn split_others<K: AsciiKind>(text: &str) -> (&str, &str)
    requires { 0 < length text.now }
    ensures joined { text.now ≡ result.0.now ++ result.1.now }
    ensures some { 0 < length result.0.now }
    ensures rest { result.1.now ≡ drop (position_or_len K.Kind.holds (drop 1 text.now)) (drop 1 text.now) }
    ensures front { IsUtf8 result.0.now }
    ensures back { IsUtf8 result.1.now }
{
    let bytes = text.as_bytes();
    let (_, others) = bytes.split_at(1);
    let rest = from_first::<K>(others);
    let end = bytes.len() - rest.len();
    (&text[..end], &text[end..])
}
