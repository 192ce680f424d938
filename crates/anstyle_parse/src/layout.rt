//! Layout: the controls that may stand in a text.
ghost use Rattle.std.specs.Prelude.{◌≡◌, ◌++◌, ◌∷◌, IsTrue, not, IfSome, IfNone};
ghost use Rattle.anstyle_parse.specs.Stream.Items.{EachIs};
ghost use Rattle.anstyle_parse.specs.Stream.Texts.{is_layout};
ghost use Rattle.anstyle_parse.specs.Views.Texts.{StopsAtLayout};

use crate::chunks::{CHUNK, layouts};
use std::simd::prelude::*;

/// Whether a control lays text out: tab (09), line feed (0A) or carriage return (0D).
#[inline(always)]
pub fn is_layout(byte: u8) -> bool
    ensures { result ≡ is_layout byte }
{
    matches!(byte, b'\t' | b'\n' | b'\r')
}

/// The front of a text, up to its first layout control; and that control, with what comes after it.
#[inline(always)]
pub(crate) fn split_at_layout(text: &str) -> (&str, Option<(u8, &str)>)
    ensures before { EachIs (λ b. not (is_layout b)) result.0.now }
    ensures found { IfSome result.1 (λ found. IsTrue (is_layout found.0)
        × (text.now ≡ result.0.now ++ found.0 ∷ found.1.now)) }
    ensures none { IfNone result.1 (text.now ≡ result.0.now) }
{
    let bytes = text.as_bytes();
    let rest = from_layout(bytes);
    let end = bytes.len() - rest.len();
    match rest.split_first() {
        Some((control, _)) => (&text[..end], Some((*control, &text[end + 1..]))),
        None => (text, None),
    }
}

/// What begins at the first layout control.
fn from_layout(bytes: &[u8]) -> &[u8]
    ensures { StopsAtLayout bytes.now result.now }
{
    let mut rest = bytes;
    'chunks: while let Some((chunk, behind)) = rest.split_first_chunk::<CHUNK>() {
        let found = layouts(u8x16::from_array(*chunk));
        if found != 0 {
            let (_, at) = rest.split_at(found.trailing_zeros() as usize);
            return at;
        }
        rest = behind;
    }
    'bytes: while let Some((first, behind)) = rest.split_first() {
        if is_layout(*first) {
            break;
        }
        rest = behind;
    }
    rest
}
