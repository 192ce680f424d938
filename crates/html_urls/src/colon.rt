//! Where a scheme may end in a text, at a colon, and where one may begin before it.
ghost use Rattle.std.specs.Prelude.{◌≡◌, ◌++◌, ◌∷◌, IfSome, IfNone, IsUtf8};
ghost use Rattle.anstyle_parse.specs.Stream.Items.{EachIs};
ghost use Rattle.html_urls.specs.Colon.{is_no_colon, is_of_small, is_end, EndsOff, StopsAtColon};

/// The byte with which each scheme ends, or which stands near its end.
const COLON: u8 = b':';

/// The front of a text, up to its first colon; and what comes after that.
pub(crate) fn split_at_colon(text: &str) -> (&str, Option<&str>)
    ensures before { EachIs is_no_colon result.0.now }
    ensures found { IfSome result.1 (λ behind. text.now ≡ result.0.now ++ 0x3A ∷ behind.now) }
    ensures none { IfNone result.1 (text.now ≡ result.0.now) }
{
    let bytes = text.as_bytes();
    let rest = from_colon(bytes);
    let end = bytes.len() - rest.len();
    match rest.split_first() {
        Some((_, _)) => (&text[..end], Some(&text[end + 1..])),
        None => (text, None),
    }
}

/// What begins at the first colon.
fn from_colon(bytes: &[u8]) -> &[u8]
    ensures { StopsAtColon bytes.now result.now }
{
    let mut rest = bytes;
    'bytes: while let Some((first, behind)) = rest.split_first() {
        if *first == COLON {
            break;
        }
        rest = behind;
    }
    rest
}

/// Whether the byte, a small letter if it is one, may stand in a scheme, before or after its colon.
fn is_of_small(byte: u8) -> bool
    ensures { result ≡ is_of_small byte }
{
    matches!(
        byte,
        b'a' | b'h' | b'i' | b'l' | b'm' | b'o' | b'p' | b's' | b't' | b'/'
    )
}

/// Whether it is a character of its own, and none of a scheme.
fn is_end(byte: u8) -> bool
    ensures { result ≡ is_end byte }
{
    byte < 0x80 && !is_of_small(byte.to_ascii_lowercase())
}

/// A text as far as no scheme can begin at its end, and the rest.
pub(crate) fn split_at_scheme(text: &str) -> (&str, &str)
    ensures front { EndsOff result.0.now }
    ensures joined { text.now ≡ result.0.now ++ result.1.now }
    ensures utf8 { IsUtf8 result.0.now }
{
    let mut rest = text.as_bytes();
    'bytes: while let Some((last, before)) = rest.split_last() {
        if is_end(*last) {
            return text.split_at(rest.len());
        }
        rest = before;
    }
    ("", text)
}
