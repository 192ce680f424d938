//! Where an address begins in a text, how far it goes, and where it ends.
ghost use Rattle.std.specs.Prelude.{◌≡◌, ◌≤◌, ◌==◌, ◌||◌, ◌&&◌, IsTrue, false, nat_eq, length, take, drop, count_by, if◌then◌else◌};
ghost use Rattle.std.specs.Char.{is_ascii_alphanumeric};
ghost use Rattle.std.specs.List.{starts_with};
ghost use Rattle.html_urls.specs.Addresses.{is_of_word, is_of_uri, is_beyond_uri, is_of_address, in_small, says_scheme, begins_scheme, is_mark, is_unmatched, is_behind, ends_entity, address_length, is_address};

/// Whether the character may stand in a scheme, so that none begins right after it.
pub(crate) fn is_of_word(c: char) -> bool
    ensures { result ≡ is_of_word c }
{
    matches!(c, '0'..='9' | 'A'..='Z' | 'a'..='z' | '+' | '-' | '.')
}

/// Whether the character may stand in a URI.
fn is_of_uri(c: char) -> bool
    ensures { result ≡ is_of_uri c }
{
    matches!(
        c,
        '!' | '#'..=';' | '=' | '?'..='[' | ']' | '_' | 'a'..='z' | '~'
    )
}

/// Whether the character, one beyond ASCII, may stand in an IRI.
fn is_beyond_uri(c: char) -> bool
    ensures { result ≡ is_beyond_uri c }
{
    matches!(
        c,
        '\u{A1}'..='\u{167F}'
            | '\u{1681}'..='\u{1FFF}'
            | '\u{200C}'..='\u{200D}'
            | '\u{2010}'..='\u{2027}'
            | '\u{2030}'..='\u{205E}'
            | '\u{2070}'..='\u{24FF}'
            | '\u{25A0}'..='\u{2FFF}'
            | '\u{3001}'..='\u{D7FF}'
            | '\u{F900}'..='\u{FDCF}'
            | '\u{FDF0}'..='\u{FFEF}'
            | '\u{10000}'..='\u{DFFFD}'
    )
}

/// Whether the character may stand in an address, after its scheme.
pub(crate) fn is_of_address(c: char) -> bool
    ensures { result ≡ is_of_address c }
{
    is_of_uri(c) || is_beyond_uri(c)
}

/// Whether a text begins with this one in small letters, in letters of any case.
pub(crate) fn begins_with(text: &[char], small: &[u8]) -> bool
    ensures value { result ≡ starts_with nat_eq (in_small text.now) small.now }
    ensures bound { IsTrue result → length small.now ≤ length text.now }
{
    match (small.split_first(), text.split_first()) {
        (None, _) => true,
        (Some(_), None) => false,
        (Some((byte, rest)), Some((c, behind))) => {
            char::from(*byte) == c.to_ascii_lowercase() && begins_with(behind, rest)
        }
    }
}

/// Whether this one in small letters begins with a text, in letters of any case.
fn begins_as(small: &[u8], text: &[char]) -> bool
    ensures { result ≡ starts_with nat_eq small.now (in_small text.now) }
{
    match (text.split_first(), small.split_first()) {
        (None, _) => true,
        (Some(_), None) => false,
        (Some((c, behind)), Some((byte, rest))) => {
            c.to_ascii_lowercase() == char::from(*byte) && begins_as(rest, behind)
        }
    }
}

/// Whether one of the three schemes begins with the text, or is it.
#[tactic(auto, unfolding(crate::specs::Addresses::begins_small))]
pub(crate) fn begins_scheme(text: &[char]) -> bool
    ensures { result ≡ begins_scheme text.now }
{
    begins_as(b"https://", text) || begins_as(b"http://", text) || begins_as(b"mailto:", text)
}

/// Whether the text begins with one of the three schemes.
#[tactic(auto, unfolding(ansi_html::specs::Links::has_scheme))]
pub(crate) fn says_scheme(text: &[char]) -> bool
    ensures { result ≡ says_scheme text.now }
{
    begins_with(text, b"https://") || begins_with(text, b"http://") || begins_with(text, b"mailto:")
}

/// Whether the character is a mark that ends a sentence, a quote or bold text, which is no part of an address that it
/// ends.
fn is_mark(c: char) -> bool
    ensures { result ≡ is_mark c }
{
    matches!(
        c,
        '?' | '!'
            | '.'
            | ','
            | ':'..=';'
            | '*'
            | '_'
            | '~'
            | '\''
            | '«'
            | '»'
            | '\u{2010}'..='\u{205E}'
            | '\u{3001}'..='\u{3003}'
            | '\u{3008}'..='\u{301F}'
            | '\u{FF01}'..='\u{FF0F}'
            | '\u{FF1A}'..='\u{FF20}'
    )
}

/// How often the character stands in the text.
fn count_of(text: &[char], wanted: char) -> usize
    ensures { result ≡ count_by (λ c. c == wanted) text.now }
{
    text.iter().filter(|c| **c == wanted).count()
}

/// Whether the text closes more brackets than it opens.
fn is_unmatched(text: &[char], opening: char, closing: char) -> bool
    ensures { result ≡ is_unmatched text.now opening closing }
{
    count_of(text, opening) < count_of(text, closing)
}

/// Whether the last character of a text is no part of the address.
fn is_behind(text: &[char], last: char) -> bool
    ensures { result ≡ is_behind text.now last }
{
    if last == ')' {
        is_unmatched(text, '(', ')')
    } else if last == ']' {
        is_unmatched(text, '[', ']')
    } else {
        is_mark(last)
    }
}

/// Whether `&` and letters or digits stand at the end of a text, at least one of these.
fn ends_entity(text: &[char]) -> bool
    ensures { result ≡ ends_entity false false text.now }
{
    let mut is_named = false;
    let mut rest = text;
    'rest: while let Some((last, before)) = rest.split_last() {
        if *last == '&' {
            return is_named;
        }
        if !last.is_ascii_alphanumeric() {
            return false;
        }
        is_named = true;
        rest = before;
    }
    false
}

/// Whether a text ends within what looks like an entity, if what stands behind it begins with this character, and where
/// the text with it does or not.
fn parts_entity(text: &[char], c: char, is_parted: bool) -> bool
    ensures { result ≡ (if nat_eq c 0x3B then ends_entity false false text.now
        else is_ascii_alphanumeric c && is_parted) }
{
    if c == ';' {
        ends_entity(text)
    } else {
        c.is_ascii_alphanumeric() && is_parted
    }
}

/// Whether more than the address stands in a text that ends with this character, within what looks like an entity or
/// not.
fn goes_past(text: &[char], last: char, is_parted: bool) -> bool
    ensures { result ≡ (is_behind text.now last || is_parted) }
{
    is_parted || is_behind(text, last)
}

/// How many characters of a text are the address.
fn address_length(text: &[char]) -> usize
    ensures length { result ≡ address_length (length text.now) text.now }
    ensures within { result ≤ length text.now }
{
    let mut is_parted = false;
    let mut front = text;
    'front: while let Some((last, before)) = front.split_last() {
        if !goes_past(front, *last, is_parted) {
            return front.len();
        }
        is_parted = parts_entity(before, *last, is_parted);
        front = before;
    }
    0
}

/// The address, and what stands after it.
pub(crate) fn split_address(text: &[char]) -> (&[char], &[char])
    ensures address { result.0.now ≡ take (address_length (length text.now) text.now) text.now }
    ensures behind { result.1.now ≡ drop (address_length (length text.now) text.now) text.now }
{
    text.split_at(address_length(text))
}

/// Whether these are an address: a scheme, and more after it.
#[tactic(auto, unfolding(crate::specs::Addresses::is_address))]
pub(crate) fn is_address(text: &[char]) -> bool
    ensures { result ≡ is_address text.now }
{
    says_scheme(text) && !begins_scheme(text)
}
