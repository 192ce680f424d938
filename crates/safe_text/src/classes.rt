//! Which characters show, and where one that shows nothing may stay.
ghost use Rattle.std.specs.Prelude.{◌≡◌, IsTrue};
ghost use Rattle.safe_text.specs.Classes.{is_among, ends_ascend, is_shown, space_stays, non_joiner_stays, joiner_stays, selector_stays, stays};
ghost use Rattle.safe_text.specs.Ranges.{hidden, pictographic, virama, joins_next, joins_previous, unspaced};

mod ranges;

use ranges::{HIDDEN, JOINS_NEXT, JOINS_PREVIOUS, PICTOGRAPHIC, UNSPACED, VIRAMA};

/// Whether a number is in one of the ranges, which are in ascending order.
fn is_among(ranges: &[(u32, u32)], number: u32) -> bool
    requires { IsTrue (ends_ascend ranges.now) }
    ensures { result ≡ is_among number ranges.now }
{
    let (mut low, mut high) = (0, ranges.len());
    while low < high {
        let middle = low + (high - low) / 2;
        if ranges[middle].1 < number {
            low = middle + 1;
        } else {
            high = middle;
        }
    }
    if low < ranges.len() {
        ranges[low].0 <= number
    } else {
        false
    }
}

/// Whether a character shows or is blank.
#[tactic(auto, unfolding(crate::specs::Classes::is_shown))]
pub fn is_shown(c: char) -> bool
    ensures { result ≡ is_shown c }
{
    c == '\t' || c == '\n' || !is_hidden(u32::from(c))
}

/// Whether it is a control, orders or divides text, or shows nothing.
fn is_hidden(number: u32) -> bool
    ensures { result ≡ is_among number hidden }
{
    is_among(&HIDDEN, number)
}

/// Whether it may show as an emoji.
fn is_pictographic(number: u32) -> bool
    ensures { result ≡ is_among number pictographic }
{
    is_among(&PICTOGRAPHIC, number)
}

/// Whether it is a virama.
fn is_virama(number: u32) -> bool
    ensures { result ≡ is_among number virama }
{
    is_among(&VIRAMA, number)
}

/// Whether it is a letter that joins the next one.
fn joins_next(number: u32) -> bool
    ensures { result ≡ is_among number joins_next }
{
    is_among(&JOINS_NEXT, number)
}

/// Whether it is a letter that joins the one before.
fn joins_previous(number: u32) -> bool
    ensures { result ≡ is_among number joins_previous }
{
    is_among(&JOINS_PREVIOUS, number)
}

/// Whether it is of a script that is written without spaces.
fn is_unspaced(number: u32) -> bool
    ensures { result ≡ is_among number unspaced }
{
    is_among(&UNSPACED, number)
}

/// Whether U+200B stays between these characters.
#[tactic(auto, unfolding(crate::specs::Classes::space_stays))]
fn space_stays(before: char, next: char) -> bool
    ensures { result ≡ space_stays before next }
{
    is_unspaced(u32::from(before)) && is_unspaced(u32::from(next))
}

/// Whether U+200C does.
#[tactic(auto, unfolding(crate::specs::Classes::non_joiner_stays))]
fn non_joiner_stays(before: char, next: char) -> bool
    ensures { result ≡ non_joiner_stays before next }
{
    let (before, next) = (u32::from(before), u32::from(next));
    is_virama(before) || joins_next(before) && joins_previous(next)
}

/// Whether U+200D does.
#[tactic(auto, unfolding(crate::specs::Classes::joiner_stays, anstyle_parse::specs::Stream::Bytes::is_within))]
fn joiner_stays(before: char, next: char) -> bool
    ensures { result ≡ joiner_stays before next }
{
    let (before, next) = (u32::from(before), u32::from(next));
    let is_of_emoji = is_pictographic(before)
        || matches!(before, 0x1F3FB..=0x1F3FF)
        || before == 0xFE0F;
    is_virama(before) || is_of_emoji && is_pictographic(next)
}

/// Whether U+FE0E or U+FE0F does.
#[tactic(auto, unfolding(crate::specs::Classes::selector_stays, anstyle_parse::specs::Stream::Bytes::is_within))]
fn selector_stays(before: char, next: char) -> bool
    ensures { result ≡ selector_stays before next }
{
    let (before, next) = (u32::from(before), u32::from(next));
    let is_of_keycap = matches!(before, 0x30..=0x39) || before == 0x23 || before == 0x2A;
    is_pictographic(before) || is_of_keycap && next == 0x20E3
}

/// Whether a joiner stays between these characters.
#[tactic(auto, unfolding(crate::specs::Classes::stays))]
pub(crate) fn stays(before: char, c: char, next: char) -> bool
    ensures { result ≡ stays before c next }
{
    match c {
        '\u{200B}' => space_stays(before, next),
        '\u{200C}' => non_joiner_stays(before, next),
        '\u{200D}' => joiner_stays(before, next),
        '\u{FE0E}' | '\u{FE0F}' => selector_stays(before, next),
        _ => false,
    }
}
