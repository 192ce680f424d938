//! Characters that XML may have.
ghost use Rattle.std.specs.Prelude.{◌≡◌};
ghost use Rattle.anstyle_parse.specs.Stream.Bytes.{is_within};
ghost use Rattle.anstyle_parse.specs.Io.Output.{Adds};
ghost use Rattle.ansi_html.specs.Html.{escaped_text};
ghost use Rattle.screen_svg.specs.Characters.{is_allowed, replaced, character_text, text_of};

use ansi_html::put_character;
use anstyle_parse::io::{Output, Sink};

/// Whether a number is within a range, both ends included.
#[tactic(auto, unfolding(anstyle_parse::specs::Stream::Bytes::is_within))]
fn is_within(low: u32, high: u32, number: u32) -> bool
    ensures { result ≡ is_within low high number }
{
    low <= number && number <= high
}

/// Whether XML may have a character: of the controls of ASCII it has three, and neither U+FFFE nor U+FFFF.
#[tactic(auto, unfolding(crate::specs::Characters::is_allowed))]
fn is_allowed(c: char) -> bool
    ensures { result ≡ is_allowed c }
{
    let number = u32::from(c);
    number == 0x09
        || number == 0x0A
        || number == 0x0D
        || is_within(0x20, 0xD7FF, number)
        || is_within(0xE000, 0xFFFD, number)
        || is_within(0x10000, 0x10FFFF, number)
}

/// A character, or what stands for one that XML may not have.
fn replaced(c: char) -> char
    ensures { result ≡ replaced c }
{
    if is_allowed(c) {
        c
    } else {
        char::REPLACEMENT_CHARACTER
    }
}

/// Writes a character of a text or of a value.
pub(crate) fn put_allowed<W: Sink>(output: &mut Output<W>, c: char)
    ensures { Adds W.Sink (escaped_text (character_text c)) output.old output.new }
{
    put_character(output, replaced(c));
}

/// Writes a text.
pub(crate) fn put_text<W: Sink>(output: &mut Output<W>, text: &str)
    ensures { Adds W.Sink (escaped_text (text_of text.now)) output.old output.new }
{
    for c in text.chars() {
        put_allowed(output, c);
    }
}
