//! What the bytes go to.
ghost use Rattle.std.specs.Prelude.{ℕ, List, encode_utf8};
ghost use Rattle.anstyle_parse.specs.Io.Output.{Adds};
ghost use Rattle.terminal_keys.specs.Taking.{JoinsTexts};

use anstyle_parse::io::{Output, Sink};

/// Takes bytes, text by text. An implementation states in `takes` what a text does to it.
pub trait TakeBytes {
    // What a text does to it: the text, what it was, and what it is then.
    ghost takes: { List ℕ → Self → Self → Type 0 };

    /// Takes a text.
    fn take(&mut self, text: &[u8])
        ensures { takes text.now self.old self.new };

    // No text leaves it as it is; one and then another do what both do, joined.
    ghost joins: { JoinsTexts takes };
}

/// The text is written.
impl<W: Sink> TakeBytes for Output<W> {
    ghost use Rattle.anstyle_parse.specs.Io.AddingProof.{Adds-nil, Adds-append};

    ghost takes = { Adds W.Sink };

    #[inline]
    fn take(&mut self, text: &[u8]) {
        self.put(text);
    }

    ghost joins = { record { none = Adds-nil W.Sink; more = Adds-append W.Sink } };
}

/// Hands on a character, in UTF-8. One of a single byte is handed on with no copy.
#[inline]
pub(crate) fn put_char<T: TakeBytes>(to: &mut T, character: char)
    ensures { T.takes (encode_utf8 character) to.old to.new }
{
    if character.is_ascii() {
        to.take(&[character as u8]);
    } else {
        put_encoded(to, character);
    }
}

/// The same with a character of several bytes.
fn put_encoded<T: TakeBytes>(to: &mut T, character: char)
    ensures { T.takes (encode_utf8 character) to.old to.new }
{
    let mut bytes = [0; 4];
    to.take(character.encode_utf8(&mut bytes).as_bytes());
}
