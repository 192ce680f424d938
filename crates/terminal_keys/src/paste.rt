//! What is pasted, and the focus.
ghost use Rattle.std.specs.Prelude.{◌≡◌};
ghost use Rattle.terminal_keys.specs.Paste.{is_pasted, pasted_character, pasted, bracketed, paste_text, focus_text};

use crate::key::is_typed;
use crate::legacy::with_number;
use crate::modes::KeyModes;
use crate::taking::{TakeBytes, put_char};
use crate::text::KeyText;

/// Whether a character is pasted: TAB, LF and CR are, and no other control.
fn is_pasted(character: char) -> bool
    ensures { result ≡ is_pasted character }
{
    character == '\t' || character == '\n' || character == '\r' || is_typed(character)
}

/// Writes a character, where it is pasted.
fn put_pasted_character<T: TakeBytes>(to: &mut T, character: char)
    ensures { T.takes (pasted_character character) to.old to.new }
{
    if is_pasted(character) {
        put_char(to, character);
    }
}

/// Writes what is pasted of a text.
fn put_pasted<T: TakeBytes>(to: &mut T, text: &str)
    ensures { T.takes (pasted text.now) to.old to.new }
{
    for character in text.chars() {
        put_pasted_character(to, character);
    }
}

/// Writes the same in brackets.
fn put_bracketed<T: TakeBytes>(to: &mut T, text: &str)
    ensures { T.takes (bracketed text.now) to.old to.new }
{
    to.take(b"\x1B[200~");
    put_pasted(to, text);
    to.take(b"\x1B[201~");
}

/// Writes a text as a terminal pastes it: without controls but TAB, LF and CR, and in brackets where the program asked
/// for them. So no text ends its bracket.
pub fn put_paste<T: TakeBytes>(to: &mut T, text: &str, modes: KeyModes)
    ensures { T.takes (paste_text text.now modes.paste) to.old to.new }
{
    if modes.paste {
        put_bracketed(to, text);
    } else {
        put_pasted(to, text);
    }
}

/// That the terminal has the focus now, or has it no longer.
pub fn focus_text(gained: bool, modes: KeyModes) -> KeyText
    ensures { result ≡ focus_text gained modes }
{
    if modes.focus {
        with_number(1, 1, 0, if gained { b'I' } else { b'O' })
    } else {
        KeyText::Nothing
    }
}
