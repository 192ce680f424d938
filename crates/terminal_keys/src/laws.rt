//! Laws of keys, the mouse and pastes. Each is the contract of a function that does nothing.
ghost use Rattle.std.specs.Prelude.{◌≡◌, ℕ, List, IsTrue, Bool, None, false, true};
ghost use Rattle.anstyle_parse.specs.Stream.Items.{EachIs};
ghost use Rattle.terminal_keys.specs.Paste.{pasted, focus_text};
ghost use Rattle.terminal_keys.specs.Enhanced.{key_text};
ghost use Rattle.terminal_keys.specs.Keys.{is_release};
ghost use Rattle.terminal_keys.specs.Mouse.{mouse_text};
ghost use Rattle.terminal_keys.specs.Laws.{is_own, is_pasted_byte, TellsAll, AreApart, EndsOnce, no_key, no_mouse};

use crate::key::Stroke;
use crate::modes::KeyModes;
use crate::mouse::Mouse;

/// Where the flags 1 and 8 of kitty's protocol are set, and 16 is not, no two keys have the same bytes, and no key has
/// them with other modifiers. A key of a character from U+E000 to U+F8FF is left out: their numbers are those of keys.
pub fn apart()
    ensures { (modes : KeyModes) (first second : Stroke) → TellsAll modes → IsTrue (is_own first.key)
        → IsTrue (is_own second.key) → AreApart modes first second }
{}

/// What is pasted has no control but TAB, LF and CR, and in brackets the first end of a paste is the end of this one.
pub fn pasted_safely()
    ensures bytes { (text : List ℕ) → EachIs is_pasted_byte (pasted text) }
    ensures ends { (text : List ℕ) → EndsOnce text }
{}

/// What a program did not ask for is no bytes.
pub fn unasked()
    ensures focus { (gained : Bool) (modes : KeyModes) → modes.focus ≡ false → focus_text gained modes ≡ no_key }
    ensures releases { (stroke : Stroke) (modes : KeyModes) → is_release stroke.event ≡ true
        → modes.flags.events ≡ false → key_text stroke modes ≡ no_key }
    ensures mouse { (mouse : Mouse) (modes : KeyModes) → modes.tracking ≡ None → mouse_text mouse modes ≡ no_mouse }
{}
