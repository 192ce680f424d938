//! What a program asked of the keys, as far as it decides their bytes.
ghost use Rattle.std.specs.Prelude.{◌≡◌};
ghost use Rattle.terminal_keys.specs.Modes.{flags_of, is_enhanced, nothing_asked, no_flags, key_modes};

use ansi_modes::{Asked, Encoding, Tracking};

/// The flags of kitty's protocol.
#[derive(Debug, Clone, Copy, PartialEq, Eq)]
pub struct Flags {
    /// 1: no two keys have the same bytes, but for those that type a character.
    pub disambiguates: bool,
    /// 2: that a key repeats or is released is told.
    pub events: bool,
    /// 4: so is what a key types with Shift.
    pub alternates: bool,
    /// 8: a key that types a character is told as others are.
    pub all: bool,
    /// 16: with the character that it types.
    pub text: bool,
}

/// What a program asked for.
#[derive(Debug, Clone, Copy, PartialEq, Eq)]
pub struct KeyModes {
    /// DECCKM, `?1`: the cursor keys are those of an application.
    pub cursor_keys: bool,
    /// DECNKM, `?66`, `ESC =`: so is the keypad.
    pub keypad: bool,
    /// DECBKM, `?67`: Backspace is BS, and not DEL.
    pub backspace: bool,
    /// modifyOtherKeys: 1 or 2; any other number is none.
    pub other_keys: u16,
    pub flags: Flags,
    /// `?1004`: the focus is told.
    pub focus: bool,
    /// `?2004`: what is pasted comes in brackets.
    pub paste: bool,
    /// `?9`, `?1000`, `?1002`, `?1003`
    pub tracking: Option<Tracking>,
    /// `?1006`, `?1015`, `?1016`
    pub encoding: Option<Encoding>,
}

impl Flags {
    /// None is set.
    pub fn none() -> Flags
        ensures { result ≡ no_flags }
    {
        Flags {
            disambiguates: false,
            events: false,
            alternates: false,
            all: false,
            text: false,
        }
    }

    /// Those of a number.
    #[tactic(auto, unfolding(crate::specs::Modes::flags_of))]
    pub fn of(number: u16) -> Flags
        ensures { result ≡ flags_of number }
    {
        Flags {
            disambiguates: number % 2 == 1,
            events: number / 2 % 2 == 1,
            alternates: number / 4 % 2 == 1,
            all: number / 8 % 2 == 1,
            text: number / 16 % 2 == 1,
        }
    }

    /// Whether keys are told by this protocol.
    pub(crate) fn is_enhanced(self) -> bool
        ensures { result ≡ is_enhanced self }
    {
        self.disambiguates || self.events || self.all
    }
}

impl KeyModes {
    /// Nothing is asked for.
    pub fn none() -> KeyModes
        ensures { result ≡ nothing_asked }
    {
        KeyModes {
            cursor_keys: false,
            keypad: false,
            backspace: false,
            other_keys: 0,
            flags: Flags::none(),
            focus: false,
            paste: false,
            tracking: None,
            encoding: None,
        }
    }

    /// What a stream asked for.
    pub fn of(asked: &Asked) -> KeyModes
        ensures { result ≡ key_modes asked.now }
    {
        KeyModes {
            cursor_keys: asked.modes.cursor_keys,
            keypad: asked.modes.keypad,
            backspace: asked.modes.backspace,
            other_keys: asked.other_keys,
            flags: Flags::of(asked.key_flags()),
            focus: asked.modes.focus,
            paste: asked.modes.paste,
            tracking: asked.modes.tracking,
            encoding: asked.modes.encoding,
        }
    }
}
