//! Keys, and what is held beside them.
ghost use Rattle.std.specs.Prelude.{◌≡◌, ◌≤◌};
ghost use Rattle.terminal_keys.specs.Keys.{bit, is_typed, is_plain, is_key, nothing_held, number_of_modifiers, number_of_event, is_release, typed};

/// A key of the cursor or of editing.
#[derive(Debug, Clone, Copy, PartialEq, Eq)]
pub enum Navigation {
    Up,
    Down,
    Right,
    Left,
    Home,
    End,
    Insert,
    Delete,
    PageUp,
    PageDown,
}

/// A key of the keypad, but for those that it has in common with [`Navigation`].
#[derive(Debug, Clone, Copy, PartialEq, Eq)]
pub enum Pad {
    /// 0 to 9; any other number is no key.
    Digit(u8),
    Decimal,
    Divide,
    Multiply,
    Subtract,
    Add,
    Separator,
    Equal,
    Return,
    /// 5, where NumLock is off.
    Begin,
}

/// A key.
#[derive(Debug, Clone, Copy, PartialEq, Eq)]
pub enum Key {
    /// A key that types a character: that which it types without modifiers, `a` also where Shift makes it `A`. A control
    /// is no key.
    Character(char),
    Enter,
    Tab,
    Backspace,
    Escape,
    Navigation(Navigation),
    /// F1 to F24; any other number is no key.
    Function(u8),
    Keypad(Pad),
    /// The same keys on the keypad, where NumLock is off.
    KeypadNavigation(Navigation),
}

/// What is held while a key or a button is pressed.
#[derive(Debug, Clone, Copy, PartialEq, Eq)]
pub struct Modifiers {
    pub shift: bool,
    pub alt: bool,
    pub control: bool,
    pub super_key: bool,
    pub hyper: bool,
    pub meta: bool,
    pub caps_lock: bool,
    pub num_lock: bool,
}

/// What happens to a key.
#[derive(Debug, Clone, Copy, PartialEq, Eq)]
pub enum Event {
    Press,
    Repeat,
    Release,
}

/// A key that is pressed, repeats or is released.
#[derive(Debug, Clone, Copy, PartialEq, Eq)]
pub struct Stroke {
    pub key: Key,
    /// What the key types with Shift, where that is known and another character.
    pub shifted: Option<char>,
    pub modifiers: Modifiers,
    pub event: Event,
}

/// A number, where it is wanted.
pub(crate) fn bit(on: bool, number: u16) -> u16
    ensures number { result ≡ bit on number }
    ensures bound { result ≤ number }
{
    if on { number } else { 0 }
}

/// Whether it is no control.
#[tactic(auto, unfolding(crate::specs::Keys::is_typed))]
pub(crate) fn is_typed(character: char) -> bool
    ensures { result ≡ is_typed character }
{
    ('\u{20}' <= character && character <= '\u{7E}')
        || ('\u{A0}' <= character && character <= char::MAX)
}

impl Modifiers {
    /// None is held.
    pub fn none() -> Modifiers
        ensures { result ≡ nothing_held }
    {
        Modifiers {
            shift: false,
            alt: false,
            control: false,
            super_key: false,
            hyper: false,
            meta: false,
            caps_lock: false,
            num_lock: false,
        }
    }

    /// Whether none is held but Shift and the locks, so that a key types its character.
    pub(crate) fn is_plain(self) -> bool
        ensures { result ≡ is_plain self }
    {
        !self.alt && !self.control && !self.super_key && !self.hyper && !self.meta
    }

    /// Their number in kitty's protocol.
    pub(crate) fn number(self) -> u16
        ensures { result ≡ number_of_modifiers self }
    {
        let near = bit(self.shift, 1) + bit(self.alt, 2) + bit(self.control, 4);
        let far = bit(self.super_key, 8) + bit(self.hyper, 16) + bit(self.meta, 32);
        near + far + bit(self.caps_lock, 64) + bit(self.num_lock, 128) + 1
    }
}

impl Event {
    /// Its number in kitty's protocol.
    pub(crate) fn number(self) -> u16
        ensures { result ≡ number_of_event self }
    {
        match self {
            Event::Press => 1,
            Event::Repeat => 2,
            Event::Release => 3,
        }
    }

    /// Whether the key comes up.
    pub(crate) fn is_release(self) -> bool
        ensures { result ≡ is_release self }
    {
        matches!(self, Event::Release)
    }
}

impl Key {
    /// Whether it is one: of the numbers that a key can have, those that keys have, and no control.
    #[tactic(auto, unfolding(crate::specs::Keys::is_key))]
    pub fn is_key(self) -> bool
        ensures { result ≡ is_key self }
    {
        match self {
            Key::Character(character) => is_typed(character),
            Key::Function(number) => 1 <= number && number <= 24,
            Key::Keypad(Pad::Digit(number)) => number <= 9,
            _ => true,
        }
    }
}

impl Stroke {
    /// What the key of a character types, with Shift or without.
    #[tactic(auto, unfolding(crate::specs::Keys::typed))]
    pub(crate) fn typed(self, plain: char) -> char
        ensures { result ≡ typed plain self }
    {
        match self.shifted {
            Some(shifted) if self.modifiers.shift && is_typed(shifted) => shifted,
            _ => plain,
        }
    }
}
