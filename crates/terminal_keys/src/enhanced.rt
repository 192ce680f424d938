//! Keys as kitty's protocol tells them.
ghost use Rattle.std.specs.Prelude.{◌≡◌};
ghost use Rattle.terminal_keys.specs.Enhanced.{is_line_key, is_character_key, told_key, told_shifted, types, told_text, told_modifiers, told_event, sequence_of, is_as_before, enhanced, is_told_by, key_text};

use crate::key::{Event, Key, Modifiers, Pad, Stroke, is_typed};
use crate::modes::{Flags, KeyModes};
use crate::tables::pad_character;
use crate::text::{KeyText, Sequence};

impl Key {
    /// Whether it is one with which a line is typed, so that it stays as it is until all keys are told.
    fn is_line_key(self) -> bool
        ensures { result ≡ is_line_key self }
    {
        matches!(self, Key::Enter | Key::Tab | Key::Backspace)
    }

    /// Whether it is one that types a character.
    fn is_character_key(self) -> bool
        ensures { result ≡ is_character_key self }
    {
        matches!(self, Key::Character(_))
    }

    /// The key that is told.
    fn told(self, flags: Flags) -> Key
        ensures { result ≡ told_key self flags }
    {
        if flags.disambiguates {
            self
        } else {
            self.plain()
        }
    }
}

impl Modifiers {
    /// Their number: without the locks, where a character or a line can be typed.
    fn told(self, types: bool) -> u16
        ensures { result ≡ told_modifiers self types }
    {
        if types {
            let mut others = self;
            others.caps_lock = false;
            others.num_lock = false;
            others.number()
        } else {
            self.number()
        }
    }
}

impl Stroke {
    /// What the key types with Shift, where that is asked for; 0, where it is not.
    #[tactic(auto, unfolding(crate::specs::Enhanced::told_shifted))]
    fn told_shifted(self, key: Key, flags: Flags) -> u32
        ensures { result ≡ told_shifted key self flags }
    {
        match (key, self.shifted) {
            (Key::Character(_), Some(shifted))
                if flags.alternates && self.modifiers.shift && is_typed(shifted) => {
                u32::from(shifted)
            }
            _ => 0,
        }
    }

    /// What the key types; 0, where it types nothing.
    #[tactic(auto, unfolding(crate::specs::Enhanced::types))]
    fn types(self, key: Key) -> u32
        ensures { result ≡ types key self }
    {
        match key {
            Key::Character(character) => u32::from(self.typed(character)),
            Key::Keypad(Pad::Return | Pad::Begin) => 0,
            Key::Keypad(key) => u32::from(pad_character(key)),
            _ => 0,
        }
    }

    /// The same, where that is asked for.
    fn told_text(self, key: Key, flags: Flags) -> u32
        ensures { result ≡ told_text key self flags }
    {
        if flags.all && flags.text && self.modifiers.is_plain() && !self.event.is_release() {
            self.types(key)
        } else {
            0
        }
    }

    /// The number of what happens, where that is asked for.
    fn told_event(self, flags: Flags) -> u16
        ensures { result ≡ told_event self flags }
    {
        if flags.events { self.event.number() } else { 1 }
    }

    /// The sequence that tells it.
    fn sequence(self, key: Key, flags: Flags) -> Sequence
        ensures { result ≡ sequence_of key self flags }
    {
        let code = key.code();
        let can_type = !flags.all && (key.is_line_key() || key.is_character_key());
        Sequence {
            number: code.number,
            shifted: self.told_shifted(key, flags),
            modifiers: self.modifiers.told(can_type),
            event: self.told_event(flags),
            text: self.told_text(key, flags),
            last: code.last,
        }
    }

    /// Whether it has the bytes that it has without the protocol.
    fn is_as_before(self, key: Key) -> bool
        ensures { result ≡ is_as_before key self }
    {
        let is_plain = self.modifiers.is_plain();
        (key.is_character_key() && is_plain)
            || (key.is_line_key() && is_plain && !self.modifiers.shift)
    }

    /// What it is by kitty's protocol.
    fn enhanced(self, modes: KeyModes) -> KeyText
        ensures { result ≡ enhanced self modes }
    {
        let flags = modes.flags;
        let key = self.key.told(flags);
        if !flags.all && !self.event.is_release() && self.is_as_before(key) {
            self.legacy(modes, 0)
        } else if !flags.all && self.event.is_release() && key.is_line_key() {
            KeyText::Nothing
        } else {
            KeyText::Control(self.sequence(key, flags))
        }
    }

    /// Whether the protocol tells it: with the second flag alone what else happens than a press.
    fn is_enhanced(self, flags: Flags) -> bool
        ensures { result ≡ is_told_by flags self.event }
    {
        flags.all || flags.disambiguates || (flags.events && !matches!(self.event, Event::Press))
    }

    /// What a program reads of it.
    pub fn text(self, modes: KeyModes) -> KeyText
        ensures { result ≡ key_text self modes }
    {
        let flags = modes.flags;
        if !self.key.is_key() || (self.event.is_release() && !flags.events) {
            KeyText::Nothing
        } else if self.is_enhanced(flags) {
            self.enhanced(modes)
        } else {
            self.legacy(
                modes,
                if flags.is_enhanced() {
                    0
                } else {
                    modes.other_keys
                },
            )
        }
    }
}
