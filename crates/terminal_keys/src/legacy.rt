//! Keys as xterm tells them.
ghost use Rattle.std.specs.Prelude.{◌≡◌};
ghost use Rattle.terminal_keys.specs.Keys.{typed};
ghost use Rattle.terminal_keys.specs.Legacy.{modifier_number, is_held, with_number, with_modifiers, is_letter, has_control, control_of, is_told, told_or_typed, character_text, enter_text, tab_text, escape_text, backspace_text, pad_text, legacy};

use crate::key::{Key, Modifiers, Pad, Stroke, bit};
use crate::modes::KeyModes;
use crate::tables::{Code, function_code, navigation_code, pad_character, pad_final};
use crate::text::{KeyText, Sequence};

/// The number of a sequence that tells a character: no function key has it.
const OTHER: u32 = 27;

/// A control sequence with a number and modifiers.
pub(crate) fn with_number(number: u32, modifiers: u16, text: u32, last: u8) -> KeyText
    ensures { result ≡ with_number number modifiers text last }
{
    KeyText::Control(Sequence {
        number,
        shifted: 0,
        modifiers,
        event: 1,
        text,
        last,
    })
}

/// A function key. Without a number of its own or modifiers it begins with SS3, in the application's form.
fn with_modifiers(code: Code, modifiers: u16, application: bool) -> KeyText
    ensures { result ≡ with_modifiers code modifiers application }
{
    if application && code.number == 1 && modifiers == 1 {
        KeyText::Single(1, code.last)
    } else {
        with_number(code.number, modifiers, 0, code.last)
    }
}

impl Modifiers {
    /// The number of those that xterm has.
    fn near(self) -> u16
        ensures { result ≡ modifier_number self }
    {
        bit(self.shift, 1) + bit(self.alt, 2) + bit(self.control, 4) + 1
    }

    /// Whether one of them is held.
    fn is_held(self) -> bool
        ensures { result ≡ is_held self }
    {
        self.shift || self.alt || self.control
    }
}

/// Whether a character is one of `@` to `~`, of which each has a control.
#[tactic(auto, unfolding(crate::specs::Legacy::is_letter))]
fn is_letter(character: char) -> bool
    ensures { result ≡ is_letter character }
{
    '@' <= character && character <= '~'
}

/// Whether it is another one that has a control.
#[tactic(auto, unfolding(crate::specs::Legacy::has_control))]
fn has_control(character: char) -> bool
    ensures { result ≡ has_control character }
{
    character == ' ' || character == '/' || ('2' <= character && character <= '8')
}

/// What a character is with Control.
#[tactic(auto, unfolding(crate::specs::Legacy::control_of, crate::specs::Legacy::is_letter))]
fn control_of(character: char) -> char
    ensures { result ≡ control_of character }
{
    match character {
        '@'..='~' => char::from((u32::from(character) % 32) as u8),
        ' ' | '2' => '\0',
        '3'..='7' => char::from((u32::from(character) - 0x18) as u8),
        '8' | '?' => '\x7F',
        '/' => '\x1F',
        _ => character,
    }
}

/// Whether modifyOtherKeys has a character told by its number.
#[tactic(auto, unfolding(crate::specs::Legacy::is_told))]
fn is_told(character: char, held: Modifiers, level: u16) -> bool
    ensures { result ≡ is_told character held level }
{
    match level {
        1 => held.control && !is_letter(character) && (held.alt || !has_control(character)),
        2 => held.alt || held.control || (held.shift && (is_letter(character) || character == ' ')),
        _ => false,
    }
}

/// A character by its number with modifiers, or itself, after ESC where Alt is held.
fn told_or_typed(told: bool, modifiers: u16, character: char, alt: bool) -> KeyText
    ensures { result ≡ told_or_typed told modifiers character alt }
{
    if told {
        with_number(OTHER, modifiers, u32::from(character), b'~')
    } else {
        KeyText::Typed(character, alt)
    }
}

/// A key that types a character.
#[tactic(auto, unfolding(crate::specs::Legacy::character_text))]
fn character_text(character: char, held: Modifiers, level: u16) -> KeyText
    ensures { result ≡ character_text character held level }
{
    let told = is_told(character, held, level);
    let typed = if held.control && !told {
        control_of(character)
    } else {
        character
    };
    told_or_typed(told, held.near(), typed, held.alt)
}

/// Enter
#[tactic(auto, unfolding(crate::specs::Legacy::enter_text))]
fn enter_text(held: Modifiers, level: u16) -> KeyText
    ensures { result ≡ enter_text held level }
{
    match level {
        1 => {
            let told = held.shift || (held.control && !held.alt);
            let number = if held.alt { 2 } else { held.near() };
            told_or_typed(told, number, '\r', held.alt)
        }
        2 => told_or_typed(held.is_held(), held.near(), '\r', held.alt),
        _ => KeyText::Typed('\r', held.alt),
    }
}

/// Tab
#[tactic(auto, unfolding(crate::specs::Legacy::tab_text))]
fn tab_text(held: Modifiers, level: u16) -> KeyText
    ensures { result ≡ tab_text held level }
{
    match (level, held.shift) {
        (2, true) if !held.alt && !held.control => with_number(1, 1, 0, b'Z'),
        (2, _) => told_or_typed(held.is_held(), held.near(), '\t', held.alt),
        (_, true) => with_number(1, 1, 0, b'Z'),
        (1, false) => told_or_typed(held.control && !held.alt, held.near(), '\t', held.alt),
        (_, false) => KeyText::Typed('\t', held.alt),
    }
}

/// Escape
#[tactic(auto, unfolding(crate::specs::Legacy::escape_text))]
fn escape_text(held: Modifiers, level: u16) -> KeyText
    ensures { result ≡ escape_text held level }
{
    let told = match level {
        1 => held.alt && (held.shift || held.control),
        2 => held.is_held(),
        _ => false,
    };
    told_or_typed(told, held.near(), '\x1B', held.alt)
}

/// Backspace
#[tactic(auto, unfolding(crate::specs::Legacy::backspace_text))]
fn backspace_text(held: Modifiers, backspace: bool, level: u16) -> KeyText
    ensures { result ≡ backspace_text held backspace level }
{
    let typed = match (backspace, held.control) {
        (true, true) | (false, false) => '\x7F',
        _ => '\x08',
    };
    let told = level == 2 && (held.shift || held.alt);
    told_or_typed(told, held.near(), typed, held.alt)
}

/// A key of the keypad
fn pad_text(key: Pad, held: Modifiers, modes: KeyModes) -> KeyText
    ensures { result ≡ pad_text key held modes }
{
    match key {
        Pad::Begin => with_modifiers(
            Code {
                number: 1,
                last: pad_final(key),
            },
            held.near(),
            modes.cursor_keys,
        ),
        _ if modes.keypad && !held.num_lock => KeyText::Single(held.near(), pad_final(key)),
        _ => KeyText::Typed(char::from(pad_character(key)), false),
    }
}

impl Stroke {
    /// What it is by xterm.
    pub(crate) fn legacy(self, modes: KeyModes, level: u16) -> KeyText
        ensures { result ≡ legacy self.key self modes level }
    {
        let held = self.modifiers;
        match self.key {
            Key::Character(character) => character_text(self.typed(character), held, level),
            Key::Enter => enter_text(held, level),
            Key::Tab => tab_text(held, level),
            Key::Backspace => backspace_text(held, modes.backspace, level),
            Key::Escape => escape_text(held, level),
            Key::Navigation(key) | Key::KeypadNavigation(key) => {
                with_modifiers(navigation_code(key), held.near(), modes.cursor_keys)
            }
            Key::Function(number) => with_modifiers(function_code(number), held.near(), true),
            Key::Keypad(key) => pad_text(key, held, modes),
        }
    }
}
