//! Keys by their numbers.
ghost use Rattle.std.specs.Prelude.{◌≡◌, ◌<◌};
ghost use Rattle.terminal_keys.specs.Tables.{navigation_code, function_number, function_code, pad_character, pad_final, pad_code, pad_navigation_number, plain_key, key_code, told_function};

use crate::key::{Key, Navigation, Pad};

/// The number and the final byte of a sequence that tells a key.
#[derive(Clone, Copy)]
pub struct Code {
    pub number: u32,
    pub last: u8,
}

/// The final byte of those whose number says which key it is.
const TILDE: u8 = b'~';

/// That of those whose number is a character's, or is of the keys that Unicode has no characters for.
const UNICODE: u8 = b'u';

/// A key that has a number.
fn numbered(number: u32) -> Code
    ensures { result ≡ record { number = number; last = 0x7E } }
{
    Code {
        number,
        last: TILDE,
    }
}

/// A key that has a final byte.
fn lettered(last: u8) -> Code
    ensures { result ≡ record { number = 1; last = last } }
{
    Code { number: 1, last }
}

/// A key that has a number of kitty's.
fn unicode(number: u32) -> Code
    ensures { result ≡ record { number = number; last = 0x75 } }
{
    Code {
        number,
        last: UNICODE,
    }
}

/// Keys of the cursor and of editing.
pub(crate) fn navigation_code(key: Navigation) -> Code
    ensures { result ≡ navigation_code key }
{
    match key {
        Navigation::Up => lettered(b'A'),
        Navigation::Down => lettered(b'B'),
        Navigation::Right => lettered(b'C'),
        Navigation::Left => lettered(b'D'),
        Navigation::End => lettered(b'F'),
        Navigation::Home => lettered(b'H'),
        Navigation::Insert => numbered(2),
        Navigation::Delete => numbered(3),
        Navigation::PageUp => numbered(5),
        Navigation::PageDown => numbered(6),
    }
}

/// The numbers of F5 to F24, which leave some out.
#[tactic(auto, unfolding(crate::specs::Tables::function_number))]
fn function_number(key: u8) -> u32
    ensures { result ≡ function_number key }
{
    let number = u32::from(key);
    match key {
        0..=5 => number + 10,
        6..=10 => number + 11,
        11..=14 => number + 12,
        15..=16 => number + 13,
        17..=20 => number + 14,
        _ => number + 21,
    }
}

/// Function keys, by xterm.
#[tactic(auto, unfolding(crate::specs::Tables::function_code))]
pub(crate) fn function_code(key: u8) -> Code
    ensures { result ≡ function_code key }
{
    if key <= 4 {
        lettered(b'O' + key)
    } else {
        numbered(function_number(key))
    }
}

/// Function keys, by kitty.
#[tactic(auto, unfolding(crate::specs::Tables::told_function))]
fn told_function(key: u8) -> Code
    ensures { result ≡ told_function key }
{
    if key == 3 {
        numbered(13)
    } else if key <= 12 {
        function_code(key)
    } else {
        unicode(u32::from(key) + 57363)
    }
}

/// What a key of the keypad types; CR, where it types nothing.
pub(crate) fn pad_character(key: Pad) -> u8
    ensures character { result ≡ pad_character key }
    ensures ascii { result < 0x80 }
{
    match key {
        Pad::Digit(number) => b'0' + number.min(9),
        Pad::Decimal => b'.',
        Pad::Divide => b'/',
        Pad::Multiply => b'*',
        Pad::Subtract => b'-',
        Pad::Add => b'+',
        Pad::Separator => b',',
        Pad::Equal => b'=',
        Pad::Return | Pad::Begin => b'\r',
    }
}

/// The final byte of a key of the keypad of an application.
pub(crate) fn pad_final(key: Pad) -> u8
    ensures { result ≡ pad_final key }
{
    match key {
        Pad::Digit(number) => b'p' + number.min(9),
        Pad::Decimal => b'n',
        Pad::Divide => b'o',
        Pad::Multiply => b'j',
        Pad::Subtract => b'm',
        Pad::Add => b'k',
        Pad::Separator => b'l',
        Pad::Equal => b'X',
        Pad::Return => b'M',
        Pad::Begin => b'E',
    }
}

/// The keypad's keys, by kitty.
fn pad_code(key: Pad) -> Code
    ensures { result ≡ pad_code key }
{
    match key {
        Pad::Digit(number) => unicode(u32::from(number) + 57399),
        Pad::Decimal => unicode(57409),
        Pad::Divide => unicode(57410),
        Pad::Multiply => unicode(57411),
        Pad::Subtract => unicode(57412),
        Pad::Add => unicode(57413),
        Pad::Return => unicode(57414),
        Pad::Equal => unicode(57415),
        Pad::Separator => unicode(57416),
        Pad::Begin => lettered(b'E'),
    }
}

/// Those where NumLock is off, by kitty.
fn pad_navigation_number(key: Navigation) -> u32
    ensures { result ≡ pad_navigation_number key }
{
    match key {
        Navigation::Left => 57417,
        Navigation::Right => 57418,
        Navigation::Up => 57419,
        Navigation::Down => 57420,
        Navigation::PageUp => 57421,
        Navigation::PageDown => 57422,
        Navigation::Home => 57423,
        Navigation::End => 57424,
        Navigation::Insert => 57425,
        Navigation::Delete => 57426,
    }
}

impl Key {
    /// The same key beside the keypad, where it is one of the keypad.
    pub(crate) fn plain(self) -> Key
        ensures { result ≡ plain_key self }
    {
        match self {
            Key::Keypad(Pad::Begin) => self,
            Key::Keypad(Pad::Return) => Key::Enter,
            Key::Keypad(key) => Key::Character(char::from(pad_character(key))),
            Key::KeypadNavigation(key) => Key::Navigation(key),
            _ => self,
        }
    }

    /// Its number and final byte, by kitty.
    pub(crate) fn code(self) -> Code
        ensures { result ≡ key_code self }
    {
        match self {
            Key::Character(character) => unicode(u32::from(character)),
            Key::Enter => unicode(13),
            Key::Tab => unicode(9),
            Key::Backspace => unicode(127),
            Key::Escape => unicode(27),
            Key::Navigation(key) => navigation_code(key),
            Key::Function(number) => told_function(number),
            Key::Keypad(key) => pad_code(key),
            Key::KeypadNavigation(key) => unicode(pad_navigation_number(key)),
        }
    }
}
