//! What a key is to a program, by its numbers, and the bytes of these.
ghost use Rattle.std.specs.Prelude.{◌≡◌, ◌∷◌, decimal};
ghost use Rattle.terminal_keys.specs.Text.{part, is_short, number_text, has_second, told_event, second_text, modifiers_text, sequence_text, held_text, single_text, escape_text, typed_text, key_bytes};

use crate::taking::{TakeBytes, put_char};

/// The numbers of a control sequence that tells a key.
#[derive(Debug, Clone, Copy, PartialEq, Eq)]
pub struct Sequence {
    /// That of the key.
    pub number: u32,
    /// What it types with Shift; 0, where that is not told.
    pub shifted: u32,
    /// 1 and a bit for each modifier.
    pub modifiers: u16,
    /// 1 where the key is pressed, 2 where it repeats, 3 where it is released.
    pub event: u16,
    /// What it types; 0, where that is not told.
    pub text: u32,
    /// The final byte.
    pub last: u8,
}

/// What a program reads of a key. It is made of numbers alone.
#[derive(Debug, Clone, Copy, PartialEq, Eq)]
pub enum KeyText {
    /// No bytes.
    Nothing,
    /// A character, which may be a control, and before it ESC or not.
    Typed(char, bool),
    /// SS3, the number of the modifiers where it is not 1, and a byte.
    Single(u16, u8),
    /// CSI
    Control(Sequence),
}

/// Writes a number in decimal, without leading zeros.
pub(crate) fn put_number<T: TakeBytes>(to: &mut T, number: u32)
    ensures { T.takes (decimal number) to.old to.new }
{
    if number >= 10 {
        put_number(to, number / 10);
    }
    to.take(&[b'0' + (number % 10) as u8]);
}

/// Writes a mark and a number.
fn put_marked<T: TakeBytes>(to: &mut T, mark: u8, number: u32)
    ensures { T.takes (mark ∷ decimal number) to.old to.new }
{
    to.take(&[mark]);
    put_number(to, number);
}

/// Writes a mark and a number; nothing, where it is 0.
fn put_part<T: TakeBytes>(to: &mut T, mark: u8, number: u32)
    ensures { T.takes (part mark number) to.old to.new }
{
    if number != 0 {
        put_marked(to, mark, number);
    }
}

impl Sequence {
    /// Whether it is its final byte alone.
    fn is_short(self) -> bool
        ensures { result ≡ is_short self }
    {
        self.number == 1
            && self.shifted == 0
            && self.modifiers == 1
            && self.event == 1
            && self.text == 0
    }

    /// Whether modifiers or what happens are told.
    fn has_second(self) -> bool
        ensures { result ≡ has_second self }
    {
        self.modifiers != 1 || self.event != 1
    }

    /// The number of what happens; 0, where that is not told.
    fn told_event(self) -> u32
        ensures { result ≡ told_event self }
    {
        if self.event == 1 {
            0
        } else {
            u32::from(self.event)
        }
    }

    /// Writes the number of the key.
    fn put_key<T: TakeBytes>(self, to: &mut T)
        ensures { T.takes (number_text self) to.old to.new }
    {
        if !self.is_short() {
            put_number(to, self.number);
        }
    }

    /// Writes modifiers and what happens, which are told.
    fn put_second<T: TakeBytes>(self, to: &mut T)
        ensures { T.takes (second_text self) to.old to.new }
    {
        put_marked(to, b';', u32::from(self.modifiers));
        put_part(to, b':', self.told_event());
    }

    /// Writes modifiers and what happens, where they are told, or where a text is.
    fn put_modifiers<T: TakeBytes>(self, to: &mut T)
        ensures { T.takes (modifiers_text self) to.old to.new }
    {
        if self.has_second() {
            self.put_second(to);
        } else if self.text != 0 {
            to.take(b";");
        }
    }

    /// Writes it.
    fn write<T: TakeBytes>(self, to: &mut T)
        ensures { T.takes (sequence_text self) to.old to.new }
    {
        to.take(b"\x1B[");
        self.put_key(to);
        put_part(to, b':', self.shifted);
        self.put_modifiers(to);
        put_part(to, b';', self.text);
        to.take(&[self.last]);
    }
}

/// Writes the number of modifiers, where it is not 1.
fn put_held<T: TakeBytes>(to: &mut T, modifiers: u16)
    ensures { T.takes (held_text modifiers) to.old to.new }
{
    if modifiers != 1 {
        put_number(to, u32::from(modifiers));
    }
}

/// Writes SS3, the number of the modifiers where it is not 1, and a byte.
fn put_single<T: TakeBytes>(to: &mut T, modifiers: u16, last: u8)
    ensures { T.takes (single_text modifiers last) to.old to.new }
{
    to.take(b"\x1BO");
    put_held(to, modifiers);
    to.take(&[last]);
}

/// Writes ESC, or not.
fn put_escape<T: TakeBytes>(to: &mut T, wanted: bool)
    ensures { T.takes (escape_text wanted) to.old to.new }
{
    if wanted {
        to.take(&[0x1B]);
    }
}

/// Writes a character, and before it ESC or not.
fn put_typed<T: TakeBytes>(to: &mut T, character: char, after_escape: bool)
    ensures { T.takes (typed_text character after_escape) to.old to.new }
{
    put_escape(to, after_escape);
    put_char(to, character);
}

impl KeyText {
    /// Writes its bytes.
    pub fn write<T: TakeBytes>(self, to: &mut T)
        ensures { T.takes (key_bytes self) to.old to.new }
    {
        match self {
            KeyText::Nothing => {}
            KeyText::Typed(character, after_escape) => put_typed(to, character, after_escape),
            KeyText::Single(modifiers, last) => put_single(to, modifiers, last),
            KeyText::Control(sequence) => sequence.write(to),
        }
    }
}
