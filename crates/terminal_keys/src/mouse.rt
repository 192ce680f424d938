//! The mouse.
ghost use Rattle.std.specs.Prelude.{◌≡◌, ◌≤◌, decimal};
ghost use Rattle.terminal_keys.specs.Mouse.{button_code, wheel_code, action_code, is_released, held_code, is_mouse_told, packed, mouse_code, mouse_written, mouse_text, numbers_text, urxvt_text, last_byte, sgr_text, mouse_bytes};

use crate::key::{Modifiers, bit};
use crate::modes::KeyModes;
use crate::taking::TakeBytes;
use crate::text::put_number;
use ansi_modes::{Encoding, Tracking};

/// A button.
#[derive(Debug, Clone, Copy, PartialEq, Eq)]
pub enum Button {
    Left,
    Middle,
    Right,
    Back,
    Forward,
}

/// Where the wheel turns to.
#[derive(Debug, Clone, Copy, PartialEq, Eq)]
pub enum Wheel {
    Up,
    Down,
    Left,
    Right,
}

/// What the mouse does.
#[derive(Debug, Clone, Copy, PartialEq, Eq)]
pub enum Action {
    Press(Button),
    Release(Button),
    /// The wheel turns by a notch.
    Turn(Wheel),
    /// The mouse comes to another cell, or to another pixel where these are asked for; and the button that is down.
    Move(Option<Button>),
}

/// What the mouse does, and where: rows, columns and pixels count from 0.
#[derive(Debug, Clone, Copy, PartialEq, Eq)]
pub struct Mouse {
    pub action: Action,
    pub modifiers: Modifiers,
    pub column: u16,
    pub row: u16,
    pub x: u16,
    pub y: u16,
}

/// What a program reads of the mouse. It is made of numbers alone.
#[derive(Debug, Clone, Copy, PartialEq, Eq)]
pub enum MouseText {
    /// No bytes.
    Nothing,
    /// Three bytes: the code, the column and the row.
    Bytes(u8, u8, u8),
    /// The code, column and row, and whether a button is released.
    Sgr(u8, u32, u32, bool),
    /// The code, column and row.
    Urxvt(u8, u32, u32),
}

/// How many columns and rows a byte can tell.
const FEW: u16 = 223;

/// The code of a button.
fn button_code(button: Button) -> u8
    ensures code { result ≡ button_code button }
    ensures bound { result ≤ 129 }
{
    match button {
        Button::Left => 0,
        Button::Middle => 1,
        Button::Right => 2,
        Button::Back => 128,
        Button::Forward => 129,
    }
}

/// That of the wheel.
fn wheel_code(wheel: Wheel) -> u8
    ensures code { result ≡ wheel_code wheel }
    ensures bound { result ≤ 67 }
{
    match wheel {
        Wheel::Up => 64,
        Wheel::Down => 65,
        Wheel::Left => 66,
        Wheel::Right => 67,
    }
}

impl Action {
    /// Its code. Only one of the encodings tells which button is released.
    fn code(self, is_named: bool) -> u8
        ensures code { result ≡ action_code self is_named }
        ensures bound { result ≤ 161 }
    {
        match self {
            Action::Press(button) => button_code(button),
            Action::Release(button) => { if is_named { button_code(button) } else { 3 } }
            Action::Turn(wheel) => wheel_code(wheel),
            Action::Move(Some(button)) => button_code(button) + 32,
            Action::Move(None) => 35,
        }
    }

    /// Whether a button is released.
    fn is_released(self) -> bool
        ensures { result ≡ is_released self }
    {
        matches!(self, Action::Release(_))
    }

    /// Whether a program that tracks the mouse is told of it.
    #[tactic(auto, unfolding(crate::specs::Mouse::is_mouse_told))]
    fn is_told(self, tracking: Tracking) -> bool
        ensures { result ≡ is_mouse_told tracking self }
    {
        match (tracking, self) {
            (Tracking::Presses, Action::Press(Button::Left | Button::Middle | Button::Right)) =>
                true,
            (Tracking::Presses, _) => false,
            (Tracking::Motion, _) => true,
            (_, Action::Move(None)) => false,
            (Tracking::Buttons, Action::Move(_)) => false,
            _ => true,
        }
    }
}

impl Modifiers {
    /// The code of those that are held.
    fn code(self, tracking: Tracking) -> u8
        ensures code { result ≡ held_code tracking self }
        ensures bound { result ≤ 28 }
    {
        match tracking {
            Tracking::Presses => 0,
            _ => (bit(self.shift, 4) + bit(self.alt, 8) + bit(self.control, 16)) as u8,
        }
    }
}

/// Three bytes, where they can tell the place.
#[tactic(auto, unfolding(crate::specs::Mouse::packed))]
fn packed(code: u8, column: u16, row: u16) -> MouseText
    requires { code ≤ 189 }
    ensures { result ≡ packed code column row }
{
    if column < FEW && row < FEW {
        MouseText::Bytes(code + 32, (column + 33) as u8, (row + 33) as u8)
    } else {
        MouseText::Nothing
    }
}

impl Mouse {
    /// Its code.
    fn code(self, tracking: Tracking, is_named: bool) -> u8
        ensures code { result ≡ mouse_code self tracking is_named }
        ensures bound { result ≤ 189 }
    {
        self.action.code(is_named) + self.modifiers.code(tracking)
    }

    /// It as an encoding has it.
    fn written(self, tracking: Tracking, encoding: Option<Encoding>) -> MouseText
        ensures { result ≡ mouse_written self tracking encoding }
    {
        let column = u32::from(self.column) + 1;
        let row = u32::from(self.row) + 1;
        let is_released = self.action.is_released();
        match encoding {
            None => packed(self.code(tracking, false), self.column, self.row),
            Some(Encoding::Sgr) => MouseText::Sgr(
                self.code(tracking, true),
                column,
                row,
                is_released,
            ),
            Some(Encoding::Urxvt) => MouseText::Urxvt(self.code(tracking, false) + 32, column, row),
            Some(Encoding::Pixels) => MouseText::Sgr(
                self.code(tracking, true),
                u32::from(self.x) + 1,
                u32::from(self.y) + 1,
                is_released,
            ),
        }
    }

    /// What a program reads of it: nothing, where it asked for nothing of the kind.
    pub fn text(self, modes: KeyModes) -> MouseText
        ensures { result ≡ mouse_text self modes }
    {
        match modes.tracking {
            Some(tracking) if self.action.is_told(tracking) => self.written(
                tracking,
                modes.encoding,
            ),
            _ => MouseText::Nothing,
        }
    }
}

/// Writes a code, a column and a row, and the byte after them.
fn put_numbers<T: TakeBytes>(to: &mut T, code: u8, column: u32, row: u32, last: u8)
    ensures { T.takes (numbers_text code column row last) to.old to.new }
{
    put_number(to, u32::from(code));
    to.take(b";");
    put_number(to, column);
    to.take(b";");
    put_number(to, row);
    to.take(&[last]);
}

/// Writes them after CSI.
fn put_urxvt<T: TakeBytes>(to: &mut T, code: u8, column: u32, row: u32)
    ensures { T.takes (urxvt_text code column row) to.old to.new }
{
    to.take(b"\x1B[");
    put_numbers(to, code, column, row, b'M');
}

/// The byte that ends a press or a motion, or a release.
fn last_byte(is_released: bool) -> u8
    ensures { result ≡ last_byte is_released }
{
    if is_released { b'm' } else { b'M' }
}

/// Writes them after CSI <.
fn put_sgr<T: TakeBytes>(to: &mut T, code: u8, column: u32, row: u32, is_released: bool)
    ensures { T.takes (sgr_text code column row is_released) to.old to.new }
{
    to.take(b"\x1B[<");
    put_numbers(to, code, column, row, last_byte(is_released));
}

impl MouseText {
    /// Writes its bytes.
    pub fn write<T: TakeBytes>(self, to: &mut T)
        ensures { T.takes (mouse_bytes self) to.old to.new }
    {
        match self {
            MouseText::Nothing => {}
            MouseText::Bytes(code, column, row) => to.take(&[0x1B, b'[', b'M', code, column, row]),
            MouseText::Sgr(code, column, row, is_released) => put_sgr(
                to,
                code,
                column,
                row,
                is_released,
            ),
            MouseText::Urxvt(code, column, row) => put_urxvt(to, code, column, row),
        }
    }
}
