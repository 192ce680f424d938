//! Keys and the mouse in plain bytes, of which any are valid.
ghost use Rattle.std.specs.Prelude.{◌≡◌};
ghost use Rattle.screen_pieces.specs.Keys.{character_numbered, navigation_of, pad_of, key_of, modifiers_of, event_of, stroke_of, button_of, wheel_of, action_of, mouse_by};

use terminal_keys::{
    Action, Button, Event, Key, KeyModes, Modifiers, Mouse, MouseText, Navigation, Pad, Stroke,
    Wheel,
};

/// A key that is pressed, repeats or is released.
#[repr(C)]
#[derive(Clone, Copy)]
pub struct KeyBytes {
    /// What it types without modifiers, where `key` is 0.
    pub character: u32,
    /// What it types with Shift, where that is known; else 0.
    pub shifted: u32,
    /// 0 is a key that types a character; 1 Enter, 2 Tab, 3 Backspace, 4 Escape; 11 up, 12 down, 13 right, 14 left, 15
    /// Home, 16 End, 17 Insert, 18 Delete, 19 Page Up, 20 Page Down; 40 to 49 the digits of the keypad, and then its
    /// point, `/`, `*`, `-`, `+`, separator, `=`, Enter and 5 without NumLock; 61 to 70 on it are as 11 to 20; 101 to
    /// 124 F1 to F24. Any other number is no key.
    pub key: u8,
    /// 1 Shift, 2 Alt, 4 Control, 8 Super, 16 Hyper, 32 Meta, 64 Caps Lock, 128 Num Lock.
    pub modifiers: u8,
    /// 2 where it repeats, 3 where it is released, else it is pressed.
    pub event: u8,
    pub reserved: u8,
}

/// What the mouse does, and where: columns, rows and pixels count from 0.
#[repr(C)]
#[derive(Clone, Copy)]
pub struct MouseBytes {
    pub column: u16,
    pub row: u16,
    pub x: u16,
    pub y: u16,
    /// 1 a button is pressed, or the wheel turned; 2 a button is released; 3 the mouse is moved. Any other number is
    /// nothing.
    pub action: u8,
    /// 1 is the left button, 2 the middle one, 3 the right one, 4 the wheel up, 5 down, 6 to the left, 7 to the right, 8
    /// back, 9 forward; any other number is none.
    pub button: u8,
    /// As of a key.
    pub modifiers: u8,
    pub reserved: u8,
}

/// The character of a number.
fn character_at(number: u32) -> char
    ensures { result ≡ character_numbered number }
{
    match char::from_u32(number) {
        Some(c) => c,
        None => '\0',
    }
}

/// The key of the cursor or of editing of a number.
fn navigation_at(number: u8) -> Navigation
    ensures { result ≡ navigation_of number }
{
    match number {
        1 => Navigation::Up,
        2 => Navigation::Down,
        3 => Navigation::Right,
        4 => Navigation::Left,
        5 => Navigation::Home,
        6 => Navigation::End,
        7 => Navigation::Insert,
        8 => Navigation::Delete,
        9 => Navigation::PageUp,
        _ => Navigation::PageDown,
    }
}

/// The key of the keypad of a number.
fn pad_at(number: u8) -> Pad
    ensures { result ≡ pad_of number }
{
    match number {
        0..=9 => Pad::Digit(number),
        10 => Pad::Decimal,
        11 => Pad::Divide,
        12 => Pad::Multiply,
        13 => Pad::Subtract,
        14 => Pad::Add,
        15 => Pad::Separator,
        16 => Pad::Equal,
        17 => Pad::Return,
        _ => Pad::Begin,
    }
}

/// The modifiers of a number.
#[tactic(auto, unfolding(crate::specs::Keys::modifiers_of))]
fn modifiers_at(number: u8) -> Modifiers
    ensures { result ≡ modifiers_of number }
{
    Modifiers {
        shift: number % 2 == 1,
        alt: number / 2 % 2 == 1,
        control: number / 4 % 2 == 1,
        super_key: number / 8 % 2 == 1,
        hyper: number / 16 % 2 == 1,
        meta: number / 32 % 2 == 1,
        caps_lock: number / 64 % 2 == 1,
        num_lock: number / 128 % 2 == 1,
    }
}

/// What happens to a key, by a number.
fn event_at(number: u8) -> Event
    ensures { result ≡ event_of number }
{
    match number {
        2 => Event::Repeat,
        3 => Event::Release,
        _ => Event::Press,
    }
}

impl KeyBytes {
    /// The key.
    #[tactic(auto, unfolding(crate::specs::Keys::key_of))]
    fn key(self) -> Key
        ensures { result ≡ key_of self.key self.character }
    {
        match self.key {
            0 => Key::Character(character_at(self.character)),
            1 => Key::Enter,
            2 => Key::Tab,
            3 => Key::Backspace,
            4 => Key::Escape,
            11..=20 => Key::Navigation(navigation_at(self.key - 10)),
            40..=58 => Key::Keypad(pad_at(self.key - 40)),
            61..=70 => Key::KeypadNavigation(navigation_at(self.key - 60)),
            101..=124 => Key::Function(self.key - 100),
            _ => Key::Character('\0'),
        }
    }

    /// It as `terminal_keys` has it.
    pub(crate) fn stroke(self) -> Stroke
        ensures { result ≡ stroke_of self }
    {
        Stroke {
            key: self.key(),
            shifted: Some(character_at(self.shifted)),
            modifiers: modifiers_at(self.modifiers),
            event: event_at(self.event),
        }
    }
}

/// The button of a number.
fn button_at(number: u8) -> Option<Button>
    ensures { result ≡ button_of number }
{
    match number {
        1 => Some(Button::Left),
        2 => Some(Button::Middle),
        3 => Some(Button::Right),
        8 => Some(Button::Back),
        9 => Some(Button::Forward),
        _ => None,
    }
}

/// Where the wheel turns to, by its number.
fn wheel_at(number: u8) -> Option<Wheel>
    ensures { result ≡ wheel_of number }
{
    match number {
        4 => Some(Wheel::Up),
        5 => Some(Wheel::Down),
        6 => Some(Wheel::Left),
        7 => Some(Wheel::Right),
        _ => None,
    }
}

impl MouseBytes {
    /// What it does.
    #[tactic(auto, unfolding(crate::specs::Keys::action_of))]
    fn action(self) -> Option<Action>
        ensures { result ≡ action_of self.action self.button }
    {
        match (self.action, wheel_at(self.button), button_at(self.button)) {
            (1, Some(wheel), _) => Some(Action::Turn(wheel)),
            (1, None, Some(button)) => Some(Action::Press(button)),
            (2, _, Some(button)) => Some(Action::Release(button)),
            (3, _, button) => Some(Action::Move(button)),
            _ => None,
        }
    }

    /// What a program reads of it.
    pub(crate) fn text(self, modes: KeyModes) -> MouseText
        ensures { result ≡ mouse_by (action_of self.action self.button) self modes }
    {
        match self.action() {
            None => MouseText::Nothing,
            Some(action) => {
                let mouse = Mouse {
                    action,
                    modifiers: modifiers_at(self.modifiers),
                    column: self.column,
                    row: self.row,
                    x: self.x,
                    y: self.y,
                };
                mouse.text(modes)
            }
        }
    }
}
