//! Modes in plain bytes.
ghost use Rattle.std.specs.Prelude.{◌≡◌};
ghost use Rattle.screen_pieces.specs.Modes.{HasModes, tracking_of, encoding_of, shape_of};

use ansi_modes::{Asked, Encoding, Shape, Tracking};
use ansi_screen::Screen;
use ansi_style::bytes::flag;

/// How many bytes of modes are kept for later: they are 0.
pub const RESERVED_MODES: usize = 1;

/// The flags of kitty's protocol that are known are below this number.
const KNOWN_FLAGS: u16 = 32;

/// The modes of a screen, and what was asked for beside it: each 1 where it is on, else 0, if nothing else is said.
#[repr(C)]
#[derive(Clone, Copy)]
pub struct ModeBytes {
    /// The cursor is shown (DECTCEM).
    pub is_cursor_shown: u8,
    /// The alternate screen shows.
    pub is_alternate: u8,
    /// A character past the last column goes to the next row (DECAWM).
    pub wraps: u8,
    /// The rest of a row makes room for a character (IRM).
    pub inserts: u8,
    /// Lines are counted from the upper margin (DECOM).
    pub has_origin: u8,
    /// The cursor keys are those of an application (DECCKM).
    pub cursor_keys: u8,
    /// The flags of kitty's keyboard protocol, of the screen that shows.
    pub key_flags: u8,
    /// 1 presses of the mouse are told (9), 2 releases too (1000), 3 drags (1002), 4 all motion (1003); 0 nothing.
    pub mouse: u8,
    /// 1 they are written as by SGR (1006), 2 as by urxvt (1015), 3 in pixels (1016); 0 in three bytes.
    pub mouse_encoding: u8,
    /// The focus is told (1004).
    pub focus: u8,
    /// What is pasted comes in brackets (2004).
    pub paste: u8,
    /// What is shown changes only where this ends (2026).
    pub synchronized: u8,
    /// Light and dark change places on the whole screen (DECSCNM).
    pub reverse: u8,
    /// The cursor is 1 a block, 2 a line below, 3 a bar; 0 as the terminal has it (DECSCUSR).
    pub cursor_shape: u8,
    /// It blinks.
    pub cursor_blinks: u8,
    pub reserved: [u8; RESERVED_MODES],
}

/// The number of the events of the mouse that are told.
fn tracking_number(tracking: Option<Tracking>) -> u8
    ensures { tracking_of result ≡ tracking }
{
    match tracking {
        None => 0,
        Some(Tracking::Presses) => 1,
        Some(Tracking::Buttons) => 2,
        Some(Tracking::Drags) => 3,
        Some(Tracking::Motion) => 4,
    }
}

/// The number of how they are written.
fn encoding_number(encoding: Option<Encoding>) -> u8
    ensures { encoding_of result ≡ encoding }
{
    match encoding {
        None => 0,
        Some(Encoding::Sgr) => 1,
        Some(Encoding::Urxvt) => 2,
        Some(Encoding::Pixels) => 3,
    }
}

/// The number of a shape of the cursor.
fn shape_number(shape: Shape) -> u8
    ensures { shape_of result ≡ shape }
{
    match shape {
        Shape::Own => 0,
        Shape::Block => 1,
        Shape::Underline => 2,
        Shape::Bar => 3,
    }
}

impl ModeBytes {
    /// The modes of a screen, and what was asked for.
    pub(crate) fn of(screen: &Screen, asked: &Asked) -> ModeBytes
        ensures { HasModes result screen.now.display asked.now }
    {
        ModeBytes {
            is_cursor_shown: flag(screen.is_cursor_visible()),
            is_alternate: flag(screen.is_alternate()),
            wraps: flag(screen.wraps()),
            inserts: flag(screen.inserts()),
            has_origin: flag(screen.cursor().is_relative),
            cursor_keys: flag(asked.modes.cursor_keys),
            key_flags: (asked.key_flags() % KNOWN_FLAGS) as u8,
            mouse: tracking_number(asked.modes.tracking),
            mouse_encoding: encoding_number(asked.modes.encoding),
            focus: flag(asked.modes.focus),
            paste: flag(asked.modes.paste),
            synchronized: flag(asked.modes.synchronized),
            reverse: flag(asked.modes.reverse),
            cursor_shape: shape_number(asked.shape),
            cursor_blinks: flag(asked.modes.blink),
            reserved: [0; RESERVED_MODES],
        }
    }
}
