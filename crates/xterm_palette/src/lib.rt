//! The colours of xterm's palette as numbers.
//!
//! ```
//! let red = number_of(Color::Named(Hue::Red));
//! // 0xCD0000
//! ```
#![tactic(auto)]

ghost use Rattle.std.specs.Prelude.{◌≡◌, ◌<◌};
ghost use Rattle.xterm_palette.specs.Palette.{named, bright, mixed, level, cube, grey, indexed, number_of};

use ansi_style::{Color, Hue};

/// One of the eight.
pub fn named(hue: Hue) -> u32
    ensures { result ≡ named hue }
{
    match hue {
        Hue::Black => 0x000000,
        Hue::Red => 0xCD0000,
        Hue::Green => 0x00CD00,
        Hue::Yellow => 0xCDCD00,
        Hue::Blue => 0x0000EE,
        Hue::Magenta => 0xCD00CD,
        Hue::Cyan => 0x00CDCD,
        Hue::White => 0xE5E5E5,
    }
}

/// The same in bright.
pub fn bright(hue: Hue) -> u32
    ensures { result ≡ bright hue }
{
    match hue {
        Hue::Black => 0x7F7F7F,
        Hue::Red => 0xFF0000,
        Hue::Green => 0x00FF00,
        Hue::Yellow => 0xFFFF00,
        Hue::Blue => 0x5C5CFF,
        Hue::Magenta => 0xFF00FF,
        Hue::Cyan => 0x00FFFF,
        Hue::White => 0xFFFFFF,
    }
}

/// A colour by its red, green and blue.
fn mixed(red: u8, green: u8, blue: u8) -> u32
    ensures { result ≡ mixed red green blue }
{
    0x1_0000 * u32::from(red) + (0x100 * u32::from(green) + u32::from(blue))
}

/// One of the six steps of the cube.
fn level(step: u8) -> u8
    requires { step < 6 }
    ensures { result ≡ level step }
{
    if step == 0 { 0 } else { 55 + 40 * step }
}

/// One of 256.
pub fn indexed(index: u8) -> u32
    ensures { result ≡ indexed index }
{
    if index < 8 {
        named(Hue::at(u16::from(index)))
    } else if index < 16 {
        bright(Hue::at(u16::from(index - 8)))
    } else if index < 232 {
        let cell = index - 16;
        mixed(level(cell / 36), level(cell / 6 % 6), level(cell % 6))
    } else {
        let grey = 8 + 10 * (index - 232);
        mixed(grey, grey, grey)
    }
}

/// The number of a colour, 0xRRGGBB: its red, green and blue. The terminal's own has none.
#[tactic(auto, unfolding(crate::specs::Palette::number_of))]
pub fn number_of(color: Color) -> Option<u32>
    ensures { result ≡ number_of color }
{
    match color {
        Color::Default => None,
        Color::Named(hue) => Some(named(hue)),
        Color::Bright(hue) => Some(bright(hue)),
        Color::Indexed(index) => Some(indexed(index)),
        Color::Direct(red, green, blue) => Some(mixed(red, green, blue)),
    }
}
