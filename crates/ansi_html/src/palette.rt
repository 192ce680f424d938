//! The colours of a stream: named, of 256, or by red, green and blue.
ghost use Rattle.std.specs.Prelude.{◌≡◌, ◌<◌, if◌then◌else◌};
ghost use Rattle.ansi_html.specs.Contrast.{mixture};
ghost use Rattle.ansi_html.specs.Css.{light_text, dark_text};
ghost use Rattle.ansi_html.specs.Palette.{rgb_of, shaded, alike, named_shades, bright_shades, indexed, level, shades_of};

use crate::contrast::{BLACK, Rgb, WHITE};
use ansi_style::{Color, Hue};

/// A colour as it is shown.
#[derive(Clone, Copy)]
pub(crate) struct Shades {
    /// As a text on light pages.
    pub(crate) light: Rgb,
    /// As a text on dark pages.
    pub(crate) dark: Rgb,
    /// As a ground that the stream selects, and as a text on one.
    pub(crate) fixed: Rgb,
}

/// A colour by its number, red above green above blue, as CSS writes it.
fn rgb_of(number: u32) -> Rgb
    ensures { result ≡ rgb_of number }
{
    Rgb {
        red: (number / 0x1_0000 % 0x100) as u8,
        green: (number / 0x100 % 0x100) as u8,
        blue: (number % 0x100) as u8,
    }
}

/// By the three numbers.
#[inline(always)]
fn shaded(light: u32, dark: u32, fixed: u32) -> Shades
    ensures { result ≡ shaded light dark fixed }
{
    Shades {
        light: rgb_of(light),
        dark: rgb_of(dark),
        fixed: rgb_of(fixed),
    }
}

/// A colour that is the same everywhere.
fn alike(color: Rgb) -> Shades
    ensures { result ≡ alike color }
{
    Shades {
        light: color,
        dark: color,
        fixed: color,
    }
}

/// One of the eight.
fn named_shades(hue: Hue) -> Shades
    ensures { result ≡ named_shades hue }
{
    match hue {
        Hue::Black => shaded(0x24292F, 0x7E8691, 0x000000),
        Hue::Red => shaded(0xCF222E, 0xFF7B72, 0xCD0000),
        Hue::Green => shaded(0x116329, 0x3FB950, 0x00CD00),
        Hue::Yellow => shaded(0x9A6700, 0xD29922, 0xCDCD00),
        Hue::Blue => shaded(0x0969DA, 0x58A6FF, 0x0000EE),
        Hue::Magenta => shaded(0xBC05BC, 0xD670D6, 0xCD00CD),
        Hue::Cyan => shaded(0x1B7C83, 0x39C5CF, 0x00CDCD),
        Hue::White => shaded(0x6E7781, 0xB1BAC4, 0xE5E5E5),
    }
}

/// The same in bright.
fn bright_shades(hue: Hue) -> Shades
    ensures { result ≡ bright_shades hue }
{
    match hue {
        Hue::Black => shaded(0x57606A, 0x8B949E, 0x7F7F7F),
        Hue::Red => shaded(0xA40E26, 0xFFA198, 0xFF0000),
        Hue::Green => shaded(0x1A7F37, 0x56D364, 0x00FF00),
        Hue::Yellow => shaded(0x867000, 0xE3B341, 0xFFFF00),
        Hue::Blue => shaded(0x0550AE, 0x79C0FF, 0x5C5CFF),
        Hue::Magenta => shaded(0xCD00CD, 0xFF87FF, 0xFF00FF),
        Hue::Cyan => shaded(0x0E6B73, 0x56D4DD, 0x00FFFF),
        Hue::White => shaded(0x656D76, 0xFFFFFF, 0xFFFFFF),
    }
}

/// One of the six steps of the cube.
fn level(step: u8) -> u8
    requires { step < 6 }
    ensures { result ≡ level step }
{
    if step == 0 { 0 } else { 55 + 40 * step }
}

/// One of 256.
pub(crate) fn indexed(index: u8) -> Shades
    ensures { result ≡ indexed index }
{
    if index < 8 {
        named_shades(Hue::at(u16::from(index)))
    } else if index < 16 {
        bright_shades(Hue::at(u16::from(index - 8)))
    } else if index < 232 {
        let cell = index - 16;
        alike(Rgb {
            red: level(cell / 36),
            green: level(cell / 6 % 6),
            blue: level(cell % 6),
        })
    } else {
        let grey = 8 + 10 * (index - 232);
        alike(Rgb {
            red: grey,
            green: grey,
            blue: grey,
        })
    }
}

/// The shades of a colour, of which those for pages may not be read there yet: the default is
/// black on light pages and white on dark ones.
#[tactic(auto, unfolding(crate::specs::Palette::shades_of))]
pub(crate) fn shades_of(color: Color) -> Shades
    ensures { result ≡ shades_of color }
{
    match color {
        Color::Default => shaded(0x000000, 0xFFFFFF, 0x000000),
        Color::Named(hue) => named_shades(hue),
        Color::Bright(hue) => bright_shades(hue),
        Color::Indexed(index) => indexed(index),
        Color::Direct(red, green, blue) => alike(Rgb { red, green, blue }),
    }
}

/// A colour on this ground: itself, or dim.
fn dim_if(dim: bool, color: Rgb, behind: Rgb) -> Rgb
    ensures { result ≡ (if dim then mixture color behind else color) }
{
    if dim { color.mixture(behind) } else { color }
}

/// The shade of a text that is read on light pages.
pub(crate) fn light_text(dim: bool, shades: Shades) -> Rgb
    ensures { result ≡ light_text dim shades }
{
    dim_if(dim, shades.light, WHITE).light_shade()
}

/// The shade of a text that is read on dark pages.
pub(crate) fn dark_text(dim: bool, shades: Shades) -> Rgb
    ensures { result ≡ dark_text dim shades }
{
    dim_if(dim, shades.dark, BLACK).dark_shade()
}
