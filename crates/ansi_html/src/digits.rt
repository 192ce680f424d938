//! The digits of colours.
ghost use Rattle.std.specs.Prelude.{◌≡◌, ◌<◌, [], slice_index_or};
ghost use Rattle.ansi_html.specs.Palette.{hex_digit, shades_of};
ghost use Rattle.ansi_style.specs.Style.{hue_number};
ghost use Rattle.ansi_html.specs.Css.{light_text, dark_text};
ghost use Rattle.ansi_html.specs.Tags.{digits};

use crate::contrast::Rgb;
use crate::palette::{dark_text, light_text, shades_of};
use ansi_style::{Color, Hue};

/// The digits of a text's colour: on light pages, and on dark ones.
#[derive(Clone, Copy)]
pub(crate) struct PageDigits {
    pub(crate) light: [u8; 6],
    pub(crate) dark: [u8; 6],
}

/// The hexadecimal digits.
const DIGITS: [u8; 16] = *b"0123456789abcdef";

/// The last hexadecimal digit of a number, in lower case.
#[inline(always)]
fn digit(number: u8) -> u8
    ensures { result ≡ hex_digit number }
{
    DIGITS[(number % 16) as usize]
}

/// The digits of a colour.
#[inline(always)]
pub(crate) fn digits(color: Rgb) -> [u8; 6]
    ensures { result ≡ digits color }
{
    [
        digit(color.red / 16),
        digit(color.red),
        digit(color.green / 16),
        digit(color.green),
        digit(color.blue / 16),
        digit(color.blue),
    ]
}

/// Those of a text on its page.
#[inline(always)]
pub(crate) fn page_digits(dim: bool, text: Color) -> PageDigits
    ensures light { result.light ≡ digits (light_text dim (shades_of text)) }
    ensures dark { result.dark ≡ digits (dark_text dim (shades_of text)) }
{
    match text {
        Color::Named(hue) if !dim => digits_at(&NAMED, hue),
        Color::Bright(hue) if !dim => digits_at(&BRIGHT, hue),
        _ => shade_digits(dim, text),
    }
}

/// The number of a hue.
#[inline(always)]
fn number(hue: Hue) -> usize
    ensures value { result ≡ hue_number hue }
    ensures few { result < 8 }
{
    hue as usize
}

/// Those of a hue in a table of the eight, which are read on both pages as they are.
#[inline(always)]
fn digits_at(table: &[[[u8; 6]; 2]; 8], hue: Hue) -> PageDigits
    ensures light { result.light ≡ slice_index_or (slice_index_or table.now (hue_number hue) []) 0 [] }
    ensures dark { result.dark ≡ slice_index_or (slice_index_or table.now (hue_number hue) []) 1 [] }
{
    let [light, dark] = table[number(hue)];
    PageDigits { light, dark }
}

/// Those of its shades for the pages.
#[inline(never)]
fn shade_digits(dim: bool, text: Color) -> PageDigits
    ensures light { result.light ≡ digits (light_text dim (shades_of text)) }
    ensures dark { result.dark ≡ digits (dark_text dim (shades_of text)) }
{
    let shades = shades_of(text);
    PageDigits {
        light: digits(light_text(dim, shades)),
        dark: digits(dark_text(dim, shades)),
    }
}

/// The shades of the eight for light pages and for dark ones, in the order of their numbers.
static NAMED: [[[u8; 6]; 2]; 8] = [
    [*b"24292f", *b"7e8691"],
    [*b"cf222e", *b"ff7b72"],
    [*b"116329", *b"3fb950"],
    [*b"9a6700", *b"d29922"],
    [*b"0969da", *b"58a6ff"],
    [*b"bc05bc", *b"d670d6"],
    [*b"1b7c83", *b"39c5cf"],
    [*b"6e7781", *b"b1bac4"],
];

/// The same of the bright ones.
static BRIGHT: [[[u8; 6]; 2]; 8] = [
    [*b"57606a", *b"8b949e"],
    [*b"a40e26", *b"ffa198"],
    [*b"1a7f37", *b"56d364"],
    [*b"867000", *b"e3b341"],
    [*b"0550ae", *b"79c0ff"],
    [*b"cd00cd", *b"ff87ff"],
    [*b"0e6b73", *b"56d4dd"],
    [*b"656d76", *b"ffffff"],
];
