//! xterm's 256 colours by their red, green and blue.
ghost use Rattle.std.specs.Prelude.{◌≡◌};
ghost use Rattle.screen_pieces.specs.Palette.{rgb_numbered};

use ansi_html::contrast::Rgb;
use xterm_palette::indexed;

/// The red, green and blue of one of xterm's 256 colours.
pub fn color_rgb(index: u8) -> Rgb
    ensures { result ≡ rgb_numbered index }
{
    let number = indexed(index);
    Rgb {
        red: (number / 0x1_0000 % 0x100) as u8,
        green: (number / 0x100 % 0x100) as u8,
        blue: (number % 0x100) as u8,
    }
}
