//! SGR as a setting: the numbers that select a style.
ghost use Rattle.std.specs.Prelude.{◌≡◌, ◌<◌, ◌≤◌, map};
ghost use Rattle.anstyle_parse.specs.Io.Output.{Adds};
ghost use Rattle.ansi_style.specs.Style.{hue_number, HasBytes};
ghost use Rattle.ansi_style.specs.Codes.{one, code_if, color_codes, underline_codes, more_text};
ghost use Rattle.ansi_answers.specs.Text.{selection_text};

use ansi_style::{Color, Hue, Style, Underline};
use anstyle_parse::io::{Output, Sink};

/// The numbers from which those of the text's colours are counted, and of the background's.
const FOREGROUND: u16 = 30;

const BACKGROUND: u16 = 40;
/// How far the bright colours are from the others, and the number before a colour of other kinds.
const BRIGHT: u16 = 60;

const EXTENDED: u16 = 8;

/// The number of a hue, 0 to 7.
fn hue_number(hue: Hue) -> u16
    ensures number { result ≡ hue_number hue }
    ensures few { result < 8 }
{
    match hue {
        Hue::Black => 0,
        Hue::Red => 1,
        Hue::Green => 2,
        Hue::Yellow => 3,
        Hue::Blue => 4,
        Hue::Magenta => 5,
        Hue::Cyan => 6,
        Hue::White => 7,
    }
}

/// Writes numbers, each with `;` before it.
fn put_numbers<W: Sink>(output: &mut Output<W>, numbers: &[u16])
    ensures { Adds W.Sink (more_text (map one numbers.now)) output.old output.new }
{
    for number in numbers {
        output.put_byte(b';');
        output.put_decimal(*number);
    }
}

/// Writes the number, where it is wanted.
fn put_code<W: Sink>(output: &mut Output<W>, wanted: bool, code: u16)
    ensures { Adds W.Sink (more_text (code_if wanted code)) output.old output.new }
{
    if wanted {
        put_numbers(output, &[code]);
    }
}

/// Writes the numbers of a colour, counted from `base`.
fn put_color<W: Sink>(output: &mut Output<W>, base: u16, color: Color)
    requires { base ≤ 40 }
    ensures text { Adds W.Sink (more_text (color_codes base color)) output.old output.new }
    ensures bytes { HasBytes color }
{
    match color {
        Color::Default => {}
        Color::Named(hue) => put_numbers(output, &[base + hue_number(hue)]),
        Color::Bright(hue) => put_numbers(output, &[base + BRIGHT + hue_number(hue)]),
        Color::Indexed(index) => {
            put_numbers(output, &[base + EXTENDED, 5, u16::from(index)]);
        }
        Color::Direct(red, green, blue) => put_numbers(
            output,
            &[
                base + EXTENDED,
                2,
                u16::from(red),
                u16::from(green),
                u16::from(blue),
            ],
        ),
    }
}

/// The numbers of an underline, as they are written.
fn underline_text(underline: Underline) -> &'static [u8]
    ensures { result.now ≡ more_text (underline_codes underline) }
{
    match underline {
        Underline::Off => b"",
        Underline::Single => b";4",
        Underline::Double => b";21",
        Underline::Curly => b";4:3",
        Underline::Dotted => b";4:4",
        Underline::Dashed => b";4:5",
    }
}

/// Writes all numbers of a style, and `m`.
pub(crate) fn put_selection<W: Sink>(output: &mut Output<W>, style: Style)
    ensures text { Adds W.Sink (selection_text style) output.old output.new }
    ensures foreground { HasBytes style.foreground }
    ensures background { HasBytes style.background }
{
    output.put_byte(b'0');
    put_code(output, style.bold, 1);
    put_code(output, style.dim, 2);
    put_code(output, style.italic, 3);
    output.put(underline_text(style.underline));
    put_code(output, style.blink, 5);
    put_code(output, style.reverse, 7);
    put_code(output, style.hidden, 8);
    put_code(output, style.struck_out, 9);
    put_code(output, style.overlined, 53);
    put_color(output, FOREGROUND, style.foreground);
    put_color(output, BACKGROUND, style.background);
    output.put_byte(b'm');
}
