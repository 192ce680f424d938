//! The control sequence that leads from any style to a given one.
ghost use Rattle.std.specs.Prelude.{◌≡◌, ℕ, ◌+◌, ◌<◌, ◌∷◌, [], map};
ghost use Rattle.anstyle_parse.specs.Io.Output.{Adds};
ghost use Rattle.anstyle_parse.specs.Stream.Calls.{AreCalls};
ghost use Rattle.anstyle_parse.specs.Laws.Lawful.{AreLawful};
ghost use Rattle.ansi_style.specs.Style.{hue_number, HasBytes};
ghost use Rattle.ansi_style.specs.Rendition.{selected};
ghost use Rattle.ansi_style.specs.Codes.{one, code_if, color_codes, underline_codes, other_codes, codes_of, codes_text, selection, more_text};

use crate::style::{Color, Hue, Style, Underline};
use anstyle_parse::io::{Output, Sink};

/// The codes from which those of the text's colours are counted, and of the background's.
const FOREGROUND: u16 = 30;

const BACKGROUND: u16 = 40;
/// How far the bright colours are from the others.
const BRIGHT: u16 = 60;
/// How far the code before a colour of other kinds is.
const EXTENDED: u16 = 8;

impl Hue {
    /// Its number, 0 to 7.
    fn number(self) -> u16
        ensures number { result ≡ hue_number self }
        ensures few { result < 8 }
    {
        match self {
            Hue::Black => 0,
            Hue::Red => 1,
            Hue::Green => 2,
            Hue::Yellow => 3,
            Hue::Blue => 4,
            Hue::Magenta => 5,
            Hue::Cyan => 6,
            Hue::White => 7,
        }
    }
}

/// Writes numbers, each with `;` before it.
fn put_numbers<W: Sink>(output: &mut Output<W>, numbers: &[u16])
    ensures { Adds W.Sink (more_text (map one numbers.now)) output.old output.new }
{
    for number in numbers {
        output.put_byte(b';');
        output.put_decimal(*number);
    }
}

/// Writes the code, where it is wanted.
fn put_code<W: Sink>(output: &mut Output<W>, wanted: bool, code: u16)
    ensures { Adds W.Sink (more_text (code_if wanted code)) output.old output.new }
{
    if wanted {
        put_numbers(output, &[code]);
    }
}

/// Writes the codes of a colour, counted from `base`.
fn put_color<W: Sink>(output: &mut Output<W>, base: u16, color: Color)
    requires { base < 50 }
    ensures text { Adds W.Sink (more_text (color_codes base color)) output.old output.new }
    ensures bytes { HasBytes color }
{
    match color {
        Color::Default => {}
        Color::Named(hue) => put_numbers(output, &[base + hue.number()]),
        Color::Bright(hue) => put_numbers(output, &[base + BRIGHT + hue.number()]),
        Color::Indexed(index) => {
            put_numbers(output, &[base + EXTENDED, 5, u16::from(index)]);
        }
        Color::Direct(red, green, blue) => put_numbers(
            output,
            &[
                base + EXTENDED,
                2,
                u16::from(red),
                u16::from(green),
                u16::from(blue),
            ],
        ),
    }
}

/// The codes of an underline, as they are written.
fn underline_text(underline: Underline) -> &'static [u8]
    ensures { result.now ≡ more_text (underline_codes underline) }
{
    match underline {
        Underline::Off => b"",
        Underline::Single => b";4",
        Underline::Double => b";21",
        Underline::Curly => b";4:3",
        Underline::Dotted => b";4:4",
        Underline::Dashed => b";4:5",
    }
}

impl Style {
    /// Writes the control sequence that leads from any style to this one: ESC `[0`, the codes
    /// of what is not plain, each with `;` before it, and `m`.
    ///
    /// A pager or a line wrapper writes it at the start of a line, and what the line shows then
    /// does not depend on the lines before.
    pub fn write_codes<W: Sink>(self, output: &mut Output<W>)
        ensures text { Adds W.Sink (codes_text self) output.old output.new }

        // From any style it leads to this one.
        ensures leads { (before : Style) → selected (codes_of self) before ≡ self }

        // It makes exactly one call, which a parser can make.
        ensures made { AreCalls (codes_text self) (selection (codes_of self) ∷ []) }
        ensures lawful { AreLawful (selection (codes_of self) ∷ []) }
    {
        output.put(b"\x1B[0");
        put_code(output, self.bold, 1);
        put_code(output, self.dim, 2);
        put_code(output, self.italic, 3);
        output.put(underline_text(self.underline));
        put_code(output, self.blink, 5);
        put_code(output, self.reverse, 7);
        put_code(output, self.hidden, 8);
        put_code(output, self.struck_out, 9);
        put_code(output, self.overlined, 53);
        put_color(output, FOREGROUND, self.foreground);
        put_color(output, BACKGROUND, self.background);
        output.put_byte(b'm');
    }
}
