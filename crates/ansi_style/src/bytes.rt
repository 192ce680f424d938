//! Styles in plain bytes, of which any are valid: for what is kept or handed on as bytes.
ghost use Rattle.std.specs.Prelude.{◌≡◌, ◌≤◌, not, ◌==◌, if◌then◌else◌};
ghost use Rattle.std.specs.Bool.{OnTrue};
ghost use Rattle.ansi_style.specs.declared.style.Color.TheVariants.{Default};
ghost use Rattle.ansi_style.specs.Bytes.{color_of, kind_of, underline_of, is_set, style_of};

use crate::style::{Color, Hue, Style, Underline};

/// A colour.
#[repr(C)]
#[derive(Clone, Copy)]
pub struct ColorBytes {
    /// 1 one of the eight, 2 the same in bright, 3 one of the 256, 4 by its red, green and blue;
    /// any other number is the terminal's own.
    pub kind: u8,
    /// Its number, or its red, green and blue. A number above 7 of one of the eight is 7.
    pub values: [u8; 3],
}

/// A style.
#[repr(C)]
#[derive(Clone, Copy)]
pub struct StyleBytes {
    pub foreground: ColorBytes,
    pub background: ColorBytes,
    /// 1 single, 2 double, 3 curly, 4 dotted, 5 dashed; any other number is none.
    pub underline: u8,
    /// 0 where the text is not bold, and any other number where it is; so it is with the fields below.
    pub bold: u8,
    pub dim: u8,
    pub italic: u8,
    pub blink: u8,
    pub reverse: u8,
    pub hidden: u8,
    pub struck_out: u8,
    pub overlined: u8,
}

/// The number of the kind of a colour, as [`ColorBytes::kind`] has it.
#[inline(always)]
pub fn kind_number(color: &Color) -> u8
    ensures kind { result ≡ kind_of color.now }
    ensures own { result ≡ 0 → color.now ≡ Default }
{
    match *color {
        Color::Default => 0,
        Color::Named(_) => 1,
        Color::Bright(_) => 2,
        Color::Indexed(_) => 3,
        Color::Direct(_, _, _) => 4,
    }
}

impl ColorBytes {
    /// The terminal's own colour.
    #[inline(always)]
    pub fn own() -> ColorBytes
        ensures { color_of result ≡ Default }
    {
        ColorBytes {
            kind: 0,
            values: [0, 0, 0],
        }
    }

    /// A colour that is the terminal's own or has a number: two bytes of its memory tell it, and no table of cases.
    #[inline(always)]
    pub fn by_number(color: &Color) -> ColorBytes
        requires { kind_of color.now ≤ 3 }
        ensures { color_of result ≡ color.now }
    {
        let number = match *color {
            Color::Default => 0,
            Color::Named(hue) => hue as u8,
            Color::Bright(hue) => hue as u8,
            Color::Indexed(number) => number,
            Color::Direct(red, _, _) => red,
        };
        ColorBytes {
            kind: kind_number(color),
            values: [number, 0, 0],
        }
    }

    /// The bytes of a colour.
    pub fn of(color: Color) -> ColorBytes
        ensures { color_of result ≡ color }
    {
        let (kind, values) = match color {
            Color::Default => return ColorBytes::own(),
            Color::Named(hue) => (1, [hue as u8, 0, 0]),
            Color::Bright(hue) => (2, [hue as u8, 0, 0]),
            Color::Indexed(number) => (3, [number, 0, 0]),
            Color::Direct(red, green, blue) => (4, [red, green, blue]),
        };
        ColorBytes { kind, values }
    }

    /// Whether these are the same bytes.
    fn is(self, other: ColorBytes) -> bool
        ensures { OnTrue result (self ≡ other) }
    {
        self.kind == other.kind && self.values == other.values
    }

    /// The colour that these bytes say.
    pub(crate) fn color(self) -> Color
        ensures { result ≡ color_of self }
    {
        let [first, second, third] = self.values;
        match self.kind {
            1 => Color::Named(Hue::at(u16::from(first))),
            2 => Color::Bright(Hue::at(u16::from(first))),
            3 => Color::Indexed(first),
            4 => Color::Direct(first, second, third),
            _ => Color::Default,
        }
    }
}

/// The underline of a number.
fn underline(number: u8) -> Underline
    ensures { result ≡ underline_of number }
{
    match number {
        1 => Underline::Single,
        2 => Underline::Double,
        3 => Underline::Curly,
        4 => Underline::Dotted,
        5 => Underline::Dashed,
        _ => Underline::Off,
    }
}

/// The number of an underline.
fn underline_number(underline: Underline) -> u8
    ensures { underline_of result ≡ underline }
{
    match underline {
        Underline::Off => 0,
        Underline::Single => 1,
        Underline::Double => 2,
        Underline::Curly => 3,
        Underline::Dotted => 4,
        Underline::Dashed => 5,
    }
}

/// The number of what is or is not, as that of an attribute: 1 or 0.
pub fn flag(is: bool) -> u8
    ensures { is_set result ≡ is }
{
    u8::from(is)
}

impl StyleBytes {
    /// The bytes of a style, of whose colours these are the bytes.
    #[inline(always)]
    pub fn with(style: &Style, foreground: ColorBytes, background: ColorBytes) -> StyleBytes
        requires foreground { color_of foreground ≡ style.now.foreground }
        requires background { color_of background ≡ style.now.background }
        ensures { style_of result ≡ style.now }
    {
        StyleBytes {
            foreground,
            background,
            underline: underline_number(style.underline),
            bold: flag(style.bold),
            dim: flag(style.dim),
            italic: flag(style.italic),
            blink: flag(style.blink),
            reverse: flag(style.reverse),
            hidden: flag(style.hidden),
            struck_out: flag(style.struck_out),
            overlined: flag(style.overlined),
        }
    }

    /// The bytes of a style.
    pub fn of(style: Style) -> StyleBytes
        ensures { style_of result ≡ style }
    {
        StyleBytes::with(
            &style,
            ColorBytes::of(style.foreground),
            ColorBytes::of(style.background),
        )
    }

    /// Whether these are the same bytes, and so the same style.
    pub fn is(self, other: StyleBytes) -> bool
        ensures { OnTrue result (self ≡ other) }
    {
        self.foreground.is(other.foreground)
            && self.background.is(other.background)
            && self.underline == other.underline
            && self.bold == other.bold
            && self.dim == other.dim
            && self.italic == other.italic
            && self.blink == other.blink
            && self.reverse == other.reverse
            && self.hidden == other.hidden
            && self.struck_out == other.struck_out
            && self.overlined == other.overlined
    }

    /// The style that these bytes say.
    pub fn style(self) -> Style
        ensures { result ≡ style_of self }
    {
        Style {
            foreground: self.foreground.color(),
            background: self.background.color(),
            underline: underline(self.underline),
            bold: self.bold != 0,
            dim: self.dim != 0,
            italic: self.italic != 0,
            blink: self.blink != 0,
            reverse: self.reverse != 0,
            hidden: self.hidden != 0,
            struck_out: self.struck_out != 0,
            overlined: self.overlined != 0,
        }
    }
}
