//! A style as a list of classes.
ghost use Rattle.std.specs.Prelude.{◌≡◌, ◌++◌, ◌∷◌, Some, codes, option_to_list};
ghost use Rattle.std.specs.List.{flat_map};
ghost use Rattle.anstyle_parse.specs.Io.Output.{Adds};
ghost use Rattle.ansi_html.specs.Classes.{number_of, text_class, ground_class, class_if, lines_class, underline_class, colored_word, letters, class_word, class_name, class_names, classes_of};

use crate::contrast::Rgb;
use crate::css::{colors_of, has_line, is_underlined, put_if, underline_word};
use ansi_style::laws::hue_as_number;
use ansi_style::{Color, Style, Underline};
use anstyle_parse::io::{Output, Sink};

/// A class of the stylesheet. A number is that of one of the 256 colours; where there is none, the colour
/// is the default.
#[derive(Clone, Copy)]
pub(crate) enum Class {
    /// A link, whose text has the colour of the text around it.
    Link,
    /// The colour of a text on the page's ground.
    OnPage {
        dim: bool,
        number: Option<u8>,
    },
    /// The colour of one on a ground of the page's own text.
    OnReversed {
        dim: bool,
        number: Option<u8>,
    },
    /// The colour of a text, where both it and its ground are chosen.
    OnGround {
        number: u8,
    },
    /// The colour of a text for which none is chosen, on a chosen ground, which has this number.
    Ink {
        dim: bool,
        number: u8,
    },
    /// A ground of the page's own text.
    Reversed,
    /// A ground that is chosen.
    Ground {
        number: u8,
    },
    Bold,
    Italic,
    /// The lines that a text has.
    Lines {
        underlined: bool,
        overlined: bool,
        struck_out: bool,
        blink: bool,
    },
    /// How an underline is drawn.
    Drawn(Underline),
    Hidden,
}

/// The number of a colour among the 256; the default has none.
fn number_of(color: Color) -> Option<u8>
    ensures { result ≡ number_of color }
{
    match color {
        Color::Default => None,
        Color::Named(hue) => Some(hue_as_number(hue)),
        Color::Bright(hue) => Some(8 + hue_as_number(hue)),
        Color::Indexed(index) => Some(index),
        Color::Direct(red, green, blue) => Some(Rgb { red, green, blue }.nearest()),
    }
}

/// The class of the colour of a style's text.
fn text_class(style: Style) -> Option<Class>
    ensures { result ≡ text_class style }
{
    let dim = style.dim;
    let (text, behind) = colors_of(style);
    match (number_of(text), number_of(behind)) {
        (Some(number), Some(_)) => Some(Class::OnGround { number }),
        (None, Some(number)) => Some(Class::Ink { dim, number }),
        (number, None) => {
            if style.reverse {
                Some(Class::OnReversed { dim, number })
            } else {
                class_if(number.is_some() || dim, Class::OnPage { dim, number })
            }
        }
    }
}

/// The class of its ground.
fn ground_class(style: Style) -> Option<Class>
    ensures { result ≡ ground_class style }
{
    let (_, behind) = colors_of(style);
    match number_of(behind) {
        Some(number) => Some(Class::Ground { number }),
        None => class_if(style.reverse, Class::Reversed),
    }
}

/// The class, where it is wanted.
fn class_if(wanted: bool, class: Class) -> Option<Class>
    ensures { result ≡ class_if wanted class }
{
    if wanted { Some(class) } else { None }
}

/// The class of its lines.
fn lines_class(style: Style) -> Option<Class>
    ensures { result ≡ lines_class style }
{
    let underlined = is_underlined(style.underline);
    let overlined = style.overlined;
    let struck_out = style.struck_out;
    let blink = style.blink;
    class_if(
        has_line(underlined, overlined, struck_out, blink),
        Class::Lines {
            underlined,
            overlined,
            struck_out,
            blink,
        },
    )
}

/// The class of how its underline is drawn, if not as a line.
fn underline_class(underline: Underline) -> Option<Class>
    ensures { result ≡ underline_class underline }
{
    match underline {
        Underline::Off | Underline::Single => None,
        _ => Some(Class::Drawn(underline)),
    }
}

/// A letter, with another before it for a dim text, and the number of a colour.
fn put_colored<W: Sink>(output: &mut Output<W>, dim: bool, letter: u8, number: Option<u8>)
    ensures { Adds W.Sink (colored_word dim letter number) output.old output.new }
{
    put_if(output, dim, b"d");
    output.put_byte(letter);
    if let Some(number) = number {
        output.put_decimal(u16::from(number));
    }
}

/// A letter for each line.
fn put_letters<W: Sink>(
    output: &mut Output<W>,
    underlined: bool,
    overlined: bool,
    struck_out: bool,
    blink: bool,
)
    ensures { Adds W.Sink (letters underlined overlined struck_out blink) output.old output.new }
{
    put_if(output, underlined, b"u");
    put_if(output, overlined, b"o");
    put_if(output, struck_out, b"s");
    put_if(output, blink, b"k");
}

/// What the name of a class has after its prefix.
fn put_word<W: Sink>(output: &mut Output<W>, class: Class)
    ensures { Adds W.Sink (class_word class) output.old output.new }
{
    match class {
        Class::Link => output.put(b"link"),
        Class::OnPage { dim, number } => put_colored(output, dim, b'f', number),
        Class::OnReversed { dim, number } => put_colored(output, dim, b'r', number),
        Class::OnGround { number } => put_colored(output, false, b't', Some(number)),
        Class::Ink { dim, number } => put_colored(output, dim, b'i', Some(number)),
        Class::Reversed => output.put(b"reverse"),
        Class::Ground { number } => put_colored(output, false, b'b', Some(number)),
        Class::Bold => output.put(b"bold"),
        Class::Italic => output.put(b"italic"),
        Class::Lines {
            underlined,
            overlined,
            struck_out,
            blink,
        } => put_letters(output, underlined, overlined, struck_out, blink),
        Class::Drawn(underline) => output.put(underline_word(underline)),
        Class::Hidden => output.put(b"hidden"),
    }
}

/// The name of a class.
pub(crate) fn put_name<W: Sink>(output: &mut Output<W>, class: Class)
    ensures { Adds W.Sink (class_name class) output.old output.new }
{
    output.put(b"ansi-");
    put_word(output, class);
}

/// The names of those classes that there are, with a space between them.
fn put_names<W: Sink>(output: &mut Output<W>, classes: &[Option<Class>])
    ensures { Adds W.Sink (class_names (flat_map option_to_list classes.now)) output.old output.new }
{
    let mut is_first = true;
    for class in classes {
        if let Some(class) = class {
            put_if(output, !is_first, b" ");
            put_name(output, *class);
            is_first = false;
        }
    }
}

/// The names of a style's classes, and of a link's.
#[tactic(auto, unfolding(crate::specs::Classes::classes_of))]
pub(crate) fn put_classes<W: Sink>(output: &mut Output<W>, linked: bool, style: Style)
    ensures { Adds W.Sink (class_names (classes_of linked style)) output.old output.new }
{
    put_names(
        output,
        &[
            class_if(linked, Class::Link),
            text_class(style),
            ground_class(style),
            class_if(style.bold, Class::Bold),
            class_if(style.italic, Class::Italic),
            lines_class(style),
            underline_class(style.underline),
            class_if(style.hidden, Class::Hidden),
        ],
    );
}
