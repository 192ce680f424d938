//! The stylesheet: a rule for each class.
ghost use Rattle.std.specs.Prelude.{◌≡◌, ◌≤◌, ◌<◌, ◌++◌, ◌∷◌, [], codes};
ghost use Rattle.std.specs.List.{flat_map, range_with_len};
ghost use Rattle.anstyle_parse.specs.Io.Output.{Adds};
ghost use Rattle.ansi_html.specs.Stylesheet.{color_of, ink_declared, declarations_of, rule, texts_at, ground_at, lines_at, stylesheet};

use crate::class::{Class, put_name};
use crate::css::{
    put_declared, put_drawn, put_lines, put_on_page, put_reversed_ground, put_reversed_text,
    text_on,
};
use crate::palette::indexed;
use crate::scheme::Scheme;
use ansi_style::{Color, Underline};
use anstyle_parse::io::{Output, Sink};

/// How many colours have a number.
const COLORS: u16 = 256;

/// How many choices there are of some of the four lines, and none.
const CHOICES: u8 = 16;

/// The colour of a number, or the default.
fn color_of(number: Option<u8>) -> Color
    ensures { result ≡ color_of number }
{
    match number {
        Some(number) => Color::Indexed(number),
        None => Color::Default,
    }
}

/// Writes the colour of a text on a ground that is chosen, where none is chosen for it.
fn put_ink<W: Sink>(output: &mut Output<W>, dim: bool, number: u8)
    ensures { Adds W.Sink (ink_declared dim number) output.old output.new }
{
    let behind = indexed(number).fixed;
    put_declared(output, b"color:", text_on(dim, Color::Default, behind));
}

/// Writes the declarations of a class, those that an attribute `style` has.
fn put_declarations<W: Sink>(output: &mut Output<W>, scheme: Scheme, class: Class)
    ensures { Adds W.Sink (declarations_of scheme class) output.old output.new }
{
    match class {
        Class::Link => output.put(b"color:inherit;"),
        Class::OnPage { dim, number } => put_on_page(output, scheme, dim, color_of(number)),
        Class::OnReversed { dim, number } => {
            put_reversed_text(output, scheme, dim, color_of(number));
        }
        Class::OnGround { number } => put_declared(output, b"color:", indexed(number).fixed),
        Class::Ink { dim, number } => put_ink(output, dim, number),
        Class::Reversed => put_reversed_ground(output, scheme),
        Class::Ground { number } => {
            put_declared(output, b"background-color:", indexed(number).fixed);
        }
        Class::Bold => output.put(b"font-weight:bold;"),
        Class::Italic => output.put(b"font-style:italic;"),
        Class::Lines {
            underlined,
            overlined,
            struck_out,
            blink,
        } => put_lines(output, underlined, overlined, struck_out, blink),
        Class::Drawn(underline) => put_drawn(output, underline),
        Class::Hidden => output.put(b"visibility:hidden;"),
    }
}

/// Writes the rule of a class.
fn put_rule<W: Sink>(output: &mut Output<W>, scheme: Scheme, class: Class)
    ensures { Adds W.Sink (rule scheme class) output.old output.new }
{
    output.put(b".");
    put_name(output, class);
    output.put(b"{");
    put_declarations(output, scheme, class);
    output.put(b"}\n");
}

/// Writes the rules of classes.
fn put_rules<W: Sink>(output: &mut Output<W>, scheme: Scheme, classes: &[Class])
    ensures { Adds W.Sink (flat_map (rule scheme) classes.now) output.old output.new }
{
    for class in classes {
        put_rule(output, scheme, *class);
    }
}

/// Writes the rules of texts of a colour.
fn put_texts_at<W: Sink>(output: &mut Output<W>, scheme: Scheme, number: u8)
    ensures { Adds W.Sink (flat_map (rule scheme) (texts_at number)) output.old output.new }
{
    let classes = [
        Class::OnPage {
            dim: false,
            number: Some(number),
        },
        Class::OnPage {
            dim: true,
            number: Some(number),
        },
        Class::OnReversed {
            dim: false,
            number: Some(number),
        },
        Class::OnReversed {
            dim: true,
            number: Some(number),
        },
        Class::OnGround { number },
        Class::Ink { dim: false, number },
        Class::Ink { dim: true, number },
    ];
    put_rules(output, scheme, &classes);
}

/// Writes the rules of texts of each colour.
fn put_texts<W: Sink>(output: &mut Output<W>, scheme: Scheme)
    ensures { Adds W.Sink (flat_map (rule scheme) (flat_map texts_at (range_with_len 0 256))) output.old output.new }
{
    for number in 0..COLORS {
        put_texts_at(output, scheme, number as u8);
    }
}

/// Writes the rules of grounds of each colour.
fn put_grounds<W: Sink>(output: &mut Output<W>, scheme: Scheme)
    ensures { Adds W.Sink (flat_map (rule scheme) (flat_map ground_at (range_with_len 0 256))) output.old output.new }
{
    for number in 0..COLORS {
        put_rules(
            output,
            scheme,
            &[Class::Ground {
                number: number as u8,
            }],
        );
    }
}

/// The lines of a choice, by its bits.
fn lines_at(choice: u8) -> Class
    requires { choice < 16 }
    ensures { result ∷ [] ≡ lines_at choice }
{
    Class::Lines {
        underlined: choice % 2 == 1,
        overlined: choice / 2 % 2 == 1,
        struck_out: choice / 4 % 2 == 1,
        blink: choice / 8 == 1,
    }
}

/// Writes the rules of lines, of each choice of some.
fn put_line_choices<W: Sink>(output: &mut Output<W>, scheme: Scheme)
    ensures { Adds W.Sink (flat_map (rule scheme) (flat_map lines_at (range_with_len 1 15))) output.old output.new }
{
    for choice in 1..CHOICES {
        put_rules(output, scheme, &[lines_at(choice)]);
    }
}

/// Writes the rules of all classes.
pub(crate) fn put_all<W: Sink>(output: &mut Output<W>, scheme: Scheme)
    ensures { Adds W.Sink (stylesheet scheme) output.old output.new }
{
    let first = [
        Class::Link,
        Class::OnPage {
            dim: true,
            number: None,
        },
        Class::OnReversed {
            dim: false,
            number: None,
        },
        Class::OnReversed {
            dim: true,
            number: None,
        },
    ];
    let last = [
        Class::Drawn(Underline::Double),
        Class::Drawn(Underline::Curly),
        Class::Drawn(Underline::Dotted),
        Class::Drawn(Underline::Dashed),
        Class::Hidden,
    ];
    put_rules(output, scheme, &first);
    put_texts(output, scheme);
    put_rules(output, scheme, &[Class::Reversed]);
    put_grounds(output, scheme);
    put_rules(output, scheme, &[Class::Bold, Class::Italic]);
    put_line_choices(output, scheme);
    put_rules(output, scheme, &last);
}
