//! Sizes and forms by numbers, as C says them.
ghost use Rattle.std.specs.Prelude.{◌≡◌, IfSome};
ghost use Rattle.screen_text.specs.Recording.{CanBeShown};
ghost use Rattle.shown_pieces.specs.Numbers.{size_numbered, screen_numbered, styling_numbered, form_numbered};

use crate::how::Form;
use ansi_html::{Scheme, Styling};
use ansi_screen::Size;
use screen_text::ShownSize;

/// The size of so many columns and rows; of none of both that which the recording says. `None` where no screen can
/// have it.
pub fn size_at(columns: usize, rows: usize) -> Option<ShownSize>
    ensures size { result ≡ size_numbered columns rows }
    ensures can_be { IfSome result CanBeShown }
{
    if columns == 0 && rows == 0 {
        return Some(ShownSize::Recorded);
    }
    match Size::of(columns, rows) {
        Some(size) => Some(ShownSize::Fixed(size)),
        None => None,
    }
}

/// The same, or no screen, where a number that is not 0 asks for none. `None` where no screen can have the size.
pub fn screen_at(no_screen: u8, columns: usize, rows: usize) -> Option<Option<ShownSize>>
    ensures screen { result ≡ screen_numbered no_screen columns rows }
    ensures can_be { IfSome result (λ size. IfSome size CanBeShown) }
{
    if no_screen != 0 {
        return Some(None);
    }
    match size_at(columns, rows) {
        Some(size) => Some(Some(size)),
        None => None,
    }
}

/// The styling of a number: 1 for light pages, 2 for dark ones, 3 by classes, and any other for both.
fn styling_at(number: u8) -> Styling
    ensures { result ≡ styling_numbered number }
{
    match number {
        1 => Styling::Inline(Scheme::Light),
        2 => Styling::Inline(Scheme::Dark),
        3 => Styling::Classes,
        _ => Styling::Inline(Scheme::Both),
    }
}

/// The form of a number: 1 safe text, 2 HTML in the styling of its number, and any other text.
pub fn form_at(form: u8, styling: u8) -> Form
    ensures { result ≡ form_numbered form styling }
{
    match form {
        1 => Form::Safe,
        2 => Form::Html(styling_at(styling)),
        _ => Form::Text,
    }
}
