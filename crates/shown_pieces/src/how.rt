//! How a log is written.
ghost use Rattle.std.specs.Prelude.{◌≡◌};

use ansi_html::Styling;

/// The form in which a log is written, or what a screen showed of it.
#[derive(Clone, Copy, Debug, PartialEq, Eq)]
pub enum Form {
    /// Text.
    Text,
    /// Text that hides nothing.
    Safe,
    /// HTML that says styles so.
    Html(Styling),
}

/// How a log is written.
#[derive(Clone, Copy, Debug, PartialEq, Eq)]
pub struct How {
    pub form: Form,
    /// Of HTML: in lines that have numbers and can be linked to.
    pub has_lines: bool,
    /// Of HTML: with the addresses in the text as links.
    pub has_urls: bool,
    /// Without the text that Select Graphic Rendition hides (8).
    pub no_hidden: bool,
}

impl How {
    ghost use Rattle.shown_pieces.specs.Shown.{how_of_form, goes_further};

    /// In this form, and nothing more.
    pub fn of(form: Form) -> How
        ensures { result ≡ how_of_form form }
    {
        How {
            form,
            has_lines: false,
            has_urls: false,
            no_hidden: false,
        }
    }

    /// Whether what a screen showed is converted as a stream is: else its rows are written as they are.
    pub(crate) fn goes_further(self) -> bool
        ensures { result ≡ goes_further self }
    {
        let is_html = matches!(self.form, Form::Html(_));
        self.no_hidden || is_html && (self.has_lines || self.has_urls)
    }
}
