//! How colours are written, and the pages that they are for.

/// The pages that the colours are for.
#[derive(Debug, Clone, Copy, PartialEq, Eq)]
pub enum Scheme {
    /// Light pages.
    Light,
    /// Dark pages, no lighter than #1e1e1e.
    Dark,
    /// Both, as the reader of the page has it (`light-dark()` of CSS); where a reader does not
    /// know this, light pages.
    Both,
}

/// How the HTML says a style.
#[derive(Debug, Clone, Copy, PartialEq, Eq)]
pub enum Styling {
    /// By declarations in attributes `style`, for the pages of a scheme.
    Inline(Scheme),
    /// By attributes `class` alone, for sites whose Content-Security-Policy forbids inline styles. The
    /// page has the rules that [`put_stylesheet`](crate::put_stylesheet) writes, for whichever scheme.
    Classes,
}
