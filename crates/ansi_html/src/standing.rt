//! Where the HTML of a stream stands, between two of its pieces.

use ansi_style::Style;

/// What text stands in.
#[derive(Clone, Copy)]
pub struct Element<'a> {
    pub style: Style,
    /// The URI of its link; empty where it has none.
    pub link: &'a [u8],
}

/// Where the HTML of a stream stands.
#[derive(Clone, Copy)]
pub struct Standing<'a> {
    /// What the last text stands in; plain and without a link where there was none.
    pub shown: Element<'a>,
    /// What is selected for the text that comes.
    pub selected: Element<'a>,
    /// The last text was 0D.
    pub returned: bool,
}
