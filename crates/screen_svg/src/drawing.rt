//! How a picture is drawn.
use ansi_html::Scheme;

/// How a picture is drawn.
#[derive(Clone, Copy)]
pub struct Drawing {
    /// The pages that its colours are for: a light one, a dark one, or one that follows the reader's wish
    /// (`prefers-color-scheme`), and is light where that is not known.
    pub scheme: Scheme,
    /// A frame of the cell where the cursor is, where the screen shows it.
    pub cursor: bool,
    /// The bar of a window above the screen, with the title.
    pub window: bool,
}

/// Which rows are drawn: so many of those that left the screen, the last ones, and then so many of its own, the first ones.
#[derive(Clone, Copy)]
pub struct Extent {
    pub above: usize,
    pub count: usize,
}
