//! What is read of a screen to answer.
use ansi_style::Style;

/// What is read of a screen. Rows and columns count from 1, as programs count them.
#[derive(Debug, Clone, Copy, PartialEq, Eq)]
pub struct Facts {
    /// How many rows and columns it has.
    pub rows: u16,
    pub columns: u16,
    /// Where the cursor is: from the screen's first row on, in origin mode too; in the last column, where a wrap is
    /// pending.
    pub row: u16,
    pub column: u16,
    /// The first and the last row of the margins (DECSTBM).
    pub top: u16,
    pub bottom: u16,
    /// Origin mode (DECOM): a program counts rows from the first of the margins.
    pub is_relative: bool,
    /// Autowrap (DECAWM).
    pub wraps: bool,
    /// Insert mode (IRM).
    pub inserts: bool,
    /// Whether the cursor is shown (DECTCEM).
    pub is_visible: bool,
    /// The style of what comes next.
    pub style: Style,
}
