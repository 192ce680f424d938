//! The size of a screen, and how a text says it.
ghost use Rattle.std.specs.Prelude.{◌≡◌, ℕ, ◌^◌, ◌<◌, IfSome, MatchOption};
ghost use Rattle.ansi_screen.specs.Size.{a_terminal, size_if_taken, IsNumber, IsSaid, IsSaidBy, IsTaken, SaysBy};

/// The least and the greatest sizes of a screen.
pub const MIN_COLUMNS: usize = 2;

pub const MAX_COLUMNS: usize = 1000;

pub const MIN_ROWS: usize = 1;

pub const MAX_ROWS: usize = 1000;

/// The size of a screen.
#[derive(Clone, Copy, Debug, PartialEq, Eq)]
pub struct Size {
    pub columns: usize,
    pub rows: usize,
}

impl Size {
    /// 80 columns and 24 rows, as of the VT100 and of terminals that are told nothing else.
    pub fn of_a_terminal() -> Size
        ensures { result ≡ a_terminal }
    {
        Size {
            columns: 80,
            rows: 24,
        }
    }

    /// So many columns and rows, where a screen can have them: 2 to 1,000 columns, and 1 to 1,000 rows.
    pub fn of(columns: usize, rows: usize) -> Option<Size>
        ensures size { result ≡ size_if_taken columns rows }
        ensures taken { IfSome result IsTaken }
    {
        let is_taken = MIN_COLUMNS <= columns
            && columns <= MAX_COLUMNS
            && MIN_ROWS <= rows
            && rows <= MAX_ROWS;
        if is_taken {
            Some(Size { columns, rows })
        } else {
            None
        }
    }

    /// The size that a text says, COLUMNSxROWS, of 2 to 1,000 columns and 1 to 1,000 rows, in decimal, also with an
    /// X. `None` for a text that says none.
    pub fn parse(text: &str) -> Option<Size>
        ensures { IsSaid text.now result }
    {
        match Size::parse_by(text, 'x') {
            None => Size::parse_by(text, 'X'),
            Some(size) => Some(size),
        }
    }

    /// The size that a text says with this sign.
    fn parse_by(text: &str, sign: char) -> Option<Size>
        requires { sign < 128 }
        ensures { IsSaidBy (SaysBy sign) text.now result }
    {
        let (columns, rows) = text.split_once(sign)?;
        Size::of(number(columns)?, number(rows)?)
    }
}

/// A number of at most 16 bits in decimal: digits alone.
fn number(text: &str) -> Option<usize>
    ensures { MatchOption result ((n : ℕ) → IsNumber text.now n → ¬ (n < 2 ^ 16)) (IsNumber text.now) }
{
    if text.starts_with('+') {
        return None;
    }
    match text.parse::<u16>() {
        Ok(number) => Some(usize::from(number)),
        Err(_) => None,
    }
}
