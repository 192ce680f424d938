//! The size of the screen by which a stream is shown: one that is given, or the one that a recording says.
ghost use Rattle.std.specs.Prelude.{◌≡◌, ◌≤◌, ◌++◌, ◌⊎◌, [], true, ℕ, List, codes, length, take, IsTrue, IfOk, IfSome};
ghost use Rattle.std.specs.Option.{option_map};
ghost use Rattle.ansi_screen.specs.Size.{IsTaken};
ghost use Rattle.screen_text.specs.declared.recording.ShownSize.TheVariants.{Recorded};
ghost use Rattle.screen_text.specs.Recording.{first_line, after_text, number_from, after_number, size_of_all, size_by_rows, size_of_end, size_of_line, recorded_size, most_front, after_line, without_line, of_a_log, is_digit_of, size_for, screen_for, is_decided, CanBeShown};

use ansi_screen::{MAX_COLUMNS, Scrollable, Size};
use std::alloc::{AllocError, Global};

/// No more bytes of a stream are looked at for the size.
pub const MOST_FRONT: usize = 4096;

/// What stands before the number of columns, before the number of rows and after it, in the first line of a recording.
const COLUMNS: &[u8] = b" COLUMNS=\"";

const LINES: &[u8] = b"\" LINES=\"";

const END: &[u8] = b"\"]";

/// Which size the screen has by which a stream is shown.
#[derive(Clone, Copy, Debug, PartialEq, Eq)]
pub enum ShownSize {
    /// That of the terminal of which script(1) made the stream, as its first line says it; and where it says none,
    /// 1,000 columns and 100 rows.
    Recorded,
    /// This one.
    Fixed(Size),
}

impl ShownSize {
    /// Whether a stream that begins with these bytes has one size, whatever comes then.
    pub fn is_decided(self, front: &[u8]) -> bool
        ensures decided { result ≡ is_decided self front.now }
        ensures enough { MOST_FRONT ≤ length front.now → IsTrue result }
    {
        match self {
            ShownSize::Recorded => MOST_FRONT <= front.len() || front.contains(&b'\n'),
            ShownSize::Fixed(_) => true,
        }
    }

    /// The size for a stream that begins with these bytes, and goes on where they decide it.
    pub fn of(self, front: &[u8]) -> Size
        ensures stays { (rest : List ℕ) → (is_decided self front.now ≡ true) ⊎ (rest ≡ [])
            → size_for self (front.now ++ rest) ≡ result }
        ensures taken { CanBeShown self → IsTaken result }
    {
        match self {
            ShownSize::Recorded => match recorded_size(front) {
                Some(size) => size,
                None => of_a_log(),
            },
            ShownSize::Fixed(size) => size,
        }
    }

    /// The blank screen for a stream that begins with these bytes, and goes on where they decide its size.
    pub fn screen(self, alloc: Global, front: &[u8]) -> Result<Scrollable, AllocError>
        requires { CanBeShown self }
        ensures { IfOk result (λ screen. (rest : List ℕ) → (is_decided self front.now ≡ true) ⊎ (rest ≡ [])
            → screen ≡ screen_for self (front.now ++ rest)) }
    {
        let size = self.of(front);
        Scrollable::new(alloc, size.columns, size.rows)
    }
}

/// The size that a stream says which begins with these bytes, and goes on where they decide it; and what of them its
/// terminal was given: what comes after the line that says the size, which script(1) wrote, and else all.
pub fn recorded(front: &[u8]) -> (Option<Size>, &[u8])
    ensures size { (rest : List ℕ) → (is_decided Recorded front.now ≡ true) ⊎ (rest ≡ [])
        → recorded_size (front.now ++ rest) ≡ result.0 }
    ensures given { (rest : List ℕ) → (is_decided Recorded front.now ≡ true) ⊎ (rest ≡ [])
        → without_line (front.now ++ rest) ≡ result.1.now ++ rest }
    ensures taken { IfSome result.0 IsTaken }
{
    match recorded_size(front) {
        None => (None, front),
        Some(size) => (Some(size), after_line(front)),
    }
}

/// What comes after the first line.
fn after_line(bytes: &[u8]) -> &[u8]
    ensures { result.now ≡ after_line most_front bytes.now }
{
    let most = bytes.len().min(MOST_FRONT);
    for i in 0..most {
        let byte = bytes[i];
        if byte == b'\n' {
            return &bytes[i + 1..];
        }
    }
    &bytes[most..]
}

/// 1,000 columns and 100 rows: most logs never were on a terminal, and no line is to be cut.
fn of_a_log() -> Size
    ensures { result ≡ of_a_log }
{
    Size {
        columns: 1000,
        rows: 100,
    }
}

/// The size that a stream says in its first line, by its first bytes.
fn recorded_size(front: &[u8]) -> Option<Size>
    ensures said { result ≡ recorded_size front.now }
    ensures taken { IfSome result IsTaken }
{
    let front = &front[..front.len().min(MOST_FRONT)];
    size_of_line(&front[..line_end(front)])
}

/// Where the first line ends.
fn line_end(bytes: &[u8]) -> usize
    ensures line { take result bytes.now ≡ first_line bytes.now }
    ensures within { result ≤ length bytes.now }
{
    for i in 0..bytes.len() {
        if bytes[i] == b'\n' {
            return i;
        }
    }
    bytes.len()
}

/// The size that the end of a line says.
fn size_of_line(line: &[u8]) -> Option<Size>
    ensures said { result ≡ size_of_line line.now }
    ensures taken { IfSome result IsTaken }
{
    let mut rest = line;
    'rest: while let Some((first, further)) = rest.split_first() {
        // (all but a few of up to 4,096 places are passed over by this)
        if *first == b' ' {
            let said = size_of_end(rest);
            if said.is_some() {
                return said;
            }
        }
        rest = further;
    }
    None
}

/// The size that ` COLUMNS="120" LINES="40"]` says, if that is all.
#[tactic(auto, unfolding(crate::specs::Recording::size_of_end))]
fn size_of_end(bytes: &[u8]) -> Option<Size>
    ensures said { result ≡ size_of_end bytes.now }
    ensures taken { IfSome result IsTaken }
{
    match after_text(COLUMNS, bytes) {
        None => None,
        Some(rest) => {
            let (columns, rest) = number(rest);
            size_by_rows(columns, rest)
        }
    }
}

/// The size of so many columns and of the rows that `" LINES="40"]` says, if that is all.
fn size_by_rows(columns: usize, bytes: &[u8]) -> Option<Size>
    ensures said { result ≡ size_by_rows columns (after_text (codes "\" LINES=\"") bytes.now) }
    ensures taken { IfSome result IsTaken }
{
    match after_text(LINES, bytes) {
        None => None,
        Some(rest) => {
            let (rows, rest) = number(rest);
            size_of_all(columns, rows, rest)
        }
    }
}

/// This size, if `"]` is all that follows it, and a screen can have it.
fn size_of_all(columns: usize, rows: usize, bytes: &[u8]) -> Option<Size>
    ensures said { result ≡ size_of_all columns rows (after_text (codes "\"]") bytes.now) }
    ensures taken { IfSome result IsTaken }
{
    match after_text(END, bytes) {
        None => None,
        Some([]) => Size::of(columns, rows),
        Some(_) => None,
    }
}

/// What follows a text, if that stands at the front.
#[tactic(auto, unfolding(crate::specs::Recording::after_text))]
fn after_text<'a>(text: &[u8], bytes: &'a [u8]) -> Option<&'a [u8]>
    ensures { option_map (λ rest. rest.now) result ≡ after_text text.now bytes.now }
{
    if bytes.starts_with(text) {
        Some(&bytes[text.len()..])
    } else {
        None
    }
}

/// The number that digits at the front say in decimal, and what follows them. A number past the limits of a screen is
/// not read on.
fn number(bytes: &[u8]) -> (usize, &[u8])
    ensures number { result.0 ≡ number_from 0 bytes.now }
    ensures rest { result.1.now ≡ after_number 0 bytes.now }
{
    let mut number = 0;
    let mut rest = bytes;
    'rest: while let Some((byte, further)) = rest.split_first() {
        if !is_digit_of(number, *byte) {
            break;
        }
        number = number * 10 + usize::from(*byte - b'0');
        rest = further;
    }
    (number, rest)
}

/// Whether a byte is a digit more of a number that is not past the limits of a screen.
fn is_digit_of(number: usize, byte: u8) -> bool
    ensures { result ≡ is_digit_of number byte }
{
    b'0' <= byte && byte <= b'9' && number <= MAX_COLUMNS
}
