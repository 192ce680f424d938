//! What a screen shows, as text.
ghost use Rattle.std.specs.Prelude.{◌≡◌, ◌-◌, ◌≤◌, ◌<◌, [], ◌∷◌, length, take, encode_utf8, IsTrue};
ghost use Rattle.std.specs.List.{flat_map};
ghost use Rattle.anstyle_parse.specs.Io.Output.{Adds};
ghost use Rattle.ansi_screen.specs.Grid.{IsBlankFrom};
ghost use Rattle.ansi_screen.specs.Text.{is_blank, is_unprinted, left_out, used, is_unmarked, cell_text, row_text, used_rows, rows_text, text_of, marks_text};

use crate::cell::{Cell, Marks, Part};
use crate::display::Display;
use crate::screen::Screen;
use anstyle_parse::io::{Output, Sink};

/// How many bytes are written at once, at most.
const BLOCK: usize = 128;

/// How many bytes a character has, at most.
const LONGEST: usize = 4;

/// Whether the cell is a space without marks, in whatever style.
#[tactic(auto, unfolding(crate::specs::Text::is_blank))]
fn is_blank(cell: Cell) -> bool
    ensures { result ≡ is_blank cell }
{
    cell.character == ' ' && !cell.is_right() && matches!(cell.marks, Marks::Unmarked)
}

/// Whether nothing was printed there, or what was is erased.
#[tactic(auto, unfolding(crate::specs::Text::is_unprinted))]
fn is_unprinted(cell: Cell) -> bool
    ensures { result ≡ is_unprinted cell }
{
    matches!(cell.part, Part::Empty) && matches!(cell.marks, Marks::Unmarked)
}

/// What is left out at the end of a row.
#[derive(Clone, Copy, Debug, PartialEq, Eq)]
pub enum LeftOut {
    /// Spaces without marks, in whatever style.
    Blanks,
    /// Cells where nothing was printed, or what was is erased.
    Unprinted,
}

impl LeftOut {
    /// Whether it is such a cell.
    fn has(self, cell: Cell) -> bool
        ensures { result ≡ left_out self cell }
    {
        match self {
            LeftOut::Blanks => is_blank(cell),
            LeftOut::Unprinted => is_unprinted(cell),
        }
    }

    /// Whether the four cells before a place are such.
    #[inline(always)]
    fn has_four(self, cells: &[Cell], end: usize) -> bool
        requires four { 4 ≤ end }
        requires within { end ≤ length cells.now }
        ensures { IsTrue result → used (left_out self) (take end cells.now) ≡ used (left_out self) cells.now
            → used (left_out self) (take (end - 4) cells.now) ≡ used (left_out self) cells.now }
    {
        self.has(cells[end - 1])
            && self.has(cells[end - 2])
            && self.has(cells[end - 3])
            && self.has(cells[end - 4])
    }
}

/// How many cells of a row come up to the last that is not left out.
pub fn used(cells: &[Cell], ends: LeftOut) -> usize
    ensures used { result ≡ used (left_out ends) cells.now }
    ensures within { result ≤ length cells.now }
{
    let mut end = without_fours(cells, ends);
    'end: while end > 0 {
        if !ends.has(cells[end - 1]) {
            break;
        }
        end -= 1;
    }
    end
}

/// The same of a row whose cells from `written` on are plain blanks: these are left out, and not looked at.
pub fn used_of_written(cells: &[Cell], written: usize, ends: LeftOut) -> usize
    requires within { written ≤ length cells.now }
    requires rest { IsBlankFrom written cells.now }
    ensures used { result ≡ used (left_out ends) cells.now }
    ensures within { result ≤ length cells.now }
{
    used(&cells[..written], ends)
}

/// How many cells come up to four of which one is not left out: from the end of a row, four are looked at together.
#[inline(always)]
fn without_fours(cells: &[Cell], ends: LeftOut) -> usize
    ensures used { used (left_out ends) (take result cells.now) ≡ used (left_out ends) cells.now }
    ensures within { result ≤ length cells.now }
{
    let mut end = cells.len();
    'fours: while end >= 4 && ends.has_four(cells, end) {
        end -= 4;
    }
    end
}

/// Writes marks.
fn put_marks<W: Sink>(output: &mut Output<W>, marks: Marks)
    ensures { Adds W.Sink (marks_text marks) output.old output.new }
{
    match marks {
        Marks::Unmarked => {}
        Marks::One(first) => output.put_char(first),
        Marks::Two(first, second) => {
            output.put_char(first);
            output.put_char(second);
        }
    }
}

/// Writes the character of a cell, unless it is a right half, and its marks.
#[tactic(auto, unfolding(crate::specs::Text::cell_text))]
fn put_cell<W: Sink>(output: &mut Output<W>, cell: Cell)
    ensures { Adds W.Sink (cell_text cell) output.old output.new }
{
    if !cell.is_right() {
        output.put_char(cell.character);
        put_marks(output, cell.marks);
    }
}

/// Writes the characters of the cells, each with its marks, in UTF-8.
pub fn put_cells<W: Sink>(output: &mut Output<W>, cells: &[Cell])
    ensures { Adds W.Sink (flat_map cell_text cells.now) output.old output.new }
{
    let mut block = [0; BLOCK];
    let mut rest = cells;
    'rest: while let Some((first, further)) = rest.split_first() {
        let (count, filled) = copy_unmarked(rest, &mut block);
        if count == 0 {
            put_cell(output, *first);
            rest = further;
        } else {
            output.put(&block[..filled]);
            let (_, others) = rest.split_at(count);
            rest = others;
        }
    }
}

/// Copies the text of cells without marks at the front into the block: of those that have one byte each, or of
/// others. Answers how many cells and how many bytes there are.
#[inline]
fn copy_unmarked(cells: &[Cell], block: &mut [u8; BLOCK]) -> (usize, usize)
    ensures text { take result.1 block.new ≡ flat_map cell_text (take result.0 cells.now) }
    ensures within { result.0 ≤ length cells.now }
    ensures room { result.1 ≤ BLOCK }
{
    let count = copy_ascii(cells, block);
    if count > 0 {
        return (count, count);
    }
    copy_others(cells, block)
}

/// Whether a cell's text is its character alone, in one byte.
#[inline(always)]
#[tactic(auto, unfolding(crate::specs::Text::cell_text))]
pub fn is_ascii_alone(cell: &Cell) -> bool
    ensures text { IsTrue result → cell_text cell.now ≡ cell.now.character ∷ [] }
    ensures low { IsTrue result → cell.now.character < 0x80 }
{
    cell.character.is_ascii() && !cell.is_right() && matches!(cell.marks, Marks::Unmarked)
}

/// Copies the text of the cells at the front that have one byte each into the block, as far as it has room, and answers
/// how many there are.
#[inline]
fn copy_ascii(cells: &[Cell], block: &mut [u8; BLOCK]) -> usize
    ensures text { take result block.new ≡ flat_map cell_text (take result cells.now) }
    ensures within { result ≤ length cells.now }
    ensures room { result ≤ BLOCK }
{
    let count = cells.len().min(BLOCK);
    for i in 0..count {
        let cell = &cells[i];
        if !is_ascii_alone(cell) {
            return i;
        }
        block[i] = cell.character as u8;
    }
    count
}

/// Copies the text of the cells at the front into the block, as far as it has room, up to one that has marks or one
/// byte. Answers how many cells and how many bytes there are.
fn copy_others(cells: &[Cell], block: &mut [u8; BLOCK]) -> (usize, usize)
    ensures text { take result.1 block.new ≡ flat_map cell_text (take result.0 cells.now) }
    ensures within { result.0 ≤ length cells.now }
    ensures room { result.1 ≤ BLOCK }
{
    let count = cells.len().min(BLOCK / LONGEST);
    let mut filled = 0;
    for i in 0..count {
        let cell = &cells[i];
        if !is_unmarked(cell) || is_ascii_alone(cell) {
            return (i, filled);
        }
        filled += copy_unmarked_cell(cell, &mut block[filled..]);
    }
    (count, filled)
}

/// Whether a cell has no marks.
#[inline(always)]
fn is_unmarked(cell: &Cell) -> bool
    ensures { result ≡ is_unmarked cell.now.marks }
{
    matches!(cell.marks, Marks::Unmarked)
}

/// Copies a cell's character to the front of these bytes, unless it is a right half, and answers how many bytes it has.
#[inline(always)]
fn copy_unmarked_cell(cell: &Cell, bytes: &mut [u8]) -> usize
    requires unmarked { IsTrue (is_unmarked cell.now.marks) }
    requires room { LONGEST ≤ length bytes.old }
    ensures text { take result bytes.new ≡ cell_text cell.now }
    ensures few { result ≤ LONGEST }
{
    if cell.is_right() {
        return 0;
    }
    copy_character(cell.character, bytes)
}

/// Copies a character to the front of these bytes, in UTF-8, and answers how many bytes it has.
#[inline(always)]
fn copy_character(c: char, bytes: &mut [u8]) -> usize
    requires { LONGEST ≤ length bytes.old }
    ensures text { take result bytes.new ≡ encode_utf8 c }
    ensures few { result ≤ LONGEST }
{
    let number = u32::from(c);
    if number < 0x80 {
        bytes[0] = number as u8;
        return 1;
    }
    let last = (0x80 + number % 64) as u8;
    if number < 0x800 {
        bytes[0] = (0xC0 + number / 64) as u8;
        bytes[1] = last;
        return 2;
    }
    let third = (0x80 + number / 64 % 64) as u8;
    if number < 0x10000 {
        bytes[0] = (0xE0 + number / 4096) as u8;
        bytes[1] = third;
        bytes[2] = last;
        return 3;
    }
    bytes[0] = (0xF0 + number / 262144) as u8;
    bytes[1] = (0x80 + number / 4096 % 64) as u8;
    bytes[2] = third;
    bytes[3] = last;
    4
}

/// Writes the row, without the blanks at its end.
fn put_row<W: Sink>(output: &mut Output<W>, cells: &[Cell])
    ensures { Adds W.Sink (row_text cells.now) output.old output.new }
{
    let end = used(cells, LeftOut::Blanks);
    put_cells(output, &cells[..end]);
}

impl Display {
    /// How many rows come up to the last that has a cell which is not left out.
    pub(crate) fn used_rows(&self, ends: LeftOut) -> usize
        ensures used { result ≡ used_rows (left_out ends) self.now.display.height self.now.display }
        ensures within { result ≤ self.now.display.height }
    {
        let mut end = 0;
        for row in 0..self.rows() {
            if used_of_written(self.row(row), self.written(row), ends) > 0 {
                end = row + 1;
            }
        }
        end
    }

    /// Writes its rows that are used.
    fn write_rows<W: Sink>(&self, output: &mut Output<W>)
        ensures { Adds W.Sink (text_of self.now.display) output.old output.new }
    {
        let end = self.used_rows(LeftOut::Blanks);
        for row in 0..end {
            put_row(output, self.row(row));
            output.put_byte(b'\n');
        }
    }
}

impl Screen {
    /// How many rows come up to the last that has a cell which is not left out.
    pub fn used_rows(&self, ends: LeftOut) -> usize
        ensures used { result ≡ used_rows (left_out ends) self.now.display.height self.now.display }
        ensures within { result ≤ self.now.display.height }
    {
        self.display().used_rows(ends)
    }

    /// Writes what the screen shows as text in UTF-8: each row without the blanks at its end,
    /// and a line feed, without the blank rows at the end.
    pub fn write_text<W: Sink>(&self, output: &mut Output<W>)
        ensures { Adds W.Sink (text_of self.now.display) output.old output.new }
    {
        self.display().write_rows(output);
    }
}
