//! The text of cells, in the caller's room.
ghost use Rattle.std.specs.Prelude.{◌≡◌, ◌<◌, ◌≤◌, ◌⊎◌, ◌∷◌, [], length, encode_utf8, IfOk, IfErr};
ghost use Rattle.std.specs.List.{flat_map};
ghost use Rattle.ansi_screen.specs.Grid.{IsBlankFrom};
ghost use Rattle.ansi_screen.specs.Text.{cell_text, marks_text, row_text, text_of};
ghost use Rattle.screen_text.specs.Lines.{row_text as line_text, closing};
ghost use Rattle.screen_pieces.specs.Text.{HasText, LacksRoom};

use ansi_screen::{Cell, LeftOut, Marks, Screen, TakeRow, goes_on, used, used_of_written};
use terminal_keys::TakeBytes;

/// Puts text into a room that is lent to it, as far as it fits, and counts all of it.
#[derive(Drop)]
pub(crate) struct TextWriter<'a> {
    into: &'a mut [u8],
    needed: usize,
    /// The last row that it took goes on.
    is_open: bool,
}

/// Writes the bytes to the front of the room.
pub(crate) fn put_bytes(bytes: &[u8], room: &mut [u8]) -> Result<usize, usize>
    ensures text { IfOk result (HasText bytes.now room.old room.new) }
    ensures refused { IfErr result (LacksRoom bytes.now room.old) }
{
    let mut writer = TextWriter::new(room);
    writer.put_bytes(bytes);
    writer.answer()
}

impl<'a> TextWriter<'a> {
    ghost use Rattle.std.specs.Prelude.{false};
    ghost use Rattle.screen_pieces.specs.Text.{most_length, Puts};

    pub(crate) fn new(into: &'a mut [u8]) -> TextWriter<'a>
        ensures same_reference { result.into.ghost_name ≡ into.entry.ghost_name }
        ensures bytes { result.into.now ≡ into.old }
        ensures nothing { result.needed ≡ 0 }
        ensures closed { result.is_open ≡ false }
    {
        TextWriter {
            into,
            needed: 0,
            is_open: false,
        }
    }

    /// How many bytes all of it takes: as an error, where it does not fit.
    pub(crate) fn answer(&self) -> Result<usize, usize>
        ensures told { IfOk result (λ told. told ≡ self.now.needed) }
        ensures low { IfOk result (λ told. told < most_length) }
        ensures fits { IfOk result (λ told. told ≤ length self.now.into.now) }
        ensures lacking { IfErr result (λ told. told ≡ self.now.needed) }
        ensures little_room { IfErr result (λ told. (length self.now.into.now < told) ⊎ (most_length ≤ told)) }
    {
        if self.needed == usize::MAX || self.into.len() < self.needed {
            Err(self.needed)
        } else {
            Ok(self.needed)
        }
    }

    /// One byte more.
    #[inline]
    fn put_byte(&mut self, byte: u8)
        ensures { Puts (byte ∷ []) self.old self.new }
    {
        if self.needed < self.into.len() {
            self.into[self.needed] = byte;
        }
        self.needed = self.needed.saturating_add(1);
    }

    /// Several bytes more.
    pub(crate) fn put_bytes(&mut self, bytes: &[u8])
        ensures { Puts bytes.now self.old self.new }
    {
        let end = self.needed.saturating_add(bytes.len());
        if end <= self.into.len() {
            self.into[self.needed..end].copy_from_slice(bytes);
        }
        self.needed = end;
    }

    /// A character more, in UTF-8.
    #[inline]
    fn put_char(&mut self, c: char)
        ensures { Puts (encode_utf8 c) self.old self.new }
    {
        if c.is_ascii() {
            self.put_byte(c as u8);
        } else {
            self.put_encoded(c);
        }
    }

    /// The same with a character of several bytes.
    #[inline(never)]
    fn put_encoded(&mut self, c: char)
        ensures { Puts (encode_utf8 c) self.old self.new }
    {
        let mut bytes = [0; 4];
        self.put_bytes(c.encode_utf8(&mut bytes).as_bytes());
    }

    /// The marks of a cell.
    #[inline]
    fn put_marks(&mut self, marks: Marks)
        ensures { Puts (marks_text marks) self.old self.new }
    {
        match marks {
            Marks::Unmarked => {}
            Marks::One(first) => self.put_char(first),
            Marks::Two(first, second) => {
                self.put_char(first);
                self.put_char(second);
            }
        }
    }

    /// The character of a cell, unless it is a right half, and its marks.
    #[inline]
    #[tactic(auto, unfolding(ansi_screen::specs::Text::cell_text))]
    fn put_cell(&mut self, cell: &Cell)
        ensures { Puts (cell_text cell.now) self.old self.new }
    {
        if !cell.is_right() {
            self.put_char(cell.character);
            self.put_marks(cell.marks);
        }
    }

    /// The characters of the cells, each with its marks.
    pub(crate) fn put_cells(&mut self, cells: &[Cell])
        ensures { Puts (flat_map cell_text cells.now) self.old self.new }
    {
        let mut rest = cells;
        'rest: while let Some((first, further)) = rest.split_first() {
            self.put_cell(first);
            rest = further;
        }
    }

    /// A row, without the blanks at its end.
    pub(crate) fn put_row(&mut self, cells: &[Cell])
        ensures { Puts (row_text cells.now) self.old self.new }
    {
        let end = used(cells, LeftOut::Blanks);
        self.put_cells(&cells[..end]);
    }

    /// A row of a line, up to the last cell in which something was printed; with a line feed, unless it goes on. Cells
    /// from `written` on are plain blanks, and are not looked at.
    pub(crate) fn put_line(&mut self, row: &[Cell], written: usize)
        requires within { written ≤ length row.now }
        requires rest { IsBlankFrom written row.now }
        ensures { Puts (line_text row.now) self.old self.new }
    {
        let end = used_of_written(row, written, LeftOut::Unprinted);
        self.put_cells(&row[..end]);
        if !goes_on(row) {
            self.put_byte(b'\n');
        }
    }

    /// The end of the last line, where the last row goes on.
    pub(crate) fn put_end(&mut self)
        ensures { Puts (closing self.old.is_open) self.old self.new }
    {
        let is_open = self.is_open;
        if is_open {
            self.put_byte(b'\n');
        }
    }

    /// What a screen shows: each row without the blanks at its end, and a line feed, without the blank rows at
    /// the end.
    pub(crate) fn put_screen(&mut self, screen: &Screen)
        ensures { Puts (text_of screen.now.display) self.old self.new }
    {
        let end = screen.used_rows(LeftOut::Blanks);
        for row in 0..end {
            self.put_row(screen.row(row));
            self.put_byte(b'\n');
        }
    }
}

/// The text is put.
impl<'a> TakeBytes for TextWriter<'a> {
    ghost use Rattle.screen_pieces.specs.Text.{Puts};
    ghost use Rattle.screen_pieces.specs.PuttingProof.{Puts-nil, Puts-append};

    ghost takes = { Puts };

    #[inline]
    fn take(&mut self, text: &[u8]) {
        self.put_bytes(text);
    }

    ghost joins = { record { none = Puts-nil; more = Puts-append } };
}

/// A row is put as a part of a line.
impl<'a> TakeRow for TextWriter<'a> {
    ghost use Rattle.screen_pieces.specs.Lines.{PutsRow, PutsNothing};

    ghost takes = { PutsRow };

    ghost passes_on = { PutsNothing };

    fn take_row(&mut self, row: &[Cell], written: usize) {
        self.put_line(row, written);
        self.is_open = goes_on(row);
    }

    fn pass_on(&mut self) {}
}
