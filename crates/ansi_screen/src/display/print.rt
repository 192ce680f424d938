//! Printing a character.
ghost use Rattle.std.specs.Prelude.{◌≡◌, true, ◌+◌, ◌*◌, ◌<◌, ◌≤◌, ◌&&◌, nat_le, min, length};
ghost use Rattle.ansi_screen.specs.Widths.{is_shown, columns};
ghost use Rattle.std.specs.Fn.{iterate};
ghost use Rattle.anstyle_parse.specs.Stream.Items.{EachIs};
ghost use Rattle.ansi_screen.specs.Print.{drawn, wrapped, with_room, with_cells_of, with_glyph, put, marked, shown, printed, printed_again};
ghost use Rattle.ansi_screen.specs.Edits.{row_goes_on};
ghost use Rattle.ansi_screen.specs.Runs.{HasRoom, is_printed_ascii, with_run, printed_all};
ghost use Rattle.ansi_screen.specs.State.{changed, stepped};
ghost use Rattle.ansi_screen.specs.After.{repeatable, repeated};

use super::Display;
use crate::width::{columns, is_shown};

/// What the line drawing set shows in place of U+005F to U+007E.
const LINE_DRAWING: [char; 32] = [
    ' ', '◆', '▒', '␉', '␌', '␍', '␊', '°', '±', '␤', '␋', '┘', '┐', '┌', '└', '┼', '⎺', '⎻', '─',
    '⎼', '⎽', '├', '┤', '┴', '┬', '│', '≤', '≥', 'π', '≠', '£', '·',
];

/// What the line drawing set shows in place of a character.
#[tactic(auto, unfolding(crate::specs::Print::drawn, anstyle_parse::specs::Stream::Bytes::is_within))]
fn drawn(c: char) -> char
    ensures { result ≡ drawn c }
{
    if '_' <= c && c <= '~' {
        LINE_DRAWING[(u32::from(c) - 0x5F) as usize]
    } else {
        c
    }
}

/// What REP repeats after a character.
#[tactic(auto, unfolding(crate::specs::After::repeatable))]
fn repeatable(c: char) -> Option<char>
    ensures { result ≡ repeatable c }
{
    if is_shown(c) && columns(c) != 0 {
        Some(c)
    } else {
        None
    }
}

impl Display {
    ghost use Rattle.std.specs.Option.{option_and_then};

    /// A character of the stream.
    #[tactic(auto, unfolding(crate::specs::Print::printed))]
    pub(crate) fn print(&mut self, c: char)
        ensures { self.new ≡ stepped (printed c) self.old }
    {
        if is_shown(c) {
            let draws = self.cursor.charsets.draws();
            self.show(if draws { drawn(c) } else { c });
        }
    }

    /// A character that is shown. Mostly it is far from the row's end, and no cell moves.
    #[tactic(auto, unfolding(crate::specs::Print::shown))]
    fn show(&mut self, c: char)
        ensures { self.new ≡ stepped (shown c) self.old }
    {
        let columns = columns(c);
        if columns == 0 {
            self.mark(c);
        } else if self.cursor.column + usize::from(columns) + 1 < self.cells.width()
            && !self.inserts
        {
            self.put_cells(columns, c);
        } else {
            self.wrap(columns);
            self.put_character(columns, c);
        }
    }

    /// A mark of the character before the cursor.
    #[tactic(auto, unfolding(crate::specs::Print::marked))]
    fn mark(&mut self, c: char)
        ensures { self.new ≡ changed (marked c) self.old }
    {
        if 0 < self.cursor.column {
            let (row, column) = (self.cursor.row, self.cursor.column);
            // (for the proof: no row begins with a right half)
            let _ = self.cells.width();
            self.damage.note(row, column - 1, column);
            self.cells.mark_before(row, column, c);
            // (for the proof: the cells fill the rows)
            let _ = self.cells.width();
        }
    }

    /// The character again, where the row has room for it.
    #[tactic(auto, unfolding(crate::specs::Print::printed_again))]
    fn print_again(&mut self, c: char)
        ensures { self.new ≡ changed (printed_again c) self.old }
    {
        if self.cursor.column + usize::from(columns(c)) <= self.cells.width() {
            self.print(c);
        }
    }

    /// The same so many times, one by one.
    fn print_one_by_one(&mut self, count: usize, c: char)
        ensures { self.new ≡ changed (iterate (printed_again c) count) self.old }
    {
        for _done in 0..count {
            self.print_again(c);
        }
    }

    /// How often the row has room for a character that is inserted and takes columns.
    fn insertable(&self, c: char) -> usize
        ensures fits { self.now.display.cursor.column + result * columns c ≤ self.now.display.width }
        ensures inserts { 0 < result → self.now.display.inserts ≡ true }
        ensures shown { 0 < result → is_shown c ≡ true }
        ensures some { 0 < result → 0 < columns c }
    {
        let columns = usize::from(columns(c));
        let column = self.cursor.column;
        if self.inserts && is_shown(c) && columns > 0 {
            (self.cells.width() - column) / columns
        } else {
            0
        }
    }

    /// The character so many times in insert mode, for which there is room: the rest of the row moves once for all of
    /// them, and then nothing moves any more.
    fn insert_times(&mut self, count: usize, c: char)
        requires inserts { self.old.display.inserts ≡ true }
        requires shown { is_shown c ≡ true }
        requires some { 0 < columns c }
        requires count { 0 < count }
        requires fits { self.old.display.cursor.column + count * columns c ≤ self.old.display.width }
        ensures { self.new ≡ changed (iterate (printed_again c) count) self.old }
    {
        // (for the proof: halves stand in pairs)
        let _ = self.cells.width();
        self.set_goes_on(false);
        self.insert_cells(count * usize::from(columns(c)));
        self.inserts = false;
        self.print_one_by_one(count, c);
        self.inserts = true;
    }

    /// REP
    fn print_times(&mut self, count: usize, c: char)
        ensures { self.new ≡ changed (iterate (printed_again c) count) self.old }
    {
        let fitting = count.min(self.insertable(c));
        if fitting > 0 {
            self.insert_times(fitting, c);
        }
        self.print_one_by_one(count - fitting, c);
    }

    /// REP, of the character that was printed just before.
    pub(crate) fn repeat(&mut self, count: u16)
        ensures { self.new ≡ changed (repeated count self.old.last) self.old }
    {
        let last = self.printed.and_then(repeatable);
        self.repeat_character(count, last);
    }

    /// REP, of this character, if there is one.
    #[tactic(auto, unfolding(crate::specs::After::repeated))]
    fn repeat_character(&mut self, count: u16, last: Option<char>)
        ensures { self.new ≡ changed (repeated count last) self.old }
    {
        if let Some(c) = last {
            let count = usize::from(count).min(self.cells.width());
            self.print_times(count, c);
        }
    }

    /// This character was printed just before, or none: what REP repeats.
    #[inline]
    pub(crate) fn set_printed(&mut self, printed: Option<char>)
        ensures { self.new ≡ record self.old { last = option_and_then repeatable printed } }
    {
        self.printed = printed;
    }

    /// Where the row has no room for so many columns, to the next row, or to the last column.
    #[tactic(auto, unfolding(crate::specs::Print::wrapped))]
    fn wrap(&mut self, columns: u16)
        ensures { self.new ≡ stepped (wrapped columns) self.old }
    {
        if self.cells.width() < self.cursor.column + usize::from(columns) {
            if self.wraps {
                self.set_goes_on(true);
                self.to_column(0);
                self.index();
            } else {
                self.settle();
            }
        }
    }

    /// The character, where there is room for it.
    #[tactic(auto, unfolding(crate::specs::Print::put))]
    fn put_character(&mut self, columns: u16, c: char)
        requires some { 1 ≤ columns }
        requires few { columns ≤ 2 }
        ensures { self.new ≡ changed (put columns c) self.old }
    {
        if self.cursor.column + usize::from(columns) <= self.cells.width() {
            self.make_room(columns);
            self.put_glyph(columns, c);
        }
    }

    /// In insert mode the rest of the row moves.
    #[tactic(auto, unfolding(crate::specs::Print::with_room))]
    fn make_room(&mut self, columns: u16)
        requires { self.old.display.cursor.column < self.old.display.width }
        ensures room { self.new ≡ changed (with_room columns) self.old }
        ensures width { self.new.display.width ≡ self.old.display.width }
        ensures cursor { self.new.display.cursor ≡ self.old.display.cursor }
    {
        if self.inserts {
            self.insert_characters(columns);
        }
    }

    /// The character, after which its row goes on as before. Mostly it is far from the row's end.
    fn put_glyph(&mut self, columns: u16, c: char)
        requires some { 1 ≤ columns }
        requires few { columns ≤ 2 }
        requires fits { self.old.display.cursor.column + columns ≤ self.old.display.width }
        ensures { self.new ≡ changed (with_glyph columns c) self.old }
    {
        if self.cursor.column + usize::from(columns) + 1 < self.cells.width() {
            self.put_cells(columns, c);
        } else {
            self.put_at_end(columns, c);
        }
    }

    /// The same where the row ends. It is out of line, so that other characters do not pay for it.
    #[inline(never)]
    fn put_at_end(&mut self, columns: u16, c: char)
        requires some { 1 ≤ columns }
        requires few { columns ≤ 2 }
        requires fits { self.old.display.cursor.column + columns ≤ self.old.display.width }
        ensures { self.new ≡ changed (with_glyph columns c) self.old }
    {
        // (for the proof: the cells fill the rows)
        let _ = self.cells.width();
        let was_going_on = self.goes_on();
        self.put_cells(columns, c);
        if was_going_on {
            self.set_goes_on(true);
        }
    }

    /// The cells of the character, and the cursor past them. It is called, so that what it calls stands in line in it.
    #[inline(never)]
    #[tactic(auto, unfolding(crate::specs::Print::with_cells_of))]
    fn put_cells(&mut self, columns: u16, c: char)
        requires some { 1 ≤ columns }
        requires few { columns ≤ 2 }
        requires fits { self.old.display.cursor.column + columns ≤ self.old.display.width }
        ensures { self.new ≡ changed (with_cells_of columns c) self.old }
    {
        let (row, column) = (self.cursor.row, self.cursor.column);
        let style = self.cursor.style;
        let next = column + usize::from(columns);
        // (for the proof: no row begins with a right half)
        let _ = self.cells.width();
        self.damage.note(row, column, next);
        self.cells.put(row, column, columns, c, style, self.link);
        // (for the proof: the cells fill the rows)
        let _ = self.cells.width();
        self.cursor.column = next;
    }

    /// How many characters of one column each the cursor's row has room for, each of which comes into a cell as it
    /// is: none in insert mode, and none while lines are drawn.
    #[inline]
    pub(crate) fn room(&self) -> usize
        ensures { 0 < result → HasRoom result self.now.display }
    {
        if self.inserts || self.cursor.charsets.draws() {
            0
        } else {
            self.cells.width() - self.cursor.column
        }
    }

    /// Puts printed ASCII for which there is room, and the cursor after it: as if each character had been printed.
    #[inline]
    pub(crate) fn put_run(&mut self, run: &[u8])
        requires some { 0 < length run.now }
        requires ascii { EachIs is_printed_ascii run.now }
        requires room { HasRoom (length run.now) self.old.display }
        ensures { self.new ≡ changed (printed_all run.now) self.old }
    {
        // (for the proof: the cells fill the rows)
        let _ = self.cells.width();
        // (the cells are put at one place, in line: so one test is all that a short run pays for its row)
        let was_going_on = self.goes_on_at_end(self.cursor.column + run.len());
        self.put_cells_of_run(run);
        if was_going_on {
            self.set_goes_on(true);
        }
    }

    /// Whether the cursor's row goes on, where cells up to that column come to its last cell or the one before it.
    /// Others leave what the row says.
    #[inline(always)]
    fn goes_on_at_end(&self, end: usize) -> bool
        requires fits { end ≤ self.now.display.width }
        ensures { result ≡ (nat_le self.now.display.width (end + 1) && row_goes_on self.now.display) }
    {
        self.cells.width() <= end + 1 && self.goes_on()
    }

    /// Puts its cells, and the cursor after them.
    #[inline(always)]
    fn put_cells_of_run(&mut self, run: &[u8])
        requires some { 0 < length run.now }
        requires fits { self.old.display.cursor.column + length run.now ≤ self.old.display.width }
        ensures { self.new ≡ changed (with_run run.now) self.old }
    {
        let (row, column) = (self.cursor.row, self.cursor.column);
        let style = self.cursor.style;
        let next = column + run.len();
        // (for the proof: no row begins with a right half)
        let _ = self.cells.width();
        self.damage.note(row, column, next);
        self.cells.put_run(row, column, run, style, self.link);
        // (for the proof: the cells fill the rows)
        let _ = self.cells.width();
        self.cursor.column = next;
    }
}
