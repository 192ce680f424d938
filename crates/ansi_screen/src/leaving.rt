//! Scrollback: a screen of which each row is taken that leaves it; which rows leave, [`Scrolling`] says.
ghost use Rattle.std.specs.Prelude.{◌≡◌, ◌≤◌, ℕ, List, Some, ◌∷◌, length, map, IfOk};
ghost use Rattle.ansi_screen.specs.declared.cell.Cell.{Cell as ACell};
ghost use Rattle.ansi_screen.specs.Display.{IsSized};
ghost use Rattle.ansi_screen.specs.Edits.{swapped};
ghost use Rattle.ansi_screen.specs.Grid.{IsBlankFrom};
ghost use Rattle.ansi_screen.specs.Leaving.{TakesRows, kept_rows, with_room_alone};
ghost use Rattle.ansi_screen.specs.Text.{first_rows, printed_rows};

use crate::cell::Cell;
use crate::history::History;
use crate::screen::Screen;
use crate::size::{MAX_COLUMNS, MAX_ROWS, MIN_COLUMNS, MIN_ROWS};
use crate::text::LeftOut;
use crate::texts::{PutRuns, print_by_runs};
use anstyle_parse::{Params, Perform, PerformText};
use std::alloc::{AllocError, Global};
use std::marker::Model;

/// Takes rows, one after another.
pub trait TakeRow {
    // What a row does to it: as it was, the row's cells, as it is then.
    ghost takes: { Self → List ACell → Self → Type 0 };

    // What handing on what it holds back does to it.
    ghost passes_on: { Self → Self → Type 0 };

    /// Takes the cells of a row, of which those from `written` on are plain blanks.
    fn take_row(&mut self, row: &[Cell], written: usize)
        requires within { written ≤ length row.now }
        requires rest { IsBlankFrom written row.now }
        ensures { takes self.old row.now self.new };

    /// Hands on what it holds back, as a writer may of rows that it has taken.
    fn pass_on(&mut self)
        ensures { passes_on self.old self.new };
}

/// Takes rows, and is told of operating system commands, as of those that begin links.
pub trait TakeCommand: TakeRow {
    // What a command does to it, by the number of the link that is in force after it and by its parts.
    ghost takes_command: { Self → ℕ → List (List ℕ) → Self → Type 0 };

    /// Takes the parts of a command, and the number of the link in force after it; 0, where none is.
    fn take_command(&mut self, link: u32, parts: &[&[u8]])
        ensures { takes_command self.old link (map (λ part. part.now) parts.now) self.new };
}

/// A screen with room for the rows that leave it by a call, until they are taken.
#[derive(Drop)]
pub struct Scrollable {
    screen: Screen,
}

impl Model for Scrollable {
    ghost use Rattle.std.specs.Prelude.{◌≡◌};
    ghost use Rattle.ansi_screen.specs.After.{State};
    ghost use Rattle.ansi_screen.specs.Leaving.{unkept, HasRoom};

    ghost Value = { State };

    ghost view = { λ s. unkept s.screen };

    ghost invariant = { λ s. HasRoom s.screen };
}

impl Scrollable {
    ghost use Rattle.ansi_screen.specs.After.{new_state};
    ghost use Rattle.ansi_screen.specs.Leaving.{unkept};

    /// A blank screen of so many columns and rows. `Err` means that memory is wanting.
    pub fn new(alloc: Global, columns: usize, rows: usize) -> Result<Scrollable, AllocError>
        requires min_columns { MIN_COLUMNS ≤ columns }
        requires max_columns { columns ≤ MAX_COLUMNS }
        requires min_rows { MIN_ROWS ≤ rows }
        requires max_rows { rows ≤ MAX_ROWS }
        ensures { IfOk result (λ screen. screen ≡ new_state columns rows) }
    {
        let screen = Screen::with_history(alloc, columns, rows, rows)?;
        // (for the proof: it is within its sizes)
        let _ = screen.rows();
        Ok(Scrollable { screen })
    }

    /// This screen, whatever it shows; of the rows that left it before it keeps none. `Err` means that memory is
    /// wanting.
    pub fn of(alloc: Global, screen: Screen) -> Result<Scrollable, AllocError>
        ensures { IfOk result (λ same. same ≡ unkept screen) }
    {
        let mut screen = screen;
        let rows = screen.rows();
        screen.keep(alloc, rows)?;
        // (for the proof: it is within its sizes)
        let _ = screen.rows();
        Ok(Scrollable { screen })
    }
}

/// A screen, and a taker to which each row of the main screen is handed that leaves it: after the call by which it
/// does, in order, each once. A row that autowrap left is handed on as one that goes on.
///
/// Such rows leave by LF, VT, FF, IND, NEL, SU and autowrap, where the upper margin is the first row. By ED 2, ED 0 at the
/// first cell, and RIS, which take away all of the main screen, its rows leave up to the last in which something was
/// printed. No row leaves by DL or another ED, which take away what they are told to, nor from the alternate screen.
#[derive(Drop)]
pub struct Scrolling<R> {
    screen: Screen,
    taker: R,
}

impl<R> Model for Scrolling<R> {
    ghost use Rattle.ansi_screen.specs.Leaving.{Scrolled, unkept, HasRoom};

    ghost Value = { Scrolled R };

    ghost view = { λ s. record { screen = unkept s.screen; taker = s.taker } };

    ghost invariant = { λ s. HasRoom s.screen };
}

impl<R: TakeRow> Scrolling<R> {
    ghost use Rattle.ansi_screen.specs.After.{as_shown};
    ghost use Rattle.ansi_screen.specs.Leaving.{unkept, screen_of, taker_of};

    /// One with this screen, of which no row has left yet.
    pub fn new(screen: Scrollable, taker: R) -> Scrolling<R>
        ensures screen { screen_of result ≡ screen }
        ensures taker { taker_of result ≡ taker }
    {
        Scrolling {
            screen: screen.screen,
            taker,
        }
    }

    /// The screen.
    pub fn screen(&self) -> &Screen
        ensures { unkept result.now ≡ screen_of self.now }
    {
        &self.screen
    }

    /// What takes the rows.
    pub fn taker(&self) -> &R
        ensures { result.now ≡ taker_of self.now }
    {
        &self.taker
    }

    /// Forgets what can have changed of the screen, as [`Screen::forget`] does; what takes the rows stays.
    pub fn forget(&mut self)
        ensures screen { screen_of self.new ≡ as_shown (screen_of self.old) }
        ensures taker { taker_of self.new ≡ taker_of self.old }
    {
        self.screen.forget();
    }

    /// What takes the rows hands on what it holds back; the screen stays.
    pub fn pass_on(&mut self)
        ensures screen { screen_of self.new ≡ screen_of self.old }
        ensures taker { R.passes_on (taker_of self.old) (taker_of self.new) }
    {
        self.taker.pass_on();
    }

    /// The screen, and what took the rows.
    pub fn into_parts(self) -> (Screen, R)
        ensures screen { unkept result.0 ≡ screen_of self }
        ensures taker { result.1 ≡ taker_of self }
    {
        let Scrolling { screen, taker } = self;
        (screen, taker)
    }

    /// Hands so many rows of the screen on, from the first: as at the end of a stream, where they still
    /// show.
    pub fn hand_on(&mut self, count: usize)
        requires { count ≤ (screen_of self.old).display.height }
        ensures screen { screen_of self.new ≡ screen_of self.old }
        ensures taken { TakesRows R.takes (taker_of self.old) (first_rows count (screen_of self.old).display)
            (taker_of self.new) }
    {
        let display = self.screen.display();
        for row in 0..count {
            self.taker.take_row(display.row(row), display.written(row));
        }
    }

    /// Hands the rows of the screen on, up to the last in which something was printed.
    pub fn hand_on_printed(&mut self)
        ensures screen { screen_of self.new ≡ screen_of self.old }
        ensures taken { TakesRows R.takes (taker_of self.old) (printed_rows (screen_of self.old).display)
            (taker_of self.new) }
    {
        let count = self.screen.used_rows(LeftOut::Unprinted);
        self.hand_on(count);
    }

    /// Hands on the rows of the main screen while the alternate one hides it, up to the last in which something was
    /// printed.
    pub fn hand_on_hidden(&mut self)
        ensures screen { screen_of self.new ≡ screen_of self.old }
        ensures taken { TakesRows R.takes (taker_of self.old) (printed_rows (swapped (screen_of self.old).display))
            (taker_of self.new) }
    {
        self.screen.swap_screens();
        self.hand_on_printed();
        self.screen.swap_screens();
    }
}

impl<R: TakeCommand> Scrolling<R> {
    ghost use Rattle.ansi_screen.specs.Leaving.{screen_of, taker_of};

    /// What takes the rows is told of a command that the screen has received; the screen stays.
    pub fn tell(&mut self, parts: &[&[u8]])
        ensures screen { screen_of self.new ≡ screen_of self.old }
        ensures taker { R.takes_command (taker_of self.old) (screen_of self.old).display.link
            (map (λ part. part.now) parts.now) (taker_of self.new) }
    {
        let link = self.screen.link();
        self.taker.take_command(link, parts);
    }
}

/// Hands rows on that left. It is out of line, since few calls make any leave.
#[inline(never)]
fn hand_on_left<R: TakeRow>(history: &History, taker: &mut R)
    ensures { TakesRows R.takes taker.old history.now.rows taker.new }
{
    let (count, _) = history.counts();
    for number in 0..count {
        if let Some((cells, written)) = history.row(number) {
            taker.take_row(cells, written);
        }
    }
}

/// Hands the rows on that a call has made leave, if any has.
#[inline]
fn take_left<R: TakeRow>(screen: &mut Screen, taker: &mut R)
    ensures screen { screen.new ≡ with_room_alone screen.old }
    ensures taken { TakesRows R.takes taker.old (kept_rows screen.old.history) taker.new }
    ensures sized { IsSized screen.new.display }
{
    if let Some(history) = screen.history()
        && !history.is_new()
    {
        hand_on_left(history, taker);
        screen.clear_history();
    }
    // (for the proof: it is within its sizes)
    let _ = screen.rows();
}

/// After each call the rows that left by it are taken, and the screen is the one after the call.
impl<R: TakeRow> Perform for Scrolling<R> {
    ghost use Rattle.ansi_screen.specs.Leaving.{Scrolls};

    ghost means = { Scrolls R.takes };

    fn print(&mut self, c: char) {
        self.screen.print(c);
        take_left(&mut self.screen, &mut self.taker);
    }

    fn execute(&mut self, byte: u8) {
        self.screen.execute(byte);
        take_left(&mut self.screen, &mut self.taker);
    }

    fn hook(&mut self, params: &Params, intermediates: &[u8], ignore: bool, action: u8) {
        self.screen.hook(params, intermediates, ignore, action);
    }

    fn put(&mut self, byte: u8) {
        self.screen.put(byte);
    }

    fn unhook(&mut self) {
        self.screen.unhook();
    }

    fn osc_dispatch(&mut self, params: &[&[u8]], bell_terminated: bool) {
        self.screen.osc_dispatch(params, bell_terminated);
        // (for the proof: it is within its sizes)
        let _ = self.screen.rows();
    }

    fn csi_dispatch(&mut self, params: &Params, intermediates: &[u8], ignore: bool, action: u8) {
        self.screen
            .csi_dispatch(params, intermediates, ignore, action);
        take_left(&mut self.screen, &mut self.taker);
    }

    fn esc_dispatch(&mut self, intermediates: &[u8], ignore: bool, byte: u8) {
        self.screen.esc_dispatch(intermediates, ignore, byte);
        take_left(&mut self.screen, &mut self.taker);
    }
}

/// No row leaves by what comes into its cells at once.
impl<R: TakeRow> PutRuns for Scrolling<R> {
    ghost use Rattle.ansi_screen.specs.Leaving.{ScrollsAll};
    ghost use Rattle.ansi_screen.specs.TextsProof.{scrolls-follows};

    ghost receives = { ScrollsAll R.takes };

    fn put_front(&mut self, run: &[u8]) -> usize {
        let count = self.screen.put_run(run);
        // (for the proof: it is within its sizes)
        let _ = self.screen.rows();
        count
    }

    ghost follows = { scrolls-follows R.takes };
}

/// A text comes into its cells at once, as far as it is printed ASCII and rows have room for it.
impl<R: TakeRow> PerformText for Scrolling<R> {
    ghost use Rattle.ansi_screen.specs.Leaving.{ScrollsAll};
    ghost use Rattle.ansi_screen.specs.TextsProof.{scrolls-follows};

    ghost receives = { ScrollsAll R.takes };

    fn print_text(&mut self, text: &str) {
        print_by_runs(self, text);
    }

    ghost follows = { scrolls-follows R.takes };
}
