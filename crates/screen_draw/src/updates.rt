//! Updates, after each piece of a stream.
ghost use Rattle.std.specs.Prelude.{◌≡◌, ◌++◌, [], ℕ, List, None};
ghost use Rattle.anstyle_parse.specs.Io.Output.{writer_in, fault_in, HoldsBack, Adds};
ghost use Rattle.anstyle_parse.specs.Views.Accumulator.{front_of};
ghost use Rattle.anstyle_parse.specs.Views.Parser.{IsAfter};
ghost use Rattle.ansi_screen.specs.After.{State, Shows};
ghost use Rattle.ansi_screen.specs.Following.{IsShownOf};
ghost use Rattle.screen_draw.specs.Updates.{Follows, GetsOn, LooksAs, LooksAlike};

use crate::{draw, update_noted};
use ansi_screen::Screen;
use anstyle_parse::io::{Fault, Output, Sink, Source};
use anstyle_parse::{Parser, Utf8Parser};

/// The bytes that one read is asked for: as many as a pipe of Linux holds.
const PIECE: usize = 65_536;

/// How many cells are copied in the time in which a byte is taken. At 120x40 a cell took 0.5 ns, and a byte of short
/// sequences 4.4.
const CELLS_A_BYTE: usize = 8;

/// Of so many cells two screens take 1 MB, which a processor holds near. Where there are more, a cell took 3.3 ns at
/// 300x100, and 8 at 1000x1000, which is counted as a byte.
const NEAR_CELLS: usize = 13_000;

/// How many cells are copied in the time in which a parser is copied.
const PARSER_CELLS: usize = 64;

/// How many cells [`Screen::catch_up`] copies from this screen: those that can have changed, and where the frame can
/// have, those that the alternate screen covers.
fn copied_cells(wanted: &Screen) -> usize {
    let mut cells = if wanted.is_framed() {
        wanted.rows() * wanted.columns()
    } else {
        0
    };
    let (first, past) = wanted.changed_rows();
    for row in first..past {
        let (left, right) = wanted.changed(row);
        cells = cells.saturating_add(right - left);
    }
    cells
}

/// Whether less time goes by where a screen comes to this one by [`Screen::catch_up`], and a parser is copied, than
/// where so many bytes are taken a second time.
fn is_copied(wanted: &Screen, bytes: usize) -> bool {
    let cells = copied_cells(wanted).saturating_add(PARSER_CELLS);
    cells <= bytes || (cells <= NEAR_CELLS && cells / CELLS_A_BYTE <= bytes)
}

/// The screen that is shown, and the parser that has made it, come to where the wanted one and its parser are, which
/// have taken a piece more: by a copy of what can have changed, or by taking the piece too.
fn come_after(
    shown: &mut Screen,
    shown_parser: &mut Parser<Utf8Parser>,
    wanted: &Screen,
    parser: &Parser<Utf8Parser>,
    piece: &[u8],
)
    requires noted { IsShownOf wanted.now shown.old }
    ensures screen { (first last next : State) (before : List ℕ) → IsAfter front_of shown_parser.old before
        → Shows first before last → LooksAlike last shown.old
        → Shows first (before ++ piece.now) next → LooksAs next wanted.now → LooksAlike next shown.new }
    ensures parser { (before : List ℕ) → IsAfter front_of shown_parser.old before
        → IsAfter front_of parser.now (before ++ piece.now) → IsAfter front_of shown_parser.new (before ++ piece.now) }
{
    if is_copied(wanted, piece.len()) {
        // (a clone never fails)
        if let Ok(clone) = parser.clone() {
            shown.catch_up(wanted);
            *shown_parser = clone;
            return;
        }
    }
    shown_parser.advance_texts(shown, piece);
}

/// Why no more was followed.
#[derive(Debug, Clone, Copy, PartialEq, Eq)]
pub enum Stopped {
    /// What the writer holds back could not be passed on, as to a full disk or a pipe that nobody reads.
    Stuck,
    /// The reader or the output failed: [`Fault::Read`] or [`Fault::Write`].
    AtFault(Fault),
}

/// Hands on what was written, and answers what keeps it from getting on.
fn hand_on<W: Sink>(output: &mut Output<W>) -> Result<(), Stopped>
    ensures passed { Adds W.Sink [] output.old output.new }
    ensures answer { GetsOn result (fault_in output.new) (HoldsBack W.Sink (writer_in output.new)) }
{
    output.pass_on();
    if output.fault().is_some() {
        Err(Stopped::AtFault(Fault::Write))
    } else if output.is_stuck() {
        Err(Stopped::Stuck)
    } else {
        Ok(())
    }
}

/// Draws a screen, and after each read of at most 65,536 bytes the update to the screen that all bytes so far lead
/// to, until the reader ends or fails, or a write fails, of which none has before, or what the writer holds back can't
/// be passed on. What was written is handed on before the next read. At most 2^64 - 1 reads are made. No memory is
/// taken.
///
/// `wanted` takes the bytes. Of both screens only that is compared and drawn which `wanted` has noted since the read
/// before, to the column. Then that is copied; or, where it is many cells for the bytes of the read, `shown` takes
/// these too.
///
/// Both screens are the one that is drawn first; in the end `wanted` has the last one. The answer is
///
/// - `Ok(())` where the reader is at its end;
/// - `Err(AtFault(Fault::Read))` where a read failed, or 2^64 - 1 reads all gave bytes;
/// - `Err(AtFault(Fault::Write))` where a write failed: nothing was read after it;
/// - `Err(Stuck)` where what the writer holds back could not be passed on ([`Output::is_stuck`]): all that was drawn was
///   given to the writer, which holds some of it back, and nothing was read after it.
pub fn update_to_end<R: Source, W: Sink>(
    reader: &mut R,
    shown: &mut Screen,
    wanted: &mut Screen,
    output: &mut Output<W>,
) -> Result<(), Stopped>
    requires same { shown.old ≡ wanted.old }
    requires no_fault { fault_in output.old ≡ None }
    ensures { Follows R.Source W.Sink reader.old reader.new wanted.old wanted.new output.old output.new result }
{
    draw(shown, output);
    hand_on(output)?;
    let mut shown_parser = Parser::<Utf8Parser>::new();
    let mut parser = Parser::<Utf8Parser>::new();
    let mut piece = [0; PIECE];
    for turn in 0..u64::MAX {
        match reader.read(&mut piece) {
            None => return Err(Stopped::AtFault(Fault::Read)),
            Some(0) => return Ok(()),
            Some(count) => {
                wanted.forget();
                // (for the proof: the sizes are within their limits)
                let _ = wanted.columns();
                parser.advance_texts(wanted, &piece[..count]);
                update_noted(shown, wanted, output);
                hand_on(output)?;
                come_after(shown, &mut shown_parser, wanted, &parser, &piece[..count]);
            }
        }
    }
    Err(Stopped::AtFault(Fault::Read))
}
