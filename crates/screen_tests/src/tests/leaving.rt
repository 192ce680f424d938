//! Rows that leave a screen, and what it showed as text. Streams stand in tests/screen_twin.
use super::{assert_same, assert_written};
use ansi_screen::laws::scrolled_off;
use ansi_screen::{
    Cell, LeftOut, Part, Screen, Scrollable, Scrolling, Size, TakeCommand, TakeRow, goes_on,
    is_ascii_alone, put_cells, used, used_of_written,
};
use ansi_style::Style;
use anstyle_parse::Perform;
use anstyle_parse::io::{FromRead, FromWrite, Output, write_calls_by};
use screen_text::laws::{
    bound, clean, lines, plain_screen, plain_text, recorded_size, returned, rewritten, shown_twice,
    without_line,
};
use screen_text::{
    NoSize, SHOWN, ShownSize, ShownWriter, TextRows, recorded, screen_size, write_shown,
};
use std::alloc::{AllocError, Global};
use std::process::Abort;
use std::test::Fail;

/// Counts the rows that it takes, and keeps whether the last one goes on.
#[derive(Drop)]
struct Counter {
    count: usize,
    goes_on: bool,
    link: u32,
}

impl TakeRow for Counter {
    ghost use Rattle.std.specs.Prelude.{⊤};

    ghost takes = { λ _ _ _. ⊤ };

    ghost passes_on = { λ _ _. ⊤ };

    fn take_row(&mut self, row: &[Cell], _written: usize) {
        self.count = self.count.saturating_add(1);
        self.goes_on = row.last().is_some_and(|cell| cell.goes_on);
    }

    fn pass_on(&mut self) {}
}

impl TakeCommand for Counter {
    ghost use Rattle.std.specs.Prelude.{⊤};

    ghost takes_command = { λ _ _ _ _. ⊤ };

    fn take_command(&mut self, link: u32, _parts: &[&[u8]]) {
        self.link = link;
    }
}

/// A blank screen of three columns and one row.
fn blank(alloc: Global) -> Result<Scrollable, AllocError> {
    Scrollable::new(alloc, 3, 1)
}

/// A screen of three columns and one row, whose rows are counted as they leave.
fn counting(alloc: Global) -> Result<Scrolling<Counter>, AllocError> {
    let counter = Counter {
        count: 0,
        goes_on: false,
        link: 0,
    };
    Ok(Scrolling::new(blank(alloc)?, counter))
}

/// The screen shows these pieces.
fn show(scrolling: &mut Scrolling<Counter>, pieces: &[&[u8]]) {
    scrolled_off(scrolling, pieces);
}

/// Such a screen after these pieces.
fn shown(alloc: Global, pieces: &[&[u8]]) -> Result<Scrolling<Counter>, AllocError> {
    let mut scrolling = counting(alloc)?;
    show(&mut scrolling, pieces);
    Ok(scrolling)
}

/// So many rows have left.
fn assert_left(rt: &impl Abort, scrolling: &Scrolling<Counter>, count: usize) {
    assert_same(rt, &scrolling.taker().count, &count);
}

/// So many rows of a screen are used.
fn assert_used_rows(rt: &impl Abort, screen: &Screen, count: usize) {
    assert_same(rt, &screen.used_rows(LeftOut::Unprinted), &count);
}

// What is left out at the end of a row is copied and compared as what it is.
#[test]
fn what_is_left_out(rt: HostRuntime) -> Result<(), Fail> {
    assert!(rt; LeftOut::Unprinted.clone()? == LeftOut::Unprinted);
    assert!(rt; LeftOut::Unprinted != LeftOut::Blanks);
    Ok(())
}

/// The last row that left goes on.
fn assert_goes_on(rt: &impl Abort, scrolling: &Scrolling<Counter>) {
    assert!(rt; scrolling.taker().goes_on);
}

/// Three rows leave, and the last of them goes on.
fn assert_rows_leave(rt: &impl Abort, mut scrolling: Scrolling<Counter>) {
    scrolling.pass_on();
    assert_left(rt, &scrolling, 3);
    assert_goes_on(rt, &scrolling);
    assert_used_rows(rt, scrolling.screen(), 1);
    drop(scrolling);
}

// The row that a character wraps from goes on.
#[test]
fn rows_that_leave(rt: HostRuntime) -> Result<(), Fail> {
    let pieces: &[&[u8]] = &[b"ab\r\n\x1b[S", b"abc", b"d"];
    assert_rows_leave(&rt, shown(rt.alloc(), pieces)?);
    Ok(())
}

/// Hands on the only row of a screen, and says what is left.
fn handed_on(rt: &impl Abort, scrolling: Scrolling<Counter>) -> (Screen, Counter) {
    let mut scrolling = scrolling;
    assert_eq!(rt; scrolling.screen().rows(), 1);
    scrolling.hand_on(1);
    scrolling.into_parts()
}

/// A screen of three columns and one row is empty.
fn assert_empty(rt: &impl Abort, screen: &Screen) {
    assert!(rt; screen.columns() == 3 && screen.rows() == 1);
    assert!(rt; matches!(screen.row(0)[1].part, Part::Empty));
}

#[test]
fn rows_that_are_left(rt: HostRuntime) -> Result<(), Fail> {
    let (screen, counter) = handed_on(&rt, counting(rt.alloc())?);
    assert!(rt; counter.count == 1 && !counter.goes_on);
    assert_empty(&rt, &screen);
    assert_used_rows(&rt, &screen, 0);
    drop(screen);
    Ok(())
}

/// Rows are taken away, one by one.
fn assert_taken_away(rt: &impl Abort, mut scrolling: Scrolling<Counter>) {
    assert_left(rt, &scrolling, 1);
    show(&mut scrolling, &[b"c\x1b[?1049hd\x1b[2J"]);
    assert_left(rt, &scrolling, 1);
    show(&mut scrolling, &[b"\x1bc\x1bc"]);
    assert_left(rt, &scrolling, 2);
    drop(scrolling);
}

// What ED 2 and RIS take away leaves first: of the alternate screen nothing, of the main one also where it is hidden.
#[test]
fn rows_that_are_taken_away(rt: HostRuntime) -> Result<(), Fail> {
    let pieces: &[&[u8]] = &[b"ab\x1b[2J", b"\x1b[2J\x1b[3J\x1b[J"];
    assert_taken_away(&rt, shown(rt.alloc(), pieces)?);
    Ok(())
}

/// The rows of the screen that shows are handed on, and then those of the hidden one.
fn assert_both_screens(rt: &impl Abort, mut scrolling: Scrolling<Counter>) {
    scrolling.hand_on_printed();
    assert_left(rt, &scrolling, 0);
    scrolling.hand_on_hidden();
    assert_left(rt, &scrolling, 1);
    drop(scrolling);
}

#[test]
fn both_screens(rt: HostRuntime) -> Result<(), Fail> {
    assert_both_screens(&rt, shown(rt.alloc(), &[b"ab\x1b[?1049h"])?);
    Ok(())
}

/// A link is set, and told to the taker.
fn assert_commands(rt: &impl Abort, mut scrolling: Scrolling<Counter>) {
    assert_same(rt, &scrolling.screen().link(), &1);
    scrolling.tell(&[b"8"]);
    assert_same(rt, &scrolling.taker().link, &1);
    drop(scrolling);
}

#[test]
fn commands_are_taken(rt: HostRuntime) -> Result<(), Fail> {
    assert_commands(&rt, shown(rt.alloc(), &[b"\x1b]8;;a:b\x07"])?);
    Ok(())
}

/// So much of a row is used.
fn assert_used(rt: &impl Abort, cells: &[Cell], ends: LeftOut, count: usize) {
    assert_same(rt, &used(cells, ends), &count);
}

#[test]
fn blanks_are_not_used(rt: HostRuntime) {
    let blanks = [Cell::blank(Style::default())];
    assert_used(&rt, &blanks, LeftOut::Blanks, 0);
    assert_used(&rt, &blanks, LeftOut::Unprinted, 0);
    assert!(rt; !goes_on(&blanks) && !blanks[0].is_right());
}

#[test]
fn what_was_shown(rt: HostRuntime) -> Result<(), Fail> {
    let screen = Scrollable::new(rt.alloc(), 4, 2)?;
    let mut reader = FromRead::new(b"10%\r20%\nlonger\n\x1b[31m ok \n".as_slice());
    let (writer, answer) = write_shown(screen, &mut reader, FromWrite::new(Vec::new(rt.alloc())));
    assert_written(&rt, (writer.into_inner(), answer), b"20%\nlonger\n ok \n");
    Ok(())
}

// The names of the laws of `screen_text`.
#[test]
fn laws(_rt: HostRuntime) {
    clean();
    lines();
    plain_text();
    plain_screen();
    shown_twice();
    returned();
    rewritten();
    bound();
    recorded_size();
    without_line();
}

// By hand: what came before counts as written.
#[test]
fn a_writer_that_is_given(rt: HostRuntime) -> Result<(), Fail> {
    let screen = Scrollable::new(rt.alloc(), 2, 1)?;
    let mut output = Output::new(FromWrite::new(Vec::new(rt.alloc())));
    let blank = Cell::blank(Style::default());
    assert!(rt; is_ascii_alone(&blank));
    put_cells(&mut output, &[blank]);
    let performer = ShownWriter::new(screen, TextRows::new(output));
    let mut reader = FromRead::new("\u{6F22}\u{5B57}".as_bytes());
    let (writer, answer) = write_calls_by(performer, &mut reader, b".");
    assert_written(
        &rt,
        (writer.into_inner(), answer),
        " \u{6F22}\u{5B57}\n.".as_bytes(),
    );
    Ok(())
}

/// A size has these columns and rows.
fn assert_size(rt: &impl Abort, size: Size, wanted: (usize, usize)) {
    assert_same(rt, &(size.columns, size.rows), &wanted);
}

/// The text is read as this size.
fn assert_parsed(rt: &impl Abort, text: &str, wanted: Option<Size>) {
    assert_same(rt, &Size::parse(text), &wanted);
}

/// The word with what is asked for leads to this size.
fn assert_screen_size(
    rt: &impl Abort,
    asked: Option<&str>,
    wanted: Result<Option<ShownSize>, NoSize>,
) {
    assert_same(rt, &screen_size(asked), &wanted);
}

const SIZE: Size = Size {
    columns: 120,
    rows: 40,
};

#[test]
fn sizes(rt: HostRuntime) {
    assert_parsed(&rt, "120x40", Some(SIZE));
    assert_parsed(&rt, "120", None);
    assert_size(&rt, Size::of_a_terminal(), (80, 24));
    assert_eq!(rt; SHOWN, "--shown");
    assert_screen_size(&rt, None, Ok(None));
    assert_screen_size(&rt, Some(""), Ok(Some(ShownSize::Recorded)));
    assert_screen_size(&rt, Some("=120x40"), Ok(Some(ShownSize::Fixed(SIZE))));
    assert_screen_size(&rt, Some("120x40"), Err(NoSize));
}

/// What script(1) of util-linux 2.38.1 writes on a terminal of 120x40.
const SCRIPT: &[u8] =
    b"Script started on 2026-11-28 08:05:31+00:00 [TERM=\"xterm\" TTY=\"/dev/pts/0\" COLUMNS=\"120\" LINES=\"40\"]\n";

/// Whether what was read decides the size.
fn assert_decided(rt: &impl Abort, size: ShownSize, read: &[u8], wanted: bool) {
    assert_same(rt, &size.is_decided(read), &wanted);
}

#[test]
fn recorded_sizes(rt: HostRuntime) {
    assert_size(&rt, ShownSize::Recorded.of(SCRIPT), (120, 40));
    assert_decided(&rt, ShownSize::Recorded, SCRIPT, true);
    assert_decided(&rt, ShownSize::Recorded, b"Script", false);
    assert_size(&rt, ShownSize::Recorded.of(b"a\n"), (1000, 100));
    assert_same(&rt, &ShownSize::Fixed(SIZE).of(b"a\n"), &SIZE);
    assert_decided(&rt, ShownSize::Fixed(SIZE), b"", true);
}

/// A stream that begins so says this size, and these bytes of it are its terminal's.
fn assert_recorded(rt: &impl Abort, front: &[u8], wanted: (Option<Size>, &[u8])) {
    assert_same(rt, &recorded(front), &wanted);
}

#[test]
fn recordings_without_their_first_lines(rt: HostRuntime) {
    assert_recorded(&rt, SCRIPT, (Some(SIZE), b""));
    let size = Size {
        columns: 9,
        rows: 2,
    };
    assert_recorded(
        &rt,
        b"[ COLUMNS=\"9\" LINES=\"2\"]\na\nb",
        (Some(size), b"a\nb"),
    );
    assert_recorded(&rt, b"a\nb", (None, b"a\nb"));
}

/// How far the only row of a screen is written, and how much of it is used.
fn written(rt: &impl Abort, screen: &Screen) -> (usize, usize) {
    assert!(rt; screen.rows() == 1);
    let written = screen.written(0);
    (
        written,
        used_of_written(screen.row(0), written, LeftOut::Unprinted),
    )
}

fn assert_row_written(rt: &impl Abort, screen: &Screen, wanted: (usize, usize)) {
    assert_same(rt, &written(rt, screen), &wanted);
}

/// Nothing is written, and then a character.
fn assert_written_rows(rt: &impl Abort, mut screen: Screen) {
    assert_row_written(rt, &screen, (0, 0));
    screen.print('a');
    assert_row_written(rt, &screen, (1, 1));
    drop(screen);
}

// A row is looked at as far as it was written.
#[test]
fn written_rows(rt: HostRuntime) -> Result<(), Fail> {
    assert_written_rows(&rt, Screen::new(rt.alloc(), 4, 1)?);
    Ok(())
}
