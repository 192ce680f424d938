//! The performer that writes what a screen showed.
ghost use Rattle.std.specs.Prelude.{◌≡◌, []};
ghost use Rattle.ansi_screen.specs.Leaving.{TakesRows, screen_of as scrolling_screen, taker_of};
ghost use Rattle.screen_text.specs.Lines.{showing};
ghost use Rattle.screen_text.specs.Shown.{given, given_all};
ghost use Rattle.screen_text.specs.Writer.{rows_of, screen_of, text_from, ending_from, Shows};

use crate::rows::WriteRows;
use ansi_screen::{Scrollable, Scrolling, TakeCommand, TakeRow};
use anstyle_parse::io::{Output, Sink, WritingPerformer};
use anstyle_parse::{Params, Perform, PerformText};

/// Gives each row of a screen's main screen to a writer of rows as it leaves, and when it hands its output back the
/// rows that still show, as [`write_shown`](crate::write_shown) says.
///
/// No memory is taken. A write that fails stops the writing: the fault is kept.
#[derive(Drop)]
pub struct ShownWriter<R> {
    scrolling: Scrolling<R>,
}

impl<R: TakeCommand> ShownWriter<R> {
    /// One with this screen, of which no row has left, and this writer of rows. Nothing is written.
    pub fn new(screen: Scrollable, rows: R) -> ShownWriter<R>
        ensures rows { rows_of result ≡ rows }
        ensures screen { screen_of result ≡ screen }
    {
        ShownWriter {
            scrolling: Scrolling::new(screen, rows),
        }
    }
}

/// A call does to the screen what it does; a line feed does a carriage return first.
impl<R: TakeCommand> Perform for ShownWriter<R> {
    ghost means = { λ old call new. Shows R.takes R.takes_command R.passes_on old (given call) new };

    fn print(&mut self, c: char) {
        self.scrolling.print(c);
    }

    fn execute(&mut self, byte: u8) {
        if byte == b'\n' {
            self.scrolling.execute(b'\r');
        }
        self.scrolling.execute(byte);
    }

    fn hook(&mut self, params: &Params, intermediates: &[u8], ignore: bool, action: u8) {
        self.scrolling.hook(params, intermediates, ignore, action);
    }

    fn put(&mut self, byte: u8) {
        self.scrolling.put(byte);
    }

    fn unhook(&mut self) {
        self.scrolling.unhook();
    }

    fn osc_dispatch(&mut self, params: &[&[u8]], bell_terminated: bool) {
        self.scrolling.osc_dispatch(params, bell_terminated);
        self.scrolling.tell(params);
    }

    fn csi_dispatch(&mut self, params: &Params, intermediates: &[u8], ignore: bool, action: u8) {
        self.scrolling
            .csi_dispatch(params, intermediates, ignore, action);
    }

    fn esc_dispatch(&mut self, intermediates: &[u8], ignore: bool, byte: u8) {
        self.scrolling.esc_dispatch(intermediates, ignore, byte);
    }
}

impl<R: TakeCommand> PerformText for ShownWriter<R> {
    ghost use Rattle.screen_text.specs.ShowingProof.{receives-follows};

    fn print_text(&mut self, text: &str) {
        self.scrolling.print_text(text);
    }

    ghost receives = { λ old calls new. Shows R.takes R.takes_command R.passes_on old (given_all calls) new };

    ghost follows = { receives-follows R.takes R.takes_command R.passes_on };
}

/// Hands the rows on that still show: where the alternate screen shows, those of the main screen first.
fn hand_on_showing<R: TakeRow>(scrolling: &mut Scrolling<R>)
    ensures { TakesRows R.takes (taker_of scrolling.old) (showing (scrolling_screen scrolling.old).display)
        (taker_of scrolling.new) }
{
    if scrolling.screen().is_alternate() {
        scrolling.hand_on_hidden();
    }
    scrolling.hand_on_printed();
}

/// At the end it writes the rows that still show.
impl<W: Sink, R: WriteRows<W>> WritingPerformer<W> for ShownWriter<R> {
    ghost use Rattle.screen_text.specs.ShowingProof.{adds-shown, ends-shown};

    ghost output_in = { λ performer. R.output_in (rows_of performer) };

    ghost text_from = { text_from R.standing_in R.row_text R.after_row R.after_command };

    ghost ending_from = { ending_from R.standing_in R.row_text R.after_row R.after_command R.closing };

    fn output(&self) -> &Output<W> {
        self.scrolling.taker().output()
    }

    fn pass_on(&mut self) {
        self.scrolling.pass_on();
    }

    fn into_output(self) -> Output<W> {
        let mut scrolling = self.scrolling;
        hand_on_showing(&mut scrolling);
        let (_screen, rows) = scrolling.into_parts();
        rows.into_output()
    }

    ghost adds = { adds-shown W.Sink R.takes R.takes_command R.passes_on R.output_in R.standing_in R.row_text
        R.after_row R.after_command R.writes_row R.writes_command R.writes_nothing };

    ghost ends = { λ old calls new shows _.
        ends-shown W.Sink R.takes R.takes_command R.passes_on R.output_in R.standing_in R.row_text R.after_row
        R.after_command R.writes_row R.writes_command R.writes_nothing R.closing old calls new shows };
}
