//! A screen, its links, what is asked for beside it, and the answers.
ghost use Rattle.std.specs.Prelude.{◌≡◌, map, IfOk};
ghost use Rattle.anstyle_parse.specs.Views.Params.{groups_shown};
ghost use Rattle.screen_answers.specs.Alone.{is_alone};
ghost use Rattle.screen_answers.specs.Facts.{facts_of};

use ansi_answers::{
    Facts, Request, Theme, Waiting, answer_to_command, answer_to_sequence, may_be_answered,
};
use ansi_modes::Asked;
use ansi_screen::Screen;
use anstyle_parse::{Params, Perform, PerformText};
use screen_html::LinkTable;
use std::alloc::{AllocError, Global};

/// A screen, the links that began on it, what is asked for beside it, and the answers that were not taken yet.
#[derive(Drop)]
pub struct Answering {
    pub screen: Screen,
    /// The links of its cells by their numbers.
    pub links: LinkTable,
    pub asked: Asked,
    /// The terminal's own colours.
    pub theme: Theme,
    /// The setting that is being asked for.
    pub request: Request,
    pub waiting: Waiting,
    /// Whether rows that ED and RIS take away with all of the screen are kept, as those that scroll off are.
    pub keeps_erased: bool,
}

/// The final bytes of ED, a control sequence, and of RIS, an escape sequence.
const ERASE: u8 = b'J';

const RESET: u8 = b'c';

/// What is read of a screen to answer.
pub fn facts_of(screen: &Screen) -> Facts
    ensures { result ≡ facts_of screen.now }
{
    let columns = screen.columns();
    let rows = screen.rows();
    let place = screen.cursor();
    let (top, bottom) = screen.margins();
    Facts {
        rows: rows as u16,
        columns: columns as u16,
        row: (place.row + 1) as u16,
        column: (place.column + 1).min(columns) as u16,
        top: (top + 1) as u16,
        bottom: bottom as u16,
        is_relative: place.is_relative,
        wraps: screen.wraps(),
        inserts: screen.inserts(),
        is_visible: screen.is_cursor_visible(),
        style: place.style,
    }
}

/// Whether such a control sequence is one of the screen alone, which asks for nothing, is not answered and takes no rows
/// away: so those that move the cursor or set a colour cost no more.
#[inline(always)]
#[tactic(auto, unfolding(crate::specs::Alone::is_alone))]
fn is_alone(intermediates: &[u8], final_byte: u8) -> bool
    ensures { result ≡ is_alone intermediates.now final_byte }
{
    if !intermediates.is_empty() {
        false
    } else if final_byte < b'n' {
        !matches!(final_byte, ERASE | b'c')
    } else {
        !matches!(final_byte, b'n' | b'p' | b'q' | b't' | b'u')
    }
}

impl Answering {
    ghost use Rattle.anstyle_parse.specs.Stream.Call.{csi_dispatch, esc_dispatch};
    ghost use Rattle.ansi_screen.specs.After.{after, as_shown};
    ghost use Rattle.ansi_screen.specs.Leaving.{with_kept};
    ghost use Rattle.screen_answers.specs.Answering.{new_answering, with_sequence, with_command, with_setting, answering_after};

    /// A screen of which nothing was asked yet, and which keeps all rows that leave it.
    pub fn new(screen: Screen, links: LinkTable, theme: Theme) -> Answering
        ensures { result ≡ new_answering screen links theme }
    {
        Answering {
            screen,
            links,
            asked: Asked::new(),
            theme,
            request: Request::Nothing,
            waiting: Waiting::new(),
            keeps_erased: true,
        }
    }

    /// Another one that stands where it stands; its screen notes what changes from now on. `Err` means that memory is
    /// wanting.
    pub fn copy(&self, alloc: Global) -> Result<Answering, AllocError>
        ensures { IfOk result (λ copy. copy ≡ record self.now { screen = as_shown self.now.screen }) }
    {
        Ok(Answering {
            screen: self.screen.copy(alloc)?,
            links: self.links.copy(alloc)?,
            asked: self.asked.copy(),
            theme: self.theme.copy(),
            request: self.request,
            waiting: self.waiting.copy(),
            keeps_erased: self.keeps_erased,
        })
    }

    /// The screen takes a control sequence, and keeps no row that leaves by it.
    #[cold]
    #[inline(never)]
    fn control_unkept(&mut self, params: &Params, intermediates: &[u8], ignore: bool, action: u8)
        ensures { self.new ≡ record self.old {
          screen = with_kept self.old.screen.history
              (after (csi_dispatch (groups_shown params.now) intermediates.now ignore action) self.old.screen);
        } }
    {
        // (for the proof: it is within its sizes)
        let _ = self.screen.columns();
        let mut kept = None;
        self.screen.swap_history(&mut kept);
        self.screen
            .csi_dispatch(params, intermediates, ignore, action);
        self.screen.swap_history(&mut kept);
    }

    /// The same of an escape sequence.
    #[cold]
    #[inline(never)]
    fn escape_unkept(&mut self, intermediates: &[u8], ignore: bool, byte: u8)
        ensures { self.new ≡ record self.old {
          screen = with_kept self.old.screen.history
              (after (esc_dispatch intermediates.now ignore byte) self.old.screen);
        } }
    {
        // (for the proof: it is within its sizes)
        let _ = self.screen.columns();
        let mut history = None;
        self.screen.swap_history(&mut history);
        self.screen.esc_dispatch(intermediates, ignore, byte);
        self.screen.swap_history(&mut history);
    }

    /// Any control sequence.
    #[inline(never)]
    #[tactic(auto, using(crate::proofs::QuietLemmas::quiet_sequence))]
    fn control(&mut self, params: &Params, intermediates: &[u8], ignore: bool, action: u8)
        ensures { self.new ≡ answering_after (csi_dispatch (groups_shown params.now) intermediates.now ignore action) self.old }
    {
        self.asked
            .csi_dispatch(params, intermediates, ignore, action);
        if intermediates.is_empty() && action == ERASE && !self.keeps_erased {
            self.control_unkept(params, intermediates, ignore, action);
        } else {
            self.screen
                .csi_dispatch(params, intermediates, ignore, action);
        }
        if may_be_answered(action) {
            self.answer_sequence(params, intermediates, ignore, action);
        }
    }

    /// Answers a control sequence.
    #[cold]
    #[inline(never)]
    fn answer_sequence(&mut self, params: &Params, intermediates: &[u8], ignore: bool, action: u8)
        ensures { self.new ≡ with_sequence (groups_shown params.now) intermediates.now ignore action self.old }
    {
        let facts = facts_of(&self.screen);
        let answer = answer_to_sequence(params, intermediates, ignore, action, &facts, &self.asked);
        self.waiting.keep(answer);
    }

    /// Answers a command.
    fn answer_command(&mut self, params: &[&[u8]], bell_terminated: bool)
        ensures { self.new ≡ with_command (map (λ part. part.now) params.now) bell_terminated self.old }
    {
        let answer = answer_to_command(params, bell_terminated, &self.asked, &self.theme);
        self.waiting.keep(answer);
    }

    /// Answers a string that asks for a setting: then none is asked for.
    #[cold]
    #[inline(never)]
    fn answer_setting(&mut self)
        ensures { self.new ≡ with_setting self.old }
    {
        let facts = facts_of(&self.screen);
        let answer = self.request.answer(&facts, &self.asked);
        self.request = Request::Nothing;
        self.waiting.keep(answer);
    }
}

/// After each call it is what the definition says of the one before and the call. A call that cannot ask computes no
/// answer.
impl Perform for Answering {
    ghost use Rattle.screen_answers.specs.Answering.{answering_after};

    ghost means = { λ old call new. new ≡ answering_after call old };

    #[inline(always)]
    fn print(&mut self, c: char) {
        self.screen.print(c);
    }

    #[inline(always)]
    fn execute(&mut self, byte: u8) {
        self.asked.execute(byte);
        self.screen.execute(byte);
    }

    fn hook(&mut self, params: &Params, intermediates: &[u8], ignore: bool, action: u8) {
        self.screen.hook(params, intermediates, ignore, action);
        self.request = Request::hooked(intermediates, ignore, action);
    }

    fn put(&mut self, byte: u8) {
        self.screen.put(byte);
        self.request = self.request.with_byte(byte);
    }

    fn unhook(&mut self) {
        self.screen.unhook();
        match self.request {
            Request::Nothing => {}
            _ => self.answer_setting(),
        }
    }

    fn osc_dispatch(&mut self, params: &[&[u8]], bell_terminated: bool) {
        self.asked.osc_dispatch(params, bell_terminated);
        self.screen.osc_dispatch(params, bell_terminated);
        let link = self.screen.link();
        self.links.take_command(link, params);
        self.answer_command(params, bell_terminated);
    }

    #[inline(always)]
    #[tactic(auto, using(crate::proofs::QuietLemmas::screen_alone))]
    fn csi_dispatch(&mut self, params: &Params, intermediates: &[u8], ignore: bool, action: u8) {
        if is_alone(intermediates, action) {
            self.screen
                .csi_dispatch(params, intermediates, ignore, action);
        } else {
            self.control(params, intermediates, ignore, action);
        }
    }

    #[inline(always)]
    fn esc_dispatch(&mut self, intermediates: &[u8], ignore: bool, byte: u8) {
        self.asked.esc_dispatch(intermediates, ignore, byte);
        if intermediates.is_empty() && byte == RESET && !self.keeps_erased {
            self.escape_unkept(intermediates, ignore, byte);
        } else {
            self.screen.esc_dispatch(intermediates, ignore, byte);
        }
    }
}

/// A text is not answered, asks for nothing, and begins no link.
impl PerformText for Answering {
    ghost use Rattle.screen_answers.specs.AnsweringProof.{Becomes, becomes-follows};

    ghost receives = { Becomes };

    #[inline(always)]
    fn print_text(&mut self, text: &str) {
        self.screen.print_text(text);
    }

    ghost follows = { becomes-follows };
}
