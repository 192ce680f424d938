//! Modes, margins, saved cursors, the alternate screen.
ghost use Rattle.std.specs.Prelude.{◌≡◌, ◌<◌};
ghost use Rattle.anstyle_parse.specs.Views.Params.{groups_shown};
ghost use Rattle.ansi_screen.specs.Display.{fresh};
ghost use Rattle.ansi_screen.specs.State.{changed, stepped};
ghost use Rattle.ansi_screen.specs.Edits.{renewed};
ghost use Rattle.ansi_screen.specs.Modes.{with_style, shifted, with_charset, saving, into_margins, restored, with_origin, with_margins, to_alternate, to_main, with_alternate, with_private_mode, with_mode, with_modes, softly_reset, first_field};

use super::Display;
use crate::place::{Charsets, Place};
use crate::tabs::reset_stops;
use ansi_style::Style;
use anstyle_parse::Params;

/// The first field of a group; 0, where there is none.
pub(super) fn first_field(group: &[u16]) -> u16
    ensures { result ≡ first_field group.now }
{
    match group {
        [field, ..] => *field,
        [] => 0,
    }
}

impl Display {
    /// SGR
    pub(super) fn select_style(&mut self, params: &Params)
        ensures { self.new ≡ changed (with_style (groups_shown params.now)) self.old }
    {
        self.cursor.style.select(params);
    }

    /// SO, SI
    pub(super) fn shift(&mut self, on: bool)
        ensures { self.new ≡ changed (shifted on) self.old }
    {
        self.cursor.charsets.uses_g1 = on;
    }

    /// G0 or G1 is the line drawing set, or letters.
    #[tactic(auto, unfolding(crate::specs::Modes::with_charset))]
    pub(super) fn set_charset(&mut self, mark: u8, final_byte: u8)
        ensures { self.new ≡ changed (with_charset mark final_byte) self.old }
    {
        let draws = final_byte == b'0';
        match mark {
            b'(' => self.cursor.charsets.g0_draws = draws,
            b')' => self.cursor.charsets.g1_draws = draws,
            _ => {}
        }
    }

    /// DECSC
    pub(super) fn save(&mut self)
        ensures { self.new ≡ changed saving self.old }
    {
        self.damage.note_frame();
        self.saved = self.cursor;
    }

    /// DECRC
    #[tactic(auto, unfolding(crate::specs::Modes::restored))]
    pub(super) fn restore(&mut self)
        ensures { self.new ≡ changed restored self.old }
    {
        self.cursor = self.saved;
        if self.cursor.is_relative {
            let row = self.cursor.row.min(self.bottom - 1).max(self.top);
            self.to_row(row);
        }
    }

    /// DECOM
    #[tactic(auto, unfolding(crate::specs::Modes::with_origin))]
    pub(super) fn set_origin(&mut self, on: bool)
        ensures { self.new ≡ changed (with_origin on) self.old }
    {
        self.cursor.is_relative = on;
        self.to_position(0, 0);
    }

    /// DECSTBM
    #[tactic(auto, unfolding(crate::specs::Modes::with_margins))]
    pub(super) fn set_margins(&mut self, first: u16, last: u16)
        ensures { self.new ≡ changed (with_margins first last) self.old }
    {
        let first = usize::from(first).max(1);
        let last = usize::from(last);
        let bottom = if 0 < last && last < self.cells.height() {
            last
        } else {
            self.cells.height()
        };
        if first < bottom {
            self.damage.note_frame();
            self.top = first - 1;
            self.bottom = bottom;
            self.to_position(0, 0);
        }
    }

    /// 1049 set
    #[tactic(auto, unfolding(crate::specs::Modes::to_alternate))]
    fn show_alternate(&mut self)
        ensures { self.new ≡ changed to_alternate self.old }
    {
        if !self.is_alternate {
            let style = self.cursor.style;
            self.damage.note_all();
            self.hidden.swap(&mut self.cells);
            self.cells.fill(style);
            self.saved = Place::home();
            self.is_alternate = true;
            self.hidden_saved = self.cursor;
        }
    }

    /// 1049 reset, but for the cursor
    #[tactic(auto, unfolding(crate::specs::Modes::to_main))]
    fn show_main(&mut self)
        ensures { self.new ≡ changed to_main self.old }
    {
        if self.is_alternate {
            self.damage.note_all();
            self.hidden.swap(&mut self.cells);
            self.hidden.clear();
            self.saved = self.hidden_saved;
            self.is_alternate = false;
            self.hidden_saved = Place::home();
        }
    }

    /// 1049
    #[tactic(auto, unfolding(crate::specs::Modes::with_alternate))]
    fn set_alternate(&mut self, on: bool)
        ensures { self.new ≡ changed (with_alternate on) self.old }
    {
        if on {
            self.show_alternate();
        } else {
            self.show_main();
            self.restore();
        }
    }

    #[tactic(auto, unfolding(crate::specs::Modes::with_private_mode))]
    fn set_private_mode(&mut self, on: bool, mode: u16)
        ensures { self.new ≡ changed (with_private_mode on mode) self.old }
    {
        match mode {
            6 => self.set_origin(on),
            7 => self.wraps = on,
            25 => self.is_visible = on,
            1049 => self.set_alternate(on),
            _ => {}
        }
    }

    #[tactic(auto, unfolding(crate::specs::Modes::with_mode))]
    fn set_mode(&mut self, on: bool, mode: u16)
        ensures { self.new ≡ changed (with_mode on mode) self.old }
    {
        if mode == 4 {
            self.inserts = on;
        }
    }

    /// SM, RM
    pub(super) fn set_modes(&mut self, on: bool, params: &Params)
        ensures { self.new ≡ changed (with_modes (with_mode on) (groups_shown params.now)) self.old }
    {
        for group in params {
            self.set_mode(on, first_field(group));
        }
    }

    /// DECSET, DECRST
    pub(super) fn set_private_modes(&mut self, on: bool, params: &Params)
        ensures { self.new ≡ changed (with_modes (with_private_mode on) (groups_shown params.now)) self.old }
    {
        for group in params {
            self.set_private_mode(on, first_field(group));
        }
    }

    /// DECSTR
    #[tactic(auto, unfolding(crate::specs::Modes::softly_reset))]
    pub(super) fn soft_reset(&mut self)
        ensures { self.new ≡ changed softly_reset self.old }
    {
        self.damage.note_frame();
        self.cursor.style = Style::default();
        self.cursor.is_relative = false;
        self.cursor.charsets = Charsets::letters();
        self.saved = Place::home();
        self.top = 0;
        self.bottom = self.cells.height();
        self.wraps = true;
        self.inserts = false;
        self.is_visible = true;
    }

    /// RIS
    pub(super) fn reset(&mut self)
        ensures { self.new ≡ stepped renewed self.old }
    {
        if self.is_alternate {
            self.swap_screens();
        }
        self.hand_out_printed();
        self.renew();
    }

    /// The display is a new one.
    fn renew(&mut self)
        ensures { self.new ≡ changed (λ d. fresh d.width d.height) self.old }
    {
        self.damage.note_all();
        self.cells.fill(Style::default());
        self.hidden.clear();
        reset_stops(self.tabs.as_mut_slice());
        self.cursor = Place::home();
        self.saved = Place::home();
        self.hidden_saved = Place::home();
        self.top = 0;
        self.bottom = self.cells.height();
        self.wraps = true;
        self.inserts = false;
        self.is_visible = true;
        self.links = 0;
        self.link = 0;
        self.is_alternate = false;
    }
}
