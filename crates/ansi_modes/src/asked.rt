//! What a stream has asked for, as a performer.
ghost use Rattle.std.specs.Prelude.{◌≡◌, [], ◌∷◌, map};
ghost use Rattle.anstyle_parse.specs.Views.Params.{groups_shown};
ghost use Rattle.ansi_modes.specs.Keys.{flags_of, with_flags, pushed_flags, popped_flags};
ghost use Rattle.ansi_modes.specs.Text.{text_of};
ghost use Rattle.ansi_modes.specs.Changes.{no_changes, all_changes};
ghost use Rattle.ansi_modes.specs.Asking.{may_ask};
ghost use Rattle.ansi_modes.specs.Asked.{nothing_asked, rung, renewed, softly_reset, with_number, with_numbers, with_keypad, in_shape, with_other_keys, with_stack, titles_back, stacked, controlled, sequenced, escaped, titled, in_folder, notified, number_in, colored, commanded_by, commanded, flags_in_force};

use crate::changes::Changes;
use crate::colors::{Colors, Palette};
use crate::cursor::Shape;
use crate::fields::{first_field, number_of, two_fields};
use crate::function::Function;
use crate::keys::{KeyFlags, other_keys};
use crate::modes::{Field, Modes, Switch};
use crate::progress::{Progress, ProgressState};
use crate::text::Text;
use crate::titles::{SavedTitles, Titles};
use anstyle_parse::{Params, Perform, PerformText};

/// What was asked for.
#[derive(Drop)]
pub struct Asked {
    pub modes: Modes,
    /// The cursor's shape; whether it blinks is a mode.
    pub shape: Shape,
    /// modifyOtherKeys: 0, 1 or 2.
    pub other_keys: u16,
    /// The flags of keys, by kitty's protocol, on the main screen.
    pub main_flags: KeyFlags,
    /// And on the alternate one.
    pub alternate_flags: KeyFlags,
    pub titles: Titles,
    pub saved_titles: SavedTitles,
    /// The folder that the program works in, as the URL that it told.
    pub folder: Text,
    pub progress: Progress,
    pub colors: Colors,
    /// How often the bell was rung; it stops at the greatest number.
    pub bells: u32,
    /// What was set since it was last asked.
    pub changes: Changes,
}

/// Whether such a control sequence may ask for anything: so those that set a colour cost no call.
#[inline(always)]
#[tactic(auto, unfolding(crate::specs::Asking::may_ask))]
fn may_ask(intermediates: &[u8], final_byte: u8) -> bool
    ensures { result ≡ may_ask intermediates.now final_byte }
{
    match intermediates {
        [] => final_byte == b't',
        _ => true,
    }
}

impl Asked {
    /// Nothing was asked for yet.
    pub fn new() -> Asked
        ensures { result ≡ nothing_asked }
    {
        Asked {
            modes: Modes::none(),
            shape: Shape::Own,
            other_keys: 0,
            main_flags: KeyFlags::new(),
            alternate_flags: KeyFlags::new(),
            titles: Titles::new(),
            saved_titles: SavedTitles::new(),
            folder: Text::new(),
            progress: Progress::none(),
            colors: Colors::none(),
            bells: 0,
            changes: Changes::none(),
        }
    }

    /// Another one that is the same.
    pub fn copy(&self) -> Asked
        ensures { result ≡ self.now }
    {
        Asked {
            modes: self.modes,
            shape: self.shape,
            other_keys: self.other_keys,
            main_flags: self.main_flags.copy(),
            alternate_flags: self.alternate_flags.copy(),
            titles: self.titles.copy(),
            saved_titles: self.saved_titles.copy(),
            folder: self.folder.copy(),
            progress: self.progress,
            colors: self.colors.copy(),
            bells: self.bells,
            changes: self.changes,
        }
    }

    /// Nothing is asked for any more, and all counts as set.
    pub fn restart(&mut self)
        ensures { self.new ≡ record nothing_asked { changes = all_changes } }
    {
        *self = Asked::new();
        self.changes = Changes::all();
    }

    /// The flags of keys, by kitty's protocol, of the screen that shows.
    pub fn key_flags(&self) -> u16
        ensures { result ≡ flags_in_force self.now }
    {
        if self.modes.alternate {
            self.alternate_flags.in_force()
        } else {
            self.main_flags.in_force()
        }
    }

    /// What was set since the last such call. It is forgotten.
    pub fn take_changes(&mut self) -> Changes
        ensures changes { result ≡ self.old.changes }
        ensures forgotten { self.new ≡ record self.old { changes = no_changes } }
    {
        let changes = self.changes;
        self.changes = Changes::none();
        changes
    }

    /// BEL
    #[tactic(auto, unfolding(crate::specs::Asked::rung))]
    fn ring(&mut self)
        ensures { self.new ≡ rung self.old }
    {
        self.bells = self.bells.saturating_add(1);
        self.changes.bells = true;
    }

    /// RIS
    fn reset(&mut self)
        ensures { self.new ≡ renewed self.old }
    {
        let scroll = self.modes.alternate_scroll;
        self.modes = Modes::none();
        self.modes.alternate_scroll = scroll;
        self.shape = Shape::Own;
        self.other_keys = 0;
        self.main_flags = KeyFlags::new();
        self.alternate_flags = KeyFlags::new();
        self.progress = Progress::none();
        self.colors.palette = Palette::none();
        self.changes.note_reset();
    }

    /// DECSTR
    fn soft_reset(&mut self)
        ensures { self.new ≡ softly_reset self.old }
    {
        self.modes.cursor_keys = false;
        self.modes.keypad = false;
        self.modes.blink = false;
        self.shape = Shape::Own;
        self.other_keys = 0;
        self.colors.palette = Palette::none();
        self.changes.note_soft_reset();
    }

    #[tactic(auto, unfolding(crate::specs::Asked::with_number))]
    fn set_number(&mut self, on: bool, number: u16)
        ensures { self.new ≡ with_number on number self.old }
    {
        if let Some(field) = Field::of(number) {
            self.modes.set(field, on);
            self.changes.note_field(field);
        }
    }

    fn set_each(&mut self, on: bool, numbers: &[u16])
        ensures { self.new ≡ with_numbers on (map (λ number. number ∷ []) numbers.now) self.old }
    {
        for number in numbers {
            self.set_number(on, *number);
        }
    }

    #[inline(never)]
    fn set_groups(&mut self, on: bool, params: &Params)
        ensures { self.new ≡ with_numbers on (groups_shown params.now) self.old }
    {
        for group in params {
            self.set_number(on, first_field(group));
        }
    }

    /// DECSET, DECRST
    fn set_numbers(&mut self, on: bool, params: &Params)
        ensures { self.new ≡ with_numbers on (groups_shown params.now) self.old }
    {
        match params.lone_fields() {
            Some((numbers, count)) => self.set_each(on, &numbers[..count]),
            None => self.set_groups(on, params),
        }
    }

    /// DECKPAM, DECKPNM
    fn set_keypad(&mut self, on: bool)
        ensures { self.new ≡ with_keypad on self.old }
    {
        self.modes.set_switch(Switch::Keypad, on);
        self.changes.note_switch(Switch::Keypad);
    }

    /// DECSCUSR
    fn set_shape(&mut self, shape: Option<(Shape, bool)>)
        ensures { self.new ≡ in_shape shape self.old }
    {
        if let Some((shape, blinks)) = shape {
            self.shape = shape;
            self.modes.blink = blinks;
            self.changes.cursor = true;
        }
    }

    /// XTMODKEYS
    #[tactic(auto, unfolding(crate::specs::Asked::with_other_keys))]
    fn modify_keys(&mut self, resource: u16, value: u16)
        ensures { self.new ≡ with_other_keys resource value self.old }
    {
        if resource == 4 {
            self.other_keys = other_keys(value);
            self.changes.keys = true;
        }
    }

    /// The flags of the screen that shows are others.
    #[tactic(auto, unfolding(crate::specs::Asked::with_stack))]
    fn set_flags(&mut self, how: u16, flags: u16)
        ensures { self.new ≡ with_stack (with_flags how flags) self.old }
    {
        if self.modes.alternate {
            self.alternate_flags.set(how, flags);
        } else {
            self.main_flags.set(how, flags);
        }
        self.changes.keys = true;
    }

    /// Others come on top of them.
    #[tactic(auto, unfolding(crate::specs::Asked::with_stack))]
    fn push_flags(&mut self, flags: u16)
        ensures { self.new ≡ with_stack (pushed_flags flags) self.old }
    {
        if self.modes.alternate {
            self.alternate_flags.push(flags);
        } else {
            self.main_flags.push(flags);
        }
        self.changes.keys = true;
    }

    /// So many leave.
    #[tactic(auto, unfolding(crate::specs::Asked::with_stack))]
    fn pop_flags(&mut self, count: u16)
        ensures { self.new ≡ with_stack (popped_flags count) self.old }
    {
        if self.modes.alternate {
            self.alternate_flags.pop(count);
        } else {
            self.main_flags.pop(count);
        }
        self.changes.keys = true;
    }

    /// The pair that was saved last leaves the stack, and what is meant of it comes back.
    fn restore_titles(&mut self, kind: u16)
        ensures { self.new ≡ titles_back kind self.old }
    {
        if let Some(titles) = self.saved_titles.take() {
            self.titles.choose(kind, &titles);
        }
        self.changes.note_titles(kind);
    }

    /// XTWINOPS 22 and 23
    #[tactic(auto, unfolding(crate::specs::Asked::stacked))]
    fn stack(&mut self, operation: u16, kind: u16)
        ensures { self.new ≡ stacked operation kind self.old }
    {
        match operation {
            22 => self.saved_titles.save(kind, &self.titles),
            23 => self.restore_titles(kind),
            _ => {}
        }
    }

    #[tactic(auto, unfolding(crate::specs::Asked::controlled))]
    fn control(&mut self, function: Function, params: &Params)
        ensures { self.new ≡ controlled function (groups_shown params.now) self.old }
    {
        match function {
            Function::SetModes => self.set_numbers(true, params),
            Function::ResetModes => self.set_numbers(false, params),
            Function::SoftReset => self.soft_reset(),
            Function::SetShape => self.set_shape(Shape::of(two_fields(params).0)),
            Function::ModifyOtherKeys => {
                let (resource, value) = two_fields(params);
                self.modify_keys(resource, value);
            }
            Function::DropOtherKeys => self.modify_keys(two_fields(params).0, 0),
            Function::SetFlags => {
                let (flags, how) = two_fields(params);
                self.set_flags(how, flags);
            }
            Function::PushFlags => self.push_flags(two_fields(params).0),
            Function::PopFlags => self.pop_flags(two_fields(params).0),
        }
    }

    /// A control sequence of which nothing was dropped.
    #[inline(never)]
    #[tactic(auto, unfolding(crate::specs::Asked::sequenced))]
    fn sequence(&mut self, params: &Params, intermediates: &[u8], final_byte: u8)
        ensures { self.new ≡ sequenced (groups_shown params.now) intermediates.now final_byte self.old }
    {
        match intermediates {
            [] => {
                if final_byte == b't' {
                    let (operation, kind) = two_fields(params);
                    self.stack(operation, kind);
                }
            }
            [mark] => {
                if let Some(function) = Function::of(*mark, final_byte) {
                    self.control(function, params);
                }
            }
            _ => {}
        }
    }

    /// An escape sequence without intermediates.
    #[tactic(auto, unfolding(crate::specs::Asked::escaped))]
    fn escape(&mut self, final_byte: u8)
        ensures { self.new ≡ escaped final_byte self.old }
    {
        match final_byte {
            b'=' => self.set_keypad(true),
            b'>' => self.set_keypad(false),
            b'c' => self.reset(),
            _ => {}
        }
    }

    /// OSC 0, 1 and 2
    fn set_titles(&mut self, kind: u16, parts: &[&[u8]])
        ensures { self.new ≡ titled kind (text_of (map (λ part. part.now) parts.now)) self.old }
    {
        self.titles.read(kind, parts);
        self.changes.note_titles(kind);
    }

    /// OSC 7
    fn set_folder(&mut self, parts: &[&[u8]])
        ensures { self.new ≡ in_folder (text_of (map (λ part. part.now) parts.now)) self.old }
    {
        self.folder.read(parts);
        self.changes.folder = true;
    }

    /// OSC 9; 4 is of the progress.
    fn notify(&mut self, parts: &[&[u8]])
        ensures { self.new ≡ notified (map (λ part. part.now) parts.now) self.old }
    {
        if let [kind, state, more @ ..] = parts {
            if number_of(kind) == Some(4) {
                if let Some(state) = ProgressState::by(number_of(state)) {
                    self.progress.set(state, number_in(more));
                    self.changes.progress = true;
                }
            }
        }
    }

    /// A command of colours by its number.
    #[tactic(auto, unfolding(crate::specs::Asked::colored))]
    fn color(&mut self, number: u16, parts: &[&[u8]])
        ensures { self.new ≡ colored number (map (λ part. part.now) parts.now) self.old }
    {
        match number {
            4 => {
                self.colors.palette.set_pairs(parts);
                self.changes.colors = true;
            }
            104 => {
                self.colors.palette.clear(parts);
                self.changes.colors = true;
            }
            10..=12 => {
                self.colors.set(number, parts);
                self.changes.colors = true;
            }
            110..=112 => {
                self.colors.reset(number);
                self.changes.colors = true;
            }
            _ => {}
        }
    }

    /// A command by its number.
    #[inline(never)]
    #[tactic(auto, unfolding(crate::specs::Asked::commanded_by))]
    fn command(&mut self, number: Option<u16>, parts: &[&[u8]])
        ensures { self.new ≡ commanded_by number (map (λ part. part.now) parts.now) self.old }
    {
        match number {
            Some(kind @ 0..=2) => self.set_titles(kind, parts),
            Some(7) => self.set_folder(parts),
            Some(9) => self.notify(parts),
            Some(number) => self.color(number, parts),
            None => {}
        }
    }
}

/// The number that the first part is.
fn number_in(parts: &[&[u8]]) -> Option<u16>
    ensures { result ≡ number_in (map (λ part. part.now) parts.now) }
{
    match parts {
        [part, ..] => number_of(part),
        [] => None,
    }
}

/// After each call it is what the definition says of the one before and the call.
impl Perform for Asked {
    ghost use Rattle.ansi_modes.specs.Asked.{asked_after};

    ghost means = { λ old call new. new ≡ asked_after call old };

    fn print(&mut self, _: char) {}

    #[inline(always)]
    fn execute(&mut self, byte: u8) {
        if byte == 0x07 {
            self.ring();
        }
    }

    fn hook(&mut self, _: &Params, _: &[u8], _: bool, _: u8) {}

    fn put(&mut self, _: u8) {}

    fn unhook(&mut self) {}

    fn osc_dispatch(&mut self, params: &[&[u8]], _: bool) {
        if let [number, parts @ ..] = params {
            self.command(number_of(number), parts);
        }
    }

    #[inline(always)]
    #[tactic(auto, using(crate::proofs::AskingLemmas::quiet_sequence))]
    fn csi_dispatch(&mut self, params: &Params, intermediates: &[u8], ignore: bool, action: u8) {
        if may_ask(intermediates, action) && !ignore {
            self.sequence(params, intermediates, action);
        }
    }

    #[inline(always)]
    fn esc_dispatch(&mut self, intermediates: &[u8], ignore: bool, byte: u8) {
        if !ignore && intermediates.is_empty() {
            self.escape(byte);
        }
    }
}

/// A text asks for nothing.
impl PerformText for Asked {
    ghost use Rattle.ansi_modes.specs.AskedProof.{Becomes, becomes-follows};

    ghost receives = { Becomes };

    #[inline(always)]
    fn print_text(&mut self, _: &str) {}

    #[inline(always)]
    fn print_with_layout(&mut self, _: &str) {}

    ghost follows = { becomes-follows };
}
