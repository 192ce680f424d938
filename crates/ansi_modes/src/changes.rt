//! What was set since it was last asked.
ghost use Rattle.std.specs.Prelude.{◌≡◌, ◌≤◌};
ghost use Rattle.ansi_modes.specs.Changes.{no_changes, all_changes, bit, bits_of, noted_switch, noted_field, noted_titles, noted_soft_reset, noted_reset};

use crate::modes::{Field, Switch};

/// What was set since it was last asked; what was set to what it was is told too.
#[derive(Debug, Clone, Copy, PartialEq, Eq)]
pub struct Changes {
    /// DECCKM, DECNKM, DECBKM, modifyOtherKeys, the flags of keys, or the screen that these are of.
    pub keys: bool,
    /// Which events of the mouse are told, and how; what the wheel does.
    pub mouse: bool,
    pub focus: bool,
    pub paste: bool,
    pub synchronized: bool,
    pub reverse: bool,
    /// The cursor's shape, and whether it blinks.
    pub cursor: bool,
    /// The window's title.
    pub window: bool,
    /// The icon's title.
    pub icon: bool,
    pub folder: bool,
    pub progress: bool,
    pub bells: bool,
    pub colors: bool,
}

/// A bit of a word.
fn bit(is_set: bool, value: u16) -> u16
    ensures value { result ≡ bit is_set value }
    ensures bound { result ≤ value }
{
    if is_set { value } else { 0 }
}

impl Changes {
    /// Nothing was.
    pub(crate) fn none() -> Changes
        ensures { result ≡ no_changes }
    {
        Changes {
            keys: false,
            mouse: false,
            focus: false,
            paste: false,
            synchronized: false,
            reverse: false,
            cursor: false,
            window: false,
            icon: false,
            folder: false,
            progress: false,
            bells: false,
            colors: false,
        }
    }

    /// All was.
    pub(crate) fn all() -> Changes
        ensures { result ≡ all_changes }
    {
        Changes {
            keys: true,
            mouse: true,
            focus: true,
            paste: true,
            synchronized: true,
            reverse: true,
            cursor: true,
            window: true,
            icon: true,
            folder: true,
            progress: true,
            bells: true,
            colors: true,
        }
    }

    /// The same as a word of bits: that of the first field is 1, that of the second 2, and so on.
    pub fn bits(&self) -> u16
        ensures { result ≡ bits_of self.now }
    {
        bit(self.keys, 1)
            + bit(self.mouse, 2)
            + bit(self.focus, 4)
            + bit(self.paste, 8)
            + bit(self.synchronized, 16)
            + bit(self.reverse, 32)
            + bit(self.cursor, 64)
            + bit(self.window, 128)
            + bit(self.icon, 256)
            + bit(self.folder, 512)
            + bit(self.progress, 1024)
            + bit(self.bells, 2048)
            + bit(self.colors, 4096)
    }

    #[tactic(auto, unfolding(crate::specs::Changes::noted_switch))]
    pub(crate) fn note_switch(&mut self, switch: Switch)
        ensures { self.new ≡ noted_switch switch self.old }
    {
        match switch {
            Switch::CursorKeys | Switch::Keypad | Switch::Backspace | Switch::Alternate => {
                self.keys = true
            }
            Switch::Reverse => self.reverse = true,
            Switch::Blink => self.cursor = true,
            Switch::Focus => self.focus = true,
            Switch::AlternateScroll => self.mouse = true,
            Switch::Paste => self.paste = true,
            Switch::Synchronized => self.synchronized = true,
        }
    }

    #[tactic(auto, unfolding(crate::specs::Changes::noted_field))]
    pub(crate) fn note_field(&mut self, field: Field)
        ensures { self.new ≡ noted_field field self.old }
    {
        match field {
            Field::Switches(switch) => self.note_switch(switch),
            Field::Tracks(_) | Field::Encodes(_) => self.mouse = true,
            Field::Declined => {}
        }
    }

    #[tactic(auto, unfolding(crate::specs::Changes::noted_titles))]
    pub(crate) fn note_titles(&mut self, kind: u16)
        ensures { self.new ≡ noted_titles kind self.old }
    {
        if kind == 0 || kind == 2 {
            self.window = true;
        }
        if kind == 0 || kind == 1 {
            self.icon = true;
        }
    }

    /// DECSTR
    pub(crate) fn note_soft_reset(&mut self)
        ensures { self.new ≡ noted_soft_reset self.old }
    {
        self.keys = true;
        self.cursor = true;
        self.colors = true;
    }

    /// RIS
    pub(crate) fn note_reset(&mut self)
        ensures { self.new ≡ noted_reset self.old }
    {
        self.note_soft_reset();
        self.mouse = true;
        self.focus = true;
        self.paste = true;
        self.synchronized = true;
        self.reverse = true;
        self.progress = true;
    }
}
