//! Modes by their numbers.
ghost use Rattle.std.specs.Prelude.{◌≡◌};
ghost use Rattle.ansi_modes.specs.Modes.{field_of, with_switch, has_switch, is_encoding, is_tracking, with_field, has_field, no_modes};

/// What is on or off, each by itself.
#[derive(Debug, Clone, Copy, PartialEq, Eq)]
pub enum Switch {
    /// DECCKM: the cursor keys are those of an application.
    CursorKeys,
    /// DECNKM: so is the keypad.
    Keypad,
    /// DECBKM: Backspace is BS, and not DEL.
    Backspace,
    /// DECSCNM: light and dark change places on the whole screen.
    Reverse,
    /// The cursor blinks.
    Blink,
    /// The terminal tells when it has the focus and when not.
    Focus,
    /// The wheel is told as cursor keys, on the alternate screen.
    AlternateScroll,
    /// The alternate screen shows.
    Alternate,
    /// What is pasted comes in brackets.
    Paste,
    /// What is shown changes only where the mode is reset.
    Synchronized,
}

/// Which events of the mouse are told.
#[derive(Debug, Clone, Copy, PartialEq, Eq)]
pub enum Tracking {
    /// 9: presses of buttons.
    Presses,
    /// 1000: presses and releases.
    Buttons,
    /// 1002: motion too, while a button is down.
    Drags,
    /// 1003: all motion.
    Motion,
}

/// How they are written.
#[derive(Debug, Clone, Copy, PartialEq, Eq)]
pub enum Encoding {
    /// 1006
    Sgr,
    /// 1015
    Urxvt,
    /// 1016
    Pixels,
}

/// What a mode says.
#[derive(Debug, Clone, Copy, PartialEq, Eq)]
pub enum Field {
    Switches(Switch),
    Tracks(Tracking),
    Encodes(Encoding),
    /// It is known, and never set.
    Declined,
}

/// The modes that are set.
#[derive(Debug, Clone, Copy, PartialEq, Eq)]
pub struct Modes {
    pub cursor_keys: bool,
    pub keypad: bool,
    pub backspace: bool,
    pub reverse: bool,
    pub blink: bool,
    pub focus: bool,
    pub alternate_scroll: bool,
    pub alternate: bool,
    pub paste: bool,
    pub synchronized: bool,
    pub tracking: Option<Tracking>,
    pub encoding: Option<Encoding>,
}

impl Field {
    /// What a number of a private mode stands for.
    #[tactic(auto, unfolding(crate::specs::Modes::field_of))]
    pub fn of(number: u16) -> Option<Field>
        ensures { result ≡ field_of number }
    {
        match number {
            1 => Some(Field::Switches(Switch::CursorKeys)),
            5 => Some(Field::Switches(Switch::Reverse)),
            12 => Some(Field::Switches(Switch::Blink)),
            66 => Some(Field::Switches(Switch::Keypad)),
            67 => Some(Field::Switches(Switch::Backspace)),
            1004 => Some(Field::Switches(Switch::Focus)),
            1007 => Some(Field::Switches(Switch::AlternateScroll)),
            1049 => Some(Field::Switches(Switch::Alternate)),
            2004 => Some(Field::Switches(Switch::Paste)),
            2026 => Some(Field::Switches(Switch::Synchronized)),
            9 => Some(Field::Tracks(Tracking::Presses)),
            1000 => Some(Field::Tracks(Tracking::Buttons)),
            1002 => Some(Field::Tracks(Tracking::Drags)),
            1003 => Some(Field::Tracks(Tracking::Motion)),
            1005 => Some(Field::Declined),
            1006 => Some(Field::Encodes(Encoding::Sgr)),
            1015 => Some(Field::Encodes(Encoding::Urxvt)),
            1016 => Some(Field::Encodes(Encoding::Pixels)),
            _ => None,
        }
    }
}

/// Whether this is the encoding in force.
#[tactic(auto, unfolding(crate::specs::Modes::is_encoding))]
fn is_encoding(encoding: Encoding, other: Option<Encoding>) -> bool
    ensures { result ≡ is_encoding encoding other }
{
    match (encoding, other) {
        (Encoding::Sgr, Some(Encoding::Sgr)) => true,
        (Encoding::Urxvt, Some(Encoding::Urxvt)) => true,
        (Encoding::Pixels, Some(Encoding::Pixels)) => true,
        _ => false,
    }
}

/// Whether these are the events that are told.
#[tactic(auto, unfolding(crate::specs::Modes::is_tracking))]
fn is_tracking(tracking: Tracking, other: Option<Tracking>) -> bool
    ensures { result ≡ is_tracking tracking other }
{
    match (tracking, other) {
        (Tracking::Presses, Some(Tracking::Presses)) => true,
        (Tracking::Buttons, Some(Tracking::Buttons)) => true,
        (Tracking::Drags, Some(Tracking::Drags)) => true,
        (Tracking::Motion, Some(Tracking::Motion)) => true,
        _ => false,
    }
}

impl Modes {
    /// None is set.
    pub fn none() -> Modes
        ensures { result ≡ no_modes }
    {
        Modes {
            cursor_keys: false,
            keypad: false,
            backspace: false,
            reverse: false,
            blink: false,
            focus: false,
            alternate_scroll: false,
            alternate: false,
            paste: false,
            synchronized: false,
            tracking: None,
            encoding: None,
        }
    }

    #[tactic(auto, unfolding(crate::specs::Modes::with_switch))]
    pub(crate) fn set_switch(&mut self, switch: Switch, on: bool)
        ensures { self.new ≡ with_switch switch on self.old }
    {
        match switch {
            Switch::CursorKeys => self.cursor_keys = on,
            Switch::Keypad => self.keypad = on,
            Switch::Backspace => self.backspace = on,
            Switch::Reverse => self.reverse = on,
            Switch::Blink => self.blink = on,
            Switch::Focus => self.focus = on,
            Switch::AlternateScroll => self.alternate_scroll = on,
            Switch::Alternate => self.alternate = on,
            Switch::Paste => self.paste = on,
            Switch::Synchronized => self.synchronized = on,
        }
    }

    #[tactic(auto, unfolding(crate::specs::Modes::with_field))]
    pub(crate) fn set(&mut self, field: Field, on: bool)
        ensures { self.new ≡ with_field field on self.old }
    {
        match field {
            Field::Switches(switch) => self.set_switch(switch, on),
            Field::Tracks(tracking) => self.tracking = if on { Some(tracking) } else { None },
            Field::Encodes(encoding) => {
                if on {
                    self.encoding = Some(encoding);
                } else if is_encoding(encoding, self.encoding) {
                    self.encoding = None;
                }
            }
            Field::Declined => {}
        }
    }

    #[tactic(auto, unfolding(crate::specs::Modes::has_switch))]
    fn has_switch(&self, switch: Switch) -> bool
        ensures { result ≡ has_switch switch self.now }
    {
        match switch {
            Switch::CursorKeys => self.cursor_keys,
            Switch::Keypad => self.keypad,
            Switch::Backspace => self.backspace,
            Switch::Reverse => self.reverse,
            Switch::Blink => self.blink,
            Switch::Focus => self.focus,
            Switch::AlternateScroll => self.alternate_scroll,
            Switch::Alternate => self.alternate,
            Switch::Paste => self.paste,
            Switch::Synchronized => self.synchronized,
        }
    }

    /// Whether it is set.
    #[tactic(auto, unfolding(crate::specs::Modes::has_field))]
    pub fn has(&self, field: Field) -> bool
        ensures { result ≡ has_field field self.now }
    {
        match field {
            Field::Switches(switch) => self.has_switch(switch),
            Field::Tracks(tracking) => is_tracking(tracking, self.tracking),
            Field::Encodes(encoding) => is_encoding(encoding, self.encoding),
            Field::Declined => false,
        }
    }
}
