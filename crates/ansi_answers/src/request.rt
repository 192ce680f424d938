//! DECRQSS: a setting is asked for by a device control string.
ghost use Rattle.std.specs.Prelude.{◌≡◌};
ghost use Rattle.ansi_answers.specs.Settings.{asks_setting, hooked, with_byte, shape_number, setting_answer};

use crate::answer::Answer;
use crate::facts::Facts;
use ansi_modes::{Asked, Shape};

/// Which setting the string that is open asks for, as far as it has come. No byte of it is kept.
#[derive(Debug, Clone, Copy, PartialEq, Eq)]
pub enum Request {
    /// None: no string is open, or it asks for no setting.
    Nothing,
    /// It asks, and no byte has come.
    Begun,
    /// `m`: SGR.
    Rendition,
    /// `r`: DECSTBM.
    Margins,
    /// A space.
    Space,
    /// A space and `q`: DECSCUSR.
    Shape,
    /// A setting that is not known.
    Other,
}

/// Whether a string with these intermediates asks for a setting, if it ends with q.
#[tactic(auto, unfolding(crate::specs::Settings::asks_setting))]
fn asks_setting(intermediates: &[u8]) -> bool
    ensures { result ≡ asks_setting intermediates.now }
{
    match intermediates {
        [mark] => *mark == b'$',
        _ => false,
    }
}

/// The number of a shape.
fn shape_number(shape: Shape, blinks: bool) -> u16
    ensures { result ≡ shape_number shape blinks }
{
    let steady = match shape {
        Shape::Own | Shape::Block => 2,
        Shape::Underline => 4,
        Shape::Bar => 6,
    };
    if blinks { steady - 1 } else { steady }
}

impl Request {
    /// A string begins: it takes what `hook` of a performer gets.
    pub fn hooked(intermediates: &[u8], ignore: bool, action: u8) -> Request
        ensures { result ≡ hooked intermediates.now ignore action }
    {
        if !ignore && asks_setting(intermediates) && action == b'q' {
            Request::Begun
        } else {
            Request::Nothing
        }
    }

    /// A byte of it comes (`put`).
    #[tactic(auto, unfolding(crate::specs::Settings::with_byte))]
    pub fn with_byte(self, byte: u8) -> Request
        ensures { result ≡ with_byte byte self }
    {
        match (self, byte) {
            (Request::Nothing, _) => Request::Nothing,
            (Request::Begun, b'm') => Request::Rendition,
            (Request::Begun, b'r') => Request::Margins,
            (Request::Begun, b' ') => Request::Space,
            (Request::Space, b'q') => Request::Shape,
            _ => Request::Other,
        }
    }

    /// The answer at its end (`unhook`).
    pub fn answer(self, facts: &Facts, asked: &Asked) -> Option<Answer>
        ensures { result ≡ setting_answer self facts.now asked.now }
    {
        match self {
            Request::Nothing => None,
            Request::Rendition => Some(Answer::Rendition(facts.style)),
            Request::Margins => Some(Answer::Margins {
                top: facts.top,
                bottom: facts.bottom,
            }),
            Request::Shape => Some(Answer::CursorShape(shape_number(
                asked.shape,
                asked.modes.blink,
            ))),
            Request::Begun | Request::Space | Request::Other => Some(Answer::NoSetting),
        }
    }
}
