//! The states and the actions, by their numbers.

/// A state of the parser (Paul Williams, vt100.net/emu/dec_ansi_parser), and two that
/// his machine does not have: `Anywhere`, which as an answer means "keep the state", and
/// `Utf8`, inside a character of several bytes.
#[derive(Debug, Clone, Copy, PartialEq, Eq, Default)]
#[repr(u8)]
pub enum State {
    Anywhere,
    CsiEntry,
    CsiIgnore,
    CsiIntermediate,
    CsiParam,
    DcsEntry,
    DcsIgnore,
    DcsIntermediate,
    DcsParam,
    DcsPassthrough,
    Escape,
    EscapeIntermediate,
    #[default]
    Ground,
    OscString,
    SosPmApcString,
    Utf8,
}

impl TryFrom<u8> for State {
    type Error = u8;

    ghost use Rattle.anstyle_parse.specs.Machine.State.{HasNumber, state_number};

    ghost try_from_gives = { HasNumber state_number };

    /// The state of this number. 16 and more are refused, with the number.
    #[inline]
    fn try_from(raw: u8) -> Result<State, u8> {
        match raw {
            0 => Ok(State::Anywhere),
            1 => Ok(State::CsiEntry),
            2 => Ok(State::CsiIgnore),
            3 => Ok(State::CsiIntermediate),
            4 => Ok(State::CsiParam),
            5 => Ok(State::DcsEntry),
            6 => Ok(State::DcsIgnore),
            7 => Ok(State::DcsIntermediate),
            8 => Ok(State::DcsParam),
            9 => Ok(State::DcsPassthrough),
            10 => Ok(State::Escape),
            11 => Ok(State::EscapeIntermediate),
            12 => Ok(State::Ground),
            13 => Ok(State::OscString),
            14 => Ok(State::SosPmApcString),
            15 => Ok(State::Utf8),
            _ => Err(raw),
        }
    }
}

/// What the parser does with a byte.
#[derive(Debug, Clone, Copy, PartialEq, Eq, Default)]
#[repr(u8)]
pub enum Action {
    #[default]
    Nop,
    Clear,
    Collect,
    CsiDispatch,
    EscDispatch,
    Execute,
    Hook,
    Ignore,
    OscEnd,
    OscPut,
    OscStart,
    Param,
    Print,
    Put,
    Unhook,
    BeginUtf8,
}

impl TryFrom<u8> for Action {
    type Error = u8;

    ghost use Rattle.anstyle_parse.specs.Machine.State.{HasNumber, action_number};

    ghost try_from_gives = { HasNumber action_number };

    /// The action of this number. 16 and more are refused, with the number.
    #[inline]
    fn try_from(raw: u8) -> Result<Action, u8> {
        match raw {
            0 => Ok(Action::Nop),
            1 => Ok(Action::Clear),
            2 => Ok(Action::Collect),
            3 => Ok(Action::CsiDispatch),
            4 => Ok(Action::EscDispatch),
            5 => Ok(Action::Execute),
            6 => Ok(Action::Hook),
            7 => Ok(Action::Ignore),
            8 => Ok(Action::OscEnd),
            9 => Ok(Action::OscPut),
            10 => Ok(Action::OscStart),
            11 => Ok(Action::Param),
            12 => Ok(Action::Print),
            13 => Ok(Action::Put),
            14 => Ok(Action::Unhook),
            15 => Ok(Action::BeginUtf8),
            _ => Err(raw),
        }
    }
}
