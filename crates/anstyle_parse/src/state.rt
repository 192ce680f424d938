//! The states and actions of the parser, and its transition table.
mod definitions;
mod table;
#[cfg(test)]
mod tests;

ghost use Rattle.std.specs.Prelude.{◌≡◌, ◌<◌};
ghost use Rattle.anstyle_parse.specs.Machine.State.{state_number, action_number};
ghost use Rattle.anstyle_parse.specs.Machine.Table.{change_at};
ghost use Rattle.anstyle_parse.specs.Machine.Packed.{packed};

pub use definitions::{Action, State};

/// What the parser does with a byte in a state: the new state and the action.
///
/// The table is Paul Williams' (vt100.net/emu/dec_ansi_parser), with the differences that
/// `docs/DIFFERENCES.md` names. It answers for all sixteen states and every byte; 18, 1A
/// and 1B lead to the same answer from each. The new state `Anywhere` means: keep the
/// state. A byte that the table does not name gives `(Anywhere, Nop)`.
#[inline(always)]
pub fn state_change(state: State, byte: u8) -> (State, Action)
    ensures state { result.0 ≡ (change_at state byte).state }
    ensures action { result.1 ≡ (change_at state byte).action }
{
    let anywhere = table::row(State::Anywhere)[byte as usize];
    let cell = if anywhere == NO_CHANGE {
        table::row(state)[byte as usize]
    } else {
        anywhere
    };
    unpack(cell)
}

/// The cell of a byte that a row does not name.
const NO_CHANGE: u8 = 0x00;

/// The new state and the action of a cell.
#[inline(always)]
fn unpack(cell: u8) -> (State, Action)
    ensures { cell ≡ packed result.0 result.1 }
{
    (state_of(cell & 0x0F), action_of(cell >> 4))
}

/// The state of this number.
#[inline(always)]
fn state_of(number: u8) -> State
    requires { number < 16 }
    ensures { state_number result ≡ number }
{
    match number {
        0 => State::Anywhere,
        1 => State::CsiEntry,
        2 => State::CsiIgnore,
        3 => State::CsiIntermediate,
        4 => State::CsiParam,
        5 => State::DcsEntry,
        6 => State::DcsIgnore,
        7 => State::DcsIntermediate,
        8 => State::DcsParam,
        9 => State::DcsPassthrough,
        10 => State::Escape,
        11 => State::EscapeIntermediate,
        12 => State::Ground,
        13 => State::OscString,
        14 => State::SosPmApcString,
        _ => State::Utf8,
    }
}

/// The action of this number.
#[inline(always)]
fn action_of(number: u8) -> Action
    requires { number < 16 }
    ensures { action_number result ≡ number }
{
    match number {
        0 => Action::Nop,
        1 => Action::Clear,
        2 => Action::Collect,
        3 => Action::CsiDispatch,
        4 => Action::EscDispatch,
        5 => Action::Execute,
        6 => Action::Hook,
        7 => Action::Ignore,
        8 => Action::OscEnd,
        9 => Action::OscPut,
        10 => Action::OscStart,
        11 => Action::Param,
        12 => Action::Print,
        13 => Action::Put,
        14 => Action::Unhook,
        _ => Action::BeginUtf8,
    }
}
