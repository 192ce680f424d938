//! Control sequences that are answered.
ghost use Rattle.std.specs.Prelude.{◌≡◌};
ghost use Rattle.anstyle_parse.specs.Views.Params.{groups_shown};
ghost use Rattle.ansi_modes.specs.Fields.{first_of};
ghost use Rattle.ansi_answers.specs.Sequences.{may_be_answered, row_told, plain_state, screen_state, field_state, private_state, plain_answer, marked_answer, answer_to_sequence, sequence_answer};

use crate::answer::{Answer, ModeState};
use crate::facts::Facts;
use ansi_modes::fields::two_fields;
use ansi_modes::{Asked, Field};
use anstyle_parse::Params;

/// Whether a control sequence with this final byte may be answered: so those that set a colour or move the cursor cost
/// no call.
#[inline(always)]
#[tactic(auto, unfolding(crate::specs::Sequences::may_be_answered))]
pub fn may_be_answered(final_byte: u8) -> bool
    ensures { result ≡ may_be_answered final_byte }
{
    matches!(final_byte, b'c' | b'n' | b'p' | b'q' | b't' | b'u')
}

/// The cursor's row, as a program counts it.
fn row_told(facts: &Facts) -> u16
    ensures { result ≡ row_told facts.now }
{
    if facts.is_relative {
        facts.row.saturating_sub(facts.top.saturating_sub(1))
    } else {
        facts.row
    }
}

/// What a mode of ECMA-48 is.
#[tactic(auto, unfolding(crate::specs::Sequences::plain_state))]
fn plain_state(number: u16, facts: &Facts) -> ModeState
    ensures { result ≡ plain_state number facts.now }
{
    match number {
        4 => ModeState::of(facts.inserts),
        20 => ModeState::NeverSet,
        _ => ModeState::Unknown,
    }
}

/// What a private mode of the screen is.
#[tactic(auto, unfolding(crate::specs::Sequences::screen_state))]
fn screen_state(number: u16, facts: &Facts) -> ModeState
    ensures { result ≡ screen_state number facts.now }
{
    match number {
        6 => ModeState::of(facts.is_relative),
        7 => ModeState::of(facts.wraps),
        25 => ModeState::of(facts.is_visible),
        _ => ModeState::Unknown,
    }
}

/// What a private mode is.
fn private_state(number: u16, facts: &Facts, asked: &Asked) -> ModeState
    ensures { result ≡ private_state number facts.now asked.now }
{
    match Field::of(number) {
        Some(Field::Declined) => ModeState::NeverSet,
        Some(field) => ModeState::of(asked.modes.has(field)),
        None => screen_state(number, facts),
    }
}

/// The answer to a control sequence without a mark or an intermediate.
#[tactic(auto, unfolding(crate::specs::Sequences::plain_answer))]
fn plain_answer(final_byte: u8, number: u16, facts: &Facts) -> Option<Answer>
    ensures { result ≡ plain_answer final_byte number facts.now }
{
    match (final_byte, number) {
        (b'n', 5) => Some(Answer::AllIsWell),
        (b'n', 6) => Some(Answer::CursorPosition {
            row: row_told(facts),
            column: facts.column,
        }),
        (b'c', 0) => Some(Answer::PrimaryAttributes),
        (b't', 18) => Some(Answer::Size {
            rows: facts.rows,
            columns: facts.columns,
        }),
        _ => None,
    }
}

/// The answer to a control sequence with one mark or intermediate.
#[tactic(auto, unfolding(crate::specs::Sequences::marked_answer))]
fn marked_answer(
    mark: u8,
    final_byte: u8,
    number: u16,
    facts: &Facts,
    asked: &Asked,
) -> Option<Answer>
    ensures { result ≡ marked_answer mark final_byte number facts.now asked.now }
{
    match (mark, final_byte, number) {
        (b'?', b'n', 6) => Some(Answer::ExtendedPosition {
            row: row_told(facts),
            column: facts.column,
        }),
        (b'?', b'u', _) => Some(Answer::KeyFlags(asked.key_flags())),
        (b'>', b'c', 0) => Some(Answer::SecondaryAttributes),
        (b'>', b'q', 0) => Some(Answer::Version),
        (b'=', b'c', 0) => Some(Answer::TertiaryAttributes),
        (b'$', b'p', _) => Some(Answer::Mode {
            number,
            state: plain_state(number, facts),
        }),
        _ => None,
    }
}

/// The answer to a control sequence of which nothing was dropped.
#[tactic(auto, unfolding(crate::specs::Sequences::sequence_answer))]
fn sequence_answer(
    intermediates: &[u8],
    final_byte: u8,
    number: u16,
    facts: &Facts,
    asked: &Asked,
) -> Option<Answer>
    ensures { result ≡ sequence_answer intermediates.now final_byte number facts.now asked.now }
{
    match intermediates {
        [] => plain_answer(final_byte, number, facts),
        [mark] => marked_answer(*mark, final_byte, number, facts, asked),
        [b'?', b'$'] if final_byte == b'p' => Some(Answer::PrivateMode {
            number,
            state: private_state(number, facts, asked),
        }),
        _ => None,
    }
}

/// The answer to a control sequence, by the screen and what is asked for as it comes: DSR 5 and 6, DA1 to DA3,
/// XTVERSION, DECRQM, `CSI 18 t` and kitty's `CSI ? u`. It takes what `csi_dispatch` of a performer gets.
pub fn answer_to_sequence(
    params: &Params,
    intermediates: &[u8],
    ignore: bool,
    action: u8,
    facts: &Facts,
    asked: &Asked,
) -> Option<Answer>
    ensures { result ≡ answer_to_sequence (groups_shown params.now) intermediates.now ignore action facts.now asked.now }
{
    if ignore {
        None
    } else {
        let (number, _) = two_fields(params);
        sequence_answer(intermediates, action, number, facts, asked)
    }
}
