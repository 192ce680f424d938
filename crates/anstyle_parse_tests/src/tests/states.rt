//! Cells of the table, counted and worked by hand from Williams' diagram: the clause of
//! `state_change` names the definition, and nothing else says that the definition is his table.
use anstyle_parse::state::{Action, State, state_change};

// Cells of the table, as the table gives them.
#[test]
fn answers_of_the_table(rt: HostRuntime) {
    let rows = [
        (State::Ground, 0x41, State::Anywhere, Action::Print),
        (State::Ground, 0x90, State::Anywhere, Action::Nop),
        (State::Ground, 0xC1, State::Anywhere, Action::Nop),
        (State::Ground, 0xC2, State::Utf8, Action::BeginUtf8),
        (State::Escape, 0x5B, State::CsiEntry, Action::Nop),
        (
            State::EscapeIntermediate,
            0x5B,
            State::Ground,
            Action::EscDispatch,
        ),
        (State::CsiParam, 0x3C, State::CsiIgnore, Action::Nop),
        (State::DcsEntry, 0x9C, State::Anywhere, Action::Nop),
        (State::DcsPassthrough, 0x9C, State::Ground, Action::Nop),
        (State::OscString, 0x9C, State::Anywhere, Action::OscPut),
        (State::OscString, 0x18, State::Ground, Action::Execute),
        (State::Utf8, 0x1B, State::Escape, Action::Nop),
        (State::Utf8, 0x41, State::Anywhere, Action::Nop),
        (State::Anywhere, 0x1A, State::Ground, Action::Execute),
        (State::Anywhere, 0x41, State::Anywhere, Action::Nop),
    ];
    for (state, byte, next, action) in rows {
        assert!(rt;
            state_change(state, byte) == (next, action),
            "{state:?} at {byte:02X}"
        );
    }
}

// The ends of the numbers, what is refused, and the defaults.
#[test]
fn numbers_and_defaults(rt: HostRuntime) {
    assert!(rt; State::try_from(0) == Ok(State::Anywhere));
    assert!(rt; State::try_from(15) == Ok(State::Utf8));
    assert!(rt; State::try_from(16) == Err(16));
    assert!(rt; State::Ground as u8 == 12);
    assert!(rt; Action::try_from(0) == Ok(Action::Nop));
    assert!(rt; Action::try_from(15) == Ok(Action::BeginUtf8));
    assert!(rt; Action::try_from(16) == Err(16));
    assert!(rt; Action::Unhook as u8 == 14);
    assert!(rt; State::default() == State::Ground);
    assert!(rt; Action::default() == Action::Nop);
}

// How many bytes change something in each state, as counted in Williams' table by hand: in each
// 18, 1A and 1B do.
#[test]
fn answered_bytes_of_each_state(rt: HostRuntime) {
    let rows = [
        (State::Anywhere, 3),
        (State::CsiEntry, 128),
        (State::CsiIgnore, 128),
        (State::CsiIntermediate, 128),
        (State::CsiParam, 128),
        (State::DcsEntry, 128),
        (State::DcsIgnore, 129),
        (State::DcsIntermediate, 128),
        (State::DcsParam, 128),
        (State::DcsPassthrough, 129),
        (State::Escape, 128),
        (State::EscapeIntermediate, 128),
        (State::Ground, 206),
        (State::OscString, 256),
        (State::SosPmApcString, 129),
        (State::Utf8, 3),
    ];
    for (state, wanted) in rows {
        let mut count = 0usize;
        for byte in 0..=0xFF {
            if state_change(state, byte) != (State::Anywhere, Action::Nop) {
                count = count.saturating_add(1);
            }
        }
        assert!(rt; count == wanted, "{state:?}: {count}");
    }
}
