//! What a cell says, how many bytes each row names, and all answers beside the table by ranges.
mod ranges;

use crate::state::{Action, State, state_change, table, unpack};
use ranges::by_ranges;

#[test]
fn what_cells_say(rt: HostRuntime) {
    assert!(rt; unpack(0x4C) == (State::Ground, Action::EscDispatch));
    assert!(rt; unpack(0xFF) == (State::Utf8, Action::BeginUtf8));
    assert!(rt; unpack(0x00) == (State::Anywhere, Action::Nop));
}

// As counted in the table by hand.
#[test]
fn cells_of_each_row(rt: HostRuntime) {
    let rows = [
        (State::Anywhere, 3),
        (State::CsiEntry, 125),
        (State::CsiIgnore, 125),
        (State::CsiIntermediate, 125),
        (State::CsiParam, 125),
        (State::DcsEntry, 125),
        (State::DcsIgnore, 126),
        (State::DcsIntermediate, 125),
        (State::DcsParam, 125),
        (State::DcsPassthrough, 126),
        (State::Escape, 125),
        (State::EscapeIntermediate, 125),
        (State::Ground, 203),
        (State::OscString, 253),
        (State::SosPmApcString, 126),
        (State::Utf8, 0),
    ];
    let mut all = 0usize;
    for (state, named) in rows {
        let mut count = 0usize;
        for cell in table::row(state) {
            count = count.saturating_add(usize::from(*cell != 0));
        }
        assert!(rt; count == named, "{state:?}: {count}");
        all = all.saturating_add(count);
    }
    assert!(rt; all == 1962);
}

#[test]
fn answers_by_ranges(rt: HostRuntime) -> Result<(), u8> {
    for number in 0..16 {
        let state = State::try_from(number)?;
        for byte in 0..=0xFF {
            assert!(rt;
                state_change(state, byte) == by_ranges(state, byte),
                "{state:?} at {byte:02X}"
            );
        }
    }
    Ok(())
}
