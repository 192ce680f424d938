//! Text without the carriage returns before line feeds, in pieces.
use super::assert_bytes;
use super::in_pieces::assert_text;
use std::process::Abort;
use std::test::Fail;
use stream_state::Fed;
use strip_pieces::laws::{line_states, lines_joined};
use strip_pieces::{LEAST_LINE_ROOM, LINE_END_ROOM, LineState};

/// The bytes of a text one by one, and then its end, in the least room.
#[test]
fn byte_by_byte(rt: HostRuntime) -> Result<(), Fail> {
    let mut state = LineState::new();
    let mut room = [0; LEAST_LINE_ROOM];
    let stream = b"a\r\nb\rc\r\r\n\n\r\xC3\xA9\r\n\r";
    let wanted = b"a\nb\rc\r\n\n\r\xC3\xA9\n\r";
    Ok(assert_text(&rt, &mut state, &mut room, stream, wanted)?)
}

#[test]
fn names_of_lines(rt: HostRuntime) {
    let mut state = LineState { waits: 1 };
    let mut room = [7; 4];
    assert!(rt; state.feed(b"a", &mut room[..LEAST_LINE_ROOM - 1]) == None);
    assert!(rt; state.end(&mut room[..LINE_END_ROOM - 1]) == None);
    let fed = state.feed(b"abcde", &mut room);
    assert!(rt;
        fed == Some(Fed {
            taken: 3,
            written: 4
        })
    );
    assert_bytes(&rt, room.as_slice(), b"\rabc");
    assert!(rt; state.end(&mut room) == Some(0));
    lines_joined();
    line_states();
}
