//! What a stream asked of a terminal beside its screen, and what a program reads by it: by xterm's page.
use super::{Put, assert_same, fed, reset};
use screen_pieces::laws::telling_stays;
use screen_pieces::{KeyBytes, MouseBytes, Terminal};
use std::alloc::{AllocError, AllocGlobal, Global};
use std::process::Abort;
use std::test::Fail;

fn shown(alloc: Global, stream: &[u8]) -> Result<Terminal, AllocError> {
    Ok(fed(Terminal::new(alloc, 4, 3)?, stream))
}

/// The title, in four bytes of room.
fn title(terminal: &Terminal) -> Put<4> {
    let mut room = [0; 4];
    let answer = terminal.title(&mut room);
    (answer, room)
}

/// The cursor key up with Control, in seven bytes of room.
fn up(terminal: &Terminal) -> Put<7> {
    let key = KeyBytes {
        character: 0,
        shifted: 0,
        key: 11,
        modifiers: 4,
        event: 1,
        reserved: 0,
    };
    let mut room = [0; 7];
    let answer = terminal.key(key, &mut room);
    (answer, room)
}

/// The right button at the last column and row of a byte, in six bytes of room.
fn right(terminal: &Terminal) -> Put<6> {
    let mouse = MouseBytes {
        column: 222,
        row: 222,
        x: 0,
        y: 0,
        action: 1,
        button: 3,
        modifiers: 0,
        reserved: 0,
    };
    let mut room = [0; 6];
    let answer = terminal.mouse(mouse, &mut room);
    (answer, room)
}

/// A paste, in thirteen bytes of room.
fn paste(terminal: &Terminal) -> Put<13> {
    let mut room = [0; 13];
    let answer = terminal.paste("\x1Ba", &mut room);
    (answer, room)
}

/// That the focus is gone, in three bytes of room.
fn focus(terminal: &Terminal) -> Put<3> {
    let mut room = [0; 3];
    let answer = terminal.focus(false, &mut room);
    (answer, room)
}

fn assert_asked(rt: &impl Abort, terminal: &mut Terminal, wanted: u16) {
    assert_same(rt, &terminal.take_asked(), &wanted);
}

fn assert_title(rt: &impl Abort, terminal: &Terminal, wanted: Put<4>) {
    assert_same(rt, &title(terminal), &wanted);
}

fn assert_nothing(rt: &impl Abort, terminal: &Terminal) {
    assert_same(rt, &right(terminal), &(Ok(0), [0; 6]));
    assert_same(rt, &focus(terminal), &(Ok(0), [0; 3]));
}

fn assert_read(rt: &impl Abort, terminal: &Terminal) {
    assert_same(rt, &up(terminal), &(Ok(6), *b"\x1B[1;5A\0"));
    assert_same(rt, &right(terminal), &(Ok(6), *b"\x1B[M\x22\xFF\xFF"));
    assert_same(rt, &paste(terminal), &(Ok(13), *b"\x1B[200~a\x1B[201~"));
    assert_same(rt, &focus(terminal), &(Ok(3), *b"\x1B[O"));
}

// DECCKM does not count where Control is held.
#[test]
fn asked(rt: HostRuntime) -> Result<(), Fail> {
    telling_stays();
    let mut terminal = shown(rt.alloc(), b"\x1B]2;ab\x07\x1B[?10")?;
    assert_asked(&rt, &mut terminal, 128);
    assert_nothing(&rt, &terminal);
    let mut terminal = fed(terminal, b"00;1004;2004;1h\x1B]0;\xE4\xB8\xADx\x07");
    assert_title(&rt, &terminal, (Ok(4), *b"\xE4\xB8\xADx"));
    assert_read(&rt, &terminal);
    assert_asked(&rt, &mut terminal, 399);
    assert_asked(&rt, &mut terminal, 0);
    reset(&mut terminal);
    assert_title(&rt, &terminal, (Ok(0), [0; 4]));
    assert_nothing(&rt, &terminal);
    assert_asked(&rt, &mut terminal, 8191);
    drop(terminal);
    Ok(())
}
