//! What a program that asks a terminal is answered, by xterm's page.
use super::{assert_same, feed, reset};
use screen_pieces::{RgbBytes, Terminal, ThemeBytes};
use std::alloc::{AllocError, Global};
use std::process::Abort;
use std::test::Fail;

fn shown(alloc: Global, stream: &[u8]) -> Result<Terminal, AllocError> {
    let mut terminal = Terminal::new(alloc, 4, 3)?;
    feed(&mut terminal, stream);
    Ok(terminal)
}

/// The answers, in six bytes of room.
fn assert_answers(
    rt: &impl Abort,
    terminal: &mut Terminal,
    wanted: Result<(usize, bool), usize>,
    bytes: [u8; 6],
) {
    let mut room = [0; 6];
    let answer = terminal.answers(&mut room);
    assert_same(rt, &answer, &wanted);
    assert_same(rt, &room, &bytes);
}

/// A blue background.
fn blue() -> ThemeBytes {
    let none = RgbBytes {
        is_told: 0,
        red: 0,
        green: 0,
        blue: 0,
    };
    let blue = RgbBytes {
        is_told: 1,
        red: 0,
        green: 0,
        blue: 255,
    };
    ThemeBytes {
        foreground: none,
        background: blue,
        cursor: none,
        palette: [none; 256],
    }
}

/// The answers, in 24 bytes of room.
fn assert_blue(rt: &impl Abort, terminal: &mut Terminal) {
    let mut room = [0; 24];
    let answer = terminal.answers(&mut room);
    assert_same(rt, &answer, &Ok((24, false)));
    assert_same(rt, &room, b"\x1B]11;rgb:0000/0000/ffff\x07");
}

// They are told once; where the room is too small they wait on.
#[test]
fn answers(rt: HostRuntime) -> Result<(), Fail> {
    let mut terminal = shown(rt.alloc(), b"\x1B[2;3H\x1B[6")?;
    assert_answers(&rt, &mut terminal, Ok((0, false)), [0; 6]);
    feed(&mut terminal, b"n");
    assert_answers(&rt, &mut terminal, Ok((6, false)), *b"\x1B[2;3R");
    feed(&mut terminal, b"\x1B[5n\x1B[6n");
    assert_same(&rt, &terminal.answers(&mut []), &Err(10));
    reset(&mut terminal);
    assert_answers(&rt, &mut terminal, Ok((0, false)), [0; 6]);
    drop(terminal);
    Ok(())
}

// A reset leaves the terminal's own colours.
#[test]
fn own_colors(rt: HostRuntime) -> Result<(), Fail> {
    let mut terminal = shown(rt.alloc(), b"\x1B]11;?\x07")?;
    terminal.tell_theme(blue().theme());
    assert_answers(&rt, &mut terminal, Ok((0, false)), [0; 6]);
    reset(&mut terminal);
    feed(&mut terminal, b"\x1B]10;?\x07\x1B]11;?\x07");
    assert_blue(&rt, &mut terminal);
    drop(terminal);
    Ok(())
}
