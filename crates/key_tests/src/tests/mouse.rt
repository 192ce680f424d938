//! The mouse: the rows of libvterm's t/17state_mouse.test, of kitty's own tests of keys, and of xterm's page.
use super::{alt, assert_bytes, bytes_of, control, memory, none, shift};
use std::alloc::AllocGlobal;
use std::process::Abort;
use terminal_keys::{
    Action, Button, Encoding, KeyModes, Modifiers, Mouse, MouseText, Tracking, Wheel,
};

fn assert_reads(rt: &(impl Abort + AllocGlobal), text: MouseText, wanted: &[u8]) {
    let mut output = memory(rt.alloc());
    text.write(&mut output);
    let written = bytes_of(rt, output);
    assert_bytes(rt, written.as_slice(), wanted);
    drop(written);
}

/// At the column 20 and the row 10, or another place.
fn at(action: Action, modifiers: Modifiers, column: u16, row: u16) -> Mouse {
    Mouse {
        action,
        modifiers,
        column,
        row,
        x: 640,
        y: 480,
    }
}

fn here(action: Action) -> Mouse {
    at(action, none(), 20, 10)
}

fn asked(tracking: Tracking, encoding: Option<Encoding>) -> KeyModes {
    KeyModes {
        tracking: Some(tracking),
        encoding,
        ..KeyModes::none()
    }
}

type Row = (Mouse, &'static [u8]);

fn assert_rows(rt: &(impl Abort + AllocGlobal), modes: KeyModes, rows: &[Row]) {
    for (mouse, wanted) in rows {
        assert_reads(rt, mouse.text(modes), wanted);
    }
}

const PRESSED: Action = Action::Press(Button::Left);

const RELEASED: Action = Action::Release(Button::Left);

const UP: Action = Action::Turn(Wheel::Up);

const DRAGGED: Action = Action::Move(Some(Button::Left));

const MOVED: Action = Action::Move(None);

/// 9 tells presses of three buttons, without modifiers.
#[test]
fn x10(rt: HostRuntime) {
    let rows: [Row; 6] = [
        (here(PRESSED), b"\x1B[M\x20\x35\x2B"),
        (
            at(Action::Press(Button::Right), control(), 0, 0),
            b"\x1B[M\x22\x21\x21",
        ),
        (here(RELEASED), b""),
        (here(UP), b""),
        (here(DRAGGED), b""),
        (here(Action::Press(Button::Back)), b""),
    ];
    assert_rows(&rt, asked(Tracking::Presses, None), &rows);
    assert_rows(&rt, KeyModes::none(), &[(here(PRESSED), b"")]);
}

/// 1000
#[test]
fn buttons(rt: HostRuntime) {
    let rows: [Row; 9] = [
        (at(PRESSED, none(), 0, 0), b"\x1B[M\x20\x21\x21"),
        (at(RELEASED, none(), 0, 0), b"\x1B[M\x23\x21\x21"),
        (at(PRESSED, control(), 0, 0), b"\x1B[M\x30\x21\x21"),
        (at(RELEASED, control(), 0, 0), b"\x1B[M\x33\x21\x21"),
        (at(UP, none(), 21, 10), b"\x1B[M\x60\x36\x2B"),
        (
            at(Action::Turn(Wheel::Down), none(), 21, 10),
            b"\x1B[M\x61\x36\x2B",
        ),
        (at(PRESSED, none(), 222, 222), b"\x1B[M\x20\xFF\xFF"),
        (at(PRESSED, none(), 223, 0), b""),
        (here(DRAGGED), b""),
    ];
    assert_rows(&rt, asked(Tracking::Buttons, None), &rows);
}

/// 1002 and 1003
#[test]
fn motion(rt: HostRuntime) {
    let drags: [Row; 2] = [
        (at(DRAGGED, none(), 6, 5), b"\x1B[M\x40\x27\x26"),
        (at(MOVED, none(), 8, 6), b""),
    ];
    assert_rows(&rt, asked(Tracking::Drags, None), &drags);
    assert_rows(
        &rt,
        asked(Tracking::Motion, None),
        &[(at(MOVED, none(), 8, 6), b"\x1B[M\x43\x29\x27")],
    );
}

/// 1006, 1015 and 1016
#[test]
fn encodings(rt: HostRuntime) {
    let sgr: [Row; 8] = [
        (at(PRESSED, none(), 300, 300), b"\x1B[<0;301;301M"),
        (at(RELEASED, none(), 300, 300), b"\x1B[<0;301;301m"),
        (
            at(Action::Release(Button::Right), none(), 0, 0),
            b"\x1B[<2;1;1m",
        ),
        (at(MOVED, none(), 0, 0), b"\x1B[<35;1;1M"),
        (at(DRAGGED, none(), 0, 0), b"\x1B[<32;1;1M"),
        (at(PRESSED, shift(), 0, 0), b"\x1B[<4;1;1M"),
        (at(PRESSED, alt(), 0, 0), b"\x1B[<8;1;1M"),
        (
            at(Action::Turn(Wheel::Left), none(), 0, 0),
            b"\x1B[<66;1;1M",
        ),
    ];
    assert_rows(&rt, asked(Tracking::Motion, Some(Encoding::Sgr)), &sgr);
    let urxvt: [Row; 2] = [
        (here(PRESSED), b"\x1B[32;21;11M"),
        (here(RELEASED), b"\x1B[35;21;11M"),
    ];
    assert_rows(&rt, asked(Tracking::Buttons, Some(Encoding::Urxvt)), &urxvt);
    assert_rows(
        &rt,
        asked(Tracking::Buttons, Some(Encoding::Pixels)),
        &[(here(PRESSED), b"\x1B[<0;641;481M")],
    );
}
