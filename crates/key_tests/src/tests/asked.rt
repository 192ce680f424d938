//! Keys, the mouse, a paste and the focus by what a stream asked for: the rows of xterm's and kitty's pages.
use super::{assert_bytes, assert_reads, bytes_of, control, memory, none, press, typed};
use ansi_modes::Asked;
use anstyle_parse::{Parser, Utf8Parser};
use std::alloc::AllocGlobal;
use std::process::Abort;
use terminal_keys::{
    Action, Button, Key, KeyModes, Mouse, Navigation, Pad, Stroke, focus_text, put_paste,
};

/// What the bytes asked for.
fn after(bytes: &[u8]) -> KeyModes {
    let mut asked = Asked::new();
    let mut parser = Parser::<Utf8Parser>::new();
    parser.advance_texts(&mut asked, bytes);
    let modes = KeyModes::of(&asked);
    drop(asked);
    modes
}

/// What is asked for, a key, and what a program reads of it.
type Row = (&'static [u8], Stroke, &'static [u8]);

const UP: Key = Key::Navigation(Navigation::Up);

// DECCKM, DECNKM, DECBKM, modifyOtherKeys; kitty's flags, which each screen has of its own.
#[test]
fn keys(rt: HostRuntime) {
    let rows: [Row; 11] = [
        (b"", press(UP, none()), b"\x1B[A"),
        (b"\x1B[?1h", press(UP, none()), b"\x1BOA"),
        (b"\x1B[?1h\x1Bc", press(UP, none()), b"\x1B[A"),
        (b"", press(Key::Keypad(Pad::Add), none()), b"+"),
        (b"\x1B=", press(Key::Keypad(Pad::Add), none()), b"\x1BOk"),
        (b"", press(Key::Backspace, none()), b"\x7F"),
        (b"\x1B[?67h", press(Key::Backspace, none()), b"\x08"),
        (b"\x1B[>4;2m", typed('a', 'A', control()), b"\x1B[27;5;97~"),
        (b"\x1B[>1u", typed('a', 'A', control()), b"\x1B[97;5u"),
        (b"\x1B[>1u\x1B[?1049h", typed('a', 'A', control()), b"\x01"),
        (b"\x1B[>1u\x1B[<u", typed('a', 'A', control()), b"\x01"),
    ];
    for (bytes, stroke, wanted) in rows {
        assert_reads(&rt, stroke.text(after(bytes)), wanted);
    }
}

fn assert_pressed(rt: &(impl Abort + AllocGlobal), bytes: &[u8], wanted: &[u8]) {
    let mouse = Mouse {
        action: Action::Press(Button::Left),
        modifiers: none(),
        column: 1,
        row: 2,
        x: 30,
        y: 40,
    };
    let mut output = memory(rt.alloc());
    mouse.text(after(bytes)).write(&mut output);
    let written = bytes_of(rt, output);
    assert_bytes(rt, written.as_slice(), wanted);
    drop(written);
}

#[test]
fn others(rt: HostRuntime) {
    assert_pressed(&rt, b"\x1B[?1006h", b"");
    assert_pressed(&rt, b"\x1B[?1000h", b"\x1B[M\x20\x22\x23");
    assert_pressed(&rt, b"\x1B[?1002;1006h", b"\x1B[<0;2;3M");
    assert_pressed(&rt, b"\x1B[?1003;1016h", b"\x1B[<0;31;41M");
    assert_reads(&rt, focus_text(true, after(b"\x1B[?1004h")), b"\x1B[I");
    assert_reads(&rt, focus_text(true, after(b"")), b"");
    let mut output = memory(rt.alloc());
    put_paste(&mut output, "a", after(b"\x1B[?2004h"));
    put_paste(&mut output, "b", after(b"\x1B[?2004h\x1B[?2004l"));
    let written = bytes_of(&rt, output);
    assert_bytes(&rt, written.as_slice(), b"\x1B[200~a\x1B[201~b");
    drop(written);
}
