//! Keys by kitty's protocol: the rows of kitty's own tests of keys, and of its page.
use super::{
    Row, alt, assert_rows, control, flags, none, press, shift, shift_alt, shift_control, typed,
};
use std::alloc::AllocGlobal;
use std::process::Abort;
use terminal_keys::{Event, Key, Modifiers, Navigation, Pad, Stroke};

fn repeat(stroke: Stroke) -> Stroke {
    Stroke {
        event: Event::Repeat,
        ..stroke
    }
}

fn release(stroke: Stroke) -> Stroke {
    Stroke {
        event: Event::Release,
        ..stroke
    }
}

/// 1
#[test]
fn disambiguated(rt: HostRuntime) {
    let rows: [Row; 16] = [
        (typed('a', 'A', none()), b"a"),
        (typed('a', 'A', shift()), b"A"),
        (press(Key::Escape, none()), b"\x1B[27u"),
        (press(Key::Enter, none()), b"\r"),
        (press(Key::Enter, shift()), b"\x1B[13;2u"),
        (press(Key::Backspace, none()), b"\x7F"),
        (press(Key::Tab, shift()), b"\x1B[9;2u"),
        (typed('a', 'A', control()), b"\x1B[97;5u"),
        (typed('a', 'A', shift_control()), b"\x1B[97;6u"),
        (typed('a', 'A', shift_alt()), b"\x1B[97;4u"),
        (press(Key::Character(' '), control()), b"\x1B[32;5u"),
        (
            press(Key::KeypadNavigation(Navigation::PageUp), none()),
            b"\x1B[57421u",
        ),
        (
            press(Key::Keypad(Pad::Digit(0)), control()),
            b"\x1B[57399;5u",
        ),
        (
            press(Key::Navigation(Navigation::Up), control()),
            b"\x1B[1;5A",
        ),
        (press(Key::Function(3), none()), b"\x1B[13~"),
        (press(Key::Function(13), none()), b"\x1B[57376u"),
    ];
    assert_rows(&rt, flags(1), &rows);
}

/// 2, and 1
#[test]
fn events(rt: HostRuntime) {
    let rows: [Row; 5] = [
        (typed('a', 'A', none()), b"a"),
        (release(typed('a', 'A', none())), b"\x1B[97;1:3u"),
        (release(typed('a', 'A', shift())), b"\x1B[97;2:3u"),
        (
            repeat(press(Key::Navigation(Navigation::Left), none())),
            b"\x1B[1;1:2D",
        ),
        (release(press(Key::Enter, none())), b""),
    ];
    assert_rows(&rt, flags(3), &rows);
    assert_rows(&rt, flags(1), &[(release(typed('a', 'A', none())), b"")]);
}

/// 8, and 1, 4, 16
#[test]
fn all(rt: HostRuntime) {
    let rows: [Row; 6] = [
        (typed('a', 'A', none()), b"\x1B[97u"),
        (repeat(typed('a', 'A', none())), b"\x1B[97u"),
        (typed('a', 'A', control()), b"\x1B[97;5u"),
        (press(Key::Enter, none()), b"\x1B[13u"),
        (press(Key::Backspace, alt()), b"\x1B[127;3u"),
        (press(Key::Navigation(Navigation::Up), none()), b"\x1B[A"),
    ];
    assert_rows(&rt, flags(9), &rows);
    let more: [Row; 3] = [
        (typed('a', 'A', none()), b"\x1B[97;;97u"),
        (typed('a', 'A', shift()), b"\x1B[97:65;2;65u"),
        (typed('a', 'A', shift_control()), b"\x1B[97:65;6u"),
    ];
    assert_rows(&rt, flags(29), &more);
}

/// The number of each modifier, and of all.
#[test]
fn modifiers(rt: HostRuntime) {
    let locks = Modifiers {
        caps_lock: true,
        num_lock: true,
        ..none()
    };
    let every = Modifiers {
        super_key: true,
        hyper: true,
        meta: true,
        ..Modifiers {
            alt: true,
            control: true,
            ..locks
        }
    };
    let rows: [Row; 2] = [
        (press(Key::Escape, locks), b"\x1B[27;193u"),
        (press(Key::Escape, every), b"\x1B[27;255u"),
    ];
    assert_rows(&rt, flags(9), &rows);
}
