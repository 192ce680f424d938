//! Keys by xterm.
use super::{
    Row, alt, alt_control, assert_rows, control, none, press, shift, shift_alt, shift_control,
    typed,
};
use std::alloc::AllocGlobal;
use std::process::Abort;
use terminal_keys::{Key, KeyModes, Navigation, Pad};

/// libvterm's t/25state_input.test, where xterm has the same.
#[test]
fn libvterm(rt: HostRuntime) {
    let rows: [Row; 20] = [
        (typed('a', 'A', shift()), b"A"),
        (typed('a', 'A', none()), b"a"),
        (typed('a', 'A', control()), b"\x01"),
        (typed('a', 'A', shift_alt()), b"\x1BA"),
        (typed('a', 'A', alt()), b"\x1Ba"),
        (typed('a', 'A', alt_control()), b"\x1B\x01"),
        (typed('i', 'I', shift()), b"I"),
        (typed('i', 'I', alt()), b"\x1Bi"),
        (press(Key::Character(' '), none()), b" "),
        (press(Key::Character(' '), control()), b"\0"),
        (press(Key::Character(' '), alt_control()), b"\x1B\0"),
        (press(Key::Navigation(Navigation::Up), none()), b"\x1B[A"),
        (
            press(Key::Navigation(Navigation::Up), shift()),
            b"\x1B[1;2A",
        ),
        (
            press(Key::Navigation(Navigation::Up), shift_alt()),
            b"\x1B[1;4A",
        ),
        (
            press(Key::Navigation(Navigation::Up), alt_control()),
            b"\x1B[1;7A",
        ),
        (press(Key::Tab, shift()), b"\x1B[Z"),
        (press(Key::Tab, alt()), b"\x1B\t"),
        (press(Key::Function(1), none()), b"\x1BOP"),
        (press(Key::Function(1), control()), b"\x1B[1;5P"),
        (press(Key::Keypad(Pad::Digit(0)), none()), b"0"),
    ];
    assert_rows(&rt, KeyModes::none(), &rows);
}

/// xterm's page: editing and function keys, and controls.
#[test]
fn xterm(rt: HostRuntime) {
    let rows: [Row; 18] = [
        (
            press(Key::Navigation(Navigation::Insert), none()),
            b"\x1B[2~",
        ),
        (
            press(Key::Navigation(Navigation::PageDown), control()),
            b"\x1B[6;5~",
        ),
        (press(Key::Navigation(Navigation::Home), none()), b"\x1B[H"),
        (press(Key::Function(5), shift()), b"\x1B[15;2~"),
        (press(Key::Function(10), none()), b"\x1B[21~"),
        (press(Key::Function(12), none()), b"\x1B[24~"),
        (press(Key::Function(13), none()), b"\x1B[25~"),
        (press(Key::Function(16), none()), b"\x1B[29~"),
        (press(Key::Function(20), none()), b"\x1B[34~"),
        (press(Key::Function(24), none()), b"\x1B[45~"),
        (press(Key::Function(25), none()), b""),
        (typed('2', '@', control()), b"\0"),
        (typed('3', '#', control()), b"\x1B"),
        (typed('/', '?', control()), b"\x1F"),
        (typed('1', '!', control()), b"1"),
        (press(Key::Backspace, none()), b"\x7F"),
        (press(Key::Backspace, control()), b"\x08"),
        (press(Key::Enter, alt()), b"\x1B\r"),
    ];
    assert_rows(&rt, KeyModes::none(), &rows);
}

/// The application's forms.
#[test]
fn application(rt: HostRuntime) {
    let modes = KeyModes {
        cursor_keys: true,
        keypad: true,
        backspace: true,
        ..KeyModes::none()
    };
    let rows: [Row; 9] = [
        (press(Key::Navigation(Navigation::Up), none()), b"\x1BOA"),
        (
            press(Key::Navigation(Navigation::Up), control()),
            b"\x1B[1;5A",
        ),
        (press(Key::Navigation(Navigation::End), none()), b"\x1BOF"),
        (
            press(Key::Navigation(Navigation::Delete), none()),
            b"\x1B[3~",
        ),
        (press(Key::Keypad(Pad::Digit(9)), none()), b"\x1BOy"),
        (press(Key::Keypad(Pad::Return), none()), b"\x1BOM"),
        (press(Key::Keypad(Pad::Equal), none()), b"\x1BOX"),
        (
            press(Key::KeypadNavigation(Navigation::Left), none()),
            b"\x1BOD",
        ),
        (press(Key::Backspace, none()), b"\x08"),
    ];
    assert_rows(&rt, modes, &rows);
}

fn other_keys(level: u16) -> KeyModes {
    KeyModes {
        other_keys: level,
        ..KeyModes::none()
    }
}

/// modifyOtherKeys 1, as its manual has it: not where there is a control, nor for Shift alone.
#[test]
fn first_level(rt: HostRuntime) {
    let rows: [Row; 9] = [
        (typed('a', 'A', control()), b"\x01"),
        (typed('1', '!', control()), b"\x1B[27;5;49~"),
        (typed('1', '!', shift_control()), b"\x1B[27;6;33~"),
        (typed('2', '@', control()), b"\0"),
        (typed('a', 'A', shift()), b"A"),
        (press(Key::Tab, control()), b"\x1B[27;5;9~"),
        (press(Key::Enter, shift()), b"\x1B[27;2;13~"),
        (press(Key::Backspace, alt()), b"\x1B\x7F"),
        (press(Key::Escape, none()), b"\x1B"),
    ];
    assert_rows(&rt, other_keys(1), &rows);
}

/// And 2: all of them.
#[test]
fn second_level(rt: HostRuntime) {
    let rows: [Row; 8] = [
        (typed('a', 'A', none()), b"a"),
        (typed('a', 'A', control()), b"\x1B[27;5;97~"),
        (typed('a', 'A', shift_control()), b"\x1B[27;6;65~"),
        (typed('i', 'I', control()), b"\x1B[27;5;105~"),
        (typed('a', 'A', alt()), b"\x1B[27;3;97~"),
        (typed('1', '!', shift()), b"!"),
        (press(Key::Enter, control()), b"\x1B[27;5;13~"),
        (press(Key::Tab, shift()), b"\x1B[Z"),
    ];
    assert_rows(&rt, other_keys(2), &rows);
}
