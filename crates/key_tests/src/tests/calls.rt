//! A key is one call to who reads it.
ghost use Rattle.std.specs.Prelude.{⊤};

use super::{assert_same, bytes_of_key, control, flags, none, press, shift_control, typed};
use anstyle_parse::{Params, Parser, Perform, Utf8Parser};
use std::alloc::AllocGlobal;
use std::process::Abort;
use terminal_keys::{Key, Navigation, Pad, Stroke};

/// How many calls there were.
#[derive(Drop)]
struct Count {
    calls: u8,
}

impl Count {
    fn take(&mut self) {
        self.calls = self.calls.saturating_add(1);
    }
}

impl Perform for Count {
    ghost means = { λ _ _ _. ⊤ };

    fn print(&mut self, _: char) {
        self.take();
    }

    fn execute(&mut self, _: u8) {
        self.take();
    }

    fn hook(&mut self, _: &Params, _: &[u8], _: bool, _: u8) {
        self.take();
    }

    fn put(&mut self, _: u8) {
        self.take();
    }

    fn unhook(&mut self) {
        self.take();
    }

    fn osc_dispatch(&mut self, _: &[&[u8]], _: bool) {
        self.take();
    }

    fn csi_dispatch(&mut self, _: &Params, _: &[u8], _: bool, _: u8) {
        self.take();
    }

    fn esc_dispatch(&mut self, _: &[u8], _: bool, _: u8) {
        self.take();
    }
}

/// A parser makes so many calls of a key.
fn assert_one_call(rt: &(impl Abort + AllocGlobal), stroke: Stroke) {
    let written = bytes_of_key(rt, stroke.text(flags(9)));
    let mut count = Count { calls: 0 };
    let mut parser = Parser::<Utf8Parser>::new();
    for byte in written.as_slice() {
        parser.advance(&mut count, *byte);
    }
    assert_same(rt, &count.calls, &1);
    drop(written);
}

#[test]
fn one_call(rt: HostRuntime) {
    let strokes = [
        typed('a', 'A', none()),
        typed('a', 'A', shift_control()),
        press(Key::Enter, none()),
        press(Key::Escape, none()),
        press(Key::Navigation(Navigation::Up), control()),
        press(Key::Function(3), none()),
        press(Key::Keypad(Pad::Digit(5)), none()),
    ];
    for stroke in strokes {
        assert_one_call(&rt, stroke);
    }
}
