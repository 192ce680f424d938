//! Rows that were worked by hand, from xterm's and kitty's pages and the tests of libvterm and kitty.
mod asked;
mod calls;
mod enhanced;
mod legacy;
mod mouse;
mod paste;
mod taking;

use anstyle_parse::io::{Fault, FromWrite, Output};
use std::alloc::{AllocGlobal, Global};
use std::fmt::Debug;
use std::process::Abort;
use terminal_keys::{Event, Flags, Key, KeyModes, KeyText, Modifiers, Stroke};

/// Two values are the same; else both are shown. (It stands in each crate of tests, as what it is called by: a function
/// that may end the process is let stand in tests alone, and no other crate sees those.)
fn assert_same<T: PartialEq + Debug>(rt: &impl Abort, value: &T, wanted: &T) {
    assert_eq!(rt; *value, *wanted);
}

/// The bytes were written.
fn assert_bytes(rt: &impl Abort, written: &[u8], wanted: &[u8]) {
    assert_same(rt, &written, &wanted);
}

/// What is written into.
type Memory = FromWrite<Vec<u8>>;

/// An output into memory.
fn memory(alloc: Global) -> Output<Memory> {
    Output::new(FromWrite::new(Vec::new(alloc)))
}

fn finished(output: Output<Memory>) -> (Memory, Result<(), Fault>) {
    output.finish()
}

fn assert_ok(rt: &impl Abort, answer: Result<(), Fault>) {
    assert!(rt; answer.is_ok());
}

/// What was written, where no write failed.
fn bytes_of(rt: &impl Abort, output: Output<Memory>) -> Vec<u8> {
    let (sink, answer) = finished(output);
    assert_ok(rt, answer);
    sink.into_inner()
}

/// The bytes of a key.
fn bytes_of_key(rt: &(impl Abort + AllocGlobal), text: KeyText) -> Vec<u8> {
    let mut output = memory(rt.alloc());
    text.write(&mut output);
    bytes_of(rt, output)
}

/// A program reads this.
fn assert_reads(rt: &(impl Abort + AllocGlobal), text: KeyText, wanted: &[u8]) {
    let written = bytes_of_key(rt, text);
    assert_bytes(rt, written.as_slice(), wanted);
    drop(written);
}

/// A key, and what a program reads of it.
type Row = (Stroke, &'static [u8]);

fn assert_rows(rt: &(impl Abort + AllocGlobal), modes: KeyModes, rows: &[Row]) {
    for (stroke, wanted) in rows {
        assert_reads(rt, stroke.text(modes), wanted);
    }
}

/// A key is pressed.
fn press(key: Key, modifiers: Modifiers) -> Stroke {
    Stroke {
        key,
        shifted: None,
        modifiers,
        event: Event::Press,
    }
}

/// The key of a character is pressed, and types another one with Shift.
fn typed(plain: char, shifted: char, modifiers: Modifiers) -> Stroke {
    Stroke {
        shifted: Some(shifted),
        ..press(Key::Character(plain), modifiers)
    }
}

fn held(shift: bool, alt: bool, control: bool) -> Modifiers {
    Modifiers {
        shift,
        alt,
        control,
        ..Modifiers::none()
    }
}

fn none() -> Modifiers {
    Modifiers::none()
}

fn shift() -> Modifiers {
    held(true, false, false)
}

fn alt() -> Modifiers {
    held(false, true, false)
}

fn control() -> Modifiers {
    held(false, false, true)
}

fn alt_control() -> Modifiers {
    held(false, true, true)
}

fn shift_control() -> Modifiers {
    held(true, false, true)
}

fn shift_alt() -> Modifiers {
    held(true, true, false)
}

/// The flags of kitty's protocol.
fn flags(number: u16) -> KeyModes {
    KeyModes {
        flags: Flags::of(number),
        ..KeyModes::none()
    }
}
