//! What is pasted, and the focus.
use super::{assert_bytes, assert_reads, bytes_of, memory};
use std::alloc::AllocGlobal;
use std::process::Abort;
use terminal_keys::laws::{apart, pasted_safely, unasked};
use terminal_keys::{KeyModes, KeyText, Sequence, focus_text, put_paste};

fn asked() -> KeyModes {
    KeyModes {
        paste: true,
        focus: true,
        ..KeyModes::none()
    }
}

fn assert_pastes(rt: &(impl Abort + AllocGlobal), text: &str, modes: KeyModes, wanted: &[u8]) {
    let mut output = memory(rt.alloc());
    put_paste(&mut output, text, modes);
    let written = bytes_of(rt, output);
    assert_bytes(rt, written.as_slice(), wanted);
    drop(written);
}

#[test]
fn pastes(rt: HostRuntime) {
    assert_pastes(&rt, "a\tb\r\n", KeyModes::none(), b"a\tb\r\n");
    assert_pastes(&rt, "ls\n", asked(), b"\x1B[200~ls\n\x1B[201~");
    assert_pastes(
        &rt,
        "a\x1B[201~rm\u{9B}201~\0\x7F",
        asked(),
        b"\x1B[200~a[201~rm201~\x1B[201~",
    );
    assert_pastes(
        &rt,
        "\u{E9}\u{1F600}",
        KeyModes::none(),
        b"\xC3\xA9\xF0\x9F\x98\x80",
    );
}

#[test]
fn focus(rt: HostRuntime) {
    assert_reads(&rt, focus_text(true, asked()), b"\x1B[I");
    assert_reads(&rt, focus_text(false, asked()), b"\x1B[O");
    assert_reads(&rt, focus_text(true, KeyModes::none()), b"");
}

/// The names of the laws.
#[test]
fn laws(_rt: HostRuntime) {
    apart();
    pasted_safely();
    unasked();
}

/// A control sequence by its numbers.
#[test]
fn a_sequence(rt: HostRuntime) {
    let sequence = Sequence {
        number: 1,
        shifted: 0,
        modifiers: 1,
        event: 1,
        text: 0,
        last: b'A',
    };
    assert_reads(&rt, KeyText::Control(sequence), b"\x1B[A");
}
