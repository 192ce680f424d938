//! The examples once each: what the pages say that they write, and the counts that no clause gives.
use super::{assert_answer, assert_bytes};
use anstyle_parse::canon::{Fault, FromWrite, Output};
use examples::{
    Quiet, calls_made, canonical, html, make_first_calls, plain, printed, stay_quiet,
    strip_two_pieces, write_last_style,
};
use std::process::Abort;
use stream_state::Fed;

/// A device control string with its terminator, 1B 5C.
const STRING: [u8; 8] = *b"\x1bP1$qm\x1b\\";

// Three calls for all of the string but its last byte, and one more for that.
#[test]
fn calls_are_counted(rt: HostRuntime) {
    assert_eq!(rt; calls_made(&STRING[..7]), 3);
    assert_eq!(rt; calls_made(&STRING), 4);
}

#[test]
fn characters_are_counted(rt: HostRuntime) {
    assert_eq!(rt; printed(b"one\x1b[1mtwo\n"), 6);
}

#[test]
fn a_quiet_performer_stays(rt: HostRuntime) {
    let mut quiet = Quiet { mark: 7 };
    stay_quiet(&mut quiet, &STRING);
    assert_eq!(rt; quiet.mark, 7);
}

/// A run that went well wrote this.
fn assert_written(rt: &impl Abort, ran: (Vec<u8>, Result<(), Fault>), wanted: &[u8]) {
    let (text, answer) = ran;
    assert_bytes(rt, text.as_slice(), wanted);
    assert_answer(rt, answer, Ok(()));
}

// What the crates' pages say of their examples.
#[test]
fn pages(rt: HostRuntime) {
    make_first_calls(&mut ());
    assert_written(&rt, plain(rt.alloc(), b"\x1b[31mhi"), b"hi");
    assert_written(&rt, canonical(rt.alloc(), b"\x1b[01mhi"), b"\x1b[1mhi");
    assert_written(
        &rt,
        html(rt.alloc(), b"\x1b[1m<hi"),
        b"<pre><span style=\"font-weight:bold;\">&lt;hi</span></pre>",
    );
}

#[test]
fn page_of_styles(rt: HostRuntime) {
    let mut output = Output::new(FromWrite::new(Vec::new(rt.alloc())));
    write_last_style(b"\x1b[1m\x1b[31m", &mut output);
    let (writer, answer) = output.finish();
    assert_written(&rt, (writer.into_inner(), answer), b"\x1b[0;1;31m");
}

#[test]
fn page_of_pieces(rt: HostRuntime) {
    let mut room = [0; 64];
    let fed = strip_two_pieces(&mut room);
    let first = Fed {
        taken: 3,
        written: 0,
    };
    let second = Fed {
        taken: 4,
        written: 2,
    };
    assert_eq!(rt; fed, (Some(first), Some(second)));
    assert!(rt; room.starts_with(b"hi"));
}
