//! What `strip` leaves of DEL, of U+0080 to U+009F and of a string that 9C ends, and what `strip_inert` does: rows
//! worked by hand.
use super::{assert_answer, assert_bytes};
use ansi_strip::{strip, strip_inert};
use anstyle_parse::canon::{Fault, FromRead, FromWrite};
use std::process::Abort;

/// Bytes, what `strip` leaves of them, and what `strip_inert` does.
const ROWS: [(&[u8], &[u8], &[u8]); 7] = [
    (b"\x1BPqA\x9CB", b"B", b"B"),
    (b"\x7F\x80\x9C\xC2\x80", b"\x7F\xC2\x80", b""),
    (b"\xC2\x9Bc", b"\xC2\x9Bc", b"c"),
    (
        b"a\xC2\xA0b\xC2\x9Fc",
        b"a\xC2\xA0b\xC2\x9Fc",
        b"a\xC2\xA0bc",
    ),
    (b"~\x7F\xC3\x9B\n", b"~\x7F\xC3\x9B\n", b"~\xC3\x9B\n"),
    (
        b"\xE2\x82\xC2\x9B1mx",
        b"\xEF\xBF\xBD\xC2\x9B1mx",
        b"\xEF\xBF\xBD1mx",
    ),
    (b"\x1B[1m\xC2\x85\x1B[m\r\n", b"\xC2\x85\r\n", b"\r\n"),
];

/// A run that went well wrote this.
fn assert_left(rt: &impl Abort, ran: (FromWrite<Vec<u8>>, Result<(), Fault>), wanted: &[u8]) {
    let (writer, answer) = ran;
    assert_answer(rt, answer, Ok(()));
    assert_bytes(rt, writer.into_inner().as_slice(), wanted);
}

#[test]
fn rows(rt: HostRuntime) {
    for (given, stripped, inert) in ROWS {
        let alloc = rt.alloc();
        let ran = strip(&mut FromRead::new(given), FromWrite::new(Vec::new(alloc)));
        assert_left(&rt, ran, stripped);
        let ran = strip_inert(&mut FromRead::new(given), FromWrite::new(Vec::new(alloc)));
        assert_left(&rt, ran, inert);
    }
}
