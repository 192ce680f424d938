//! Control sequences.
use super::{Row, assert_rows, facts};
use ansi_answers::Facts;
use std::alloc::AllocGlobal;
use std::process::Abort;

// ECMA-48, 8.3.14, 8.3.35; the VT510 manual, DECXCPR; ctlseqs, "Functions using CSI".
#[test]
fn positions(rt: HostRuntime) {
    let rows: [Row; 8] = [
        (b"\x1B[5n", b"\x1B[0n"),
        (b"\x1B[6n", b"\x1B[3;4R"),
        (b"\x1B[18t", b"\x1B[8;6;20t"),
        (b"\x1B[?6n", b"\x1B[?3;4;1R"),
        (b"\x1B[5n\x1B[6n", b"\x1B[0n\x1B[3;4R"),
        (b"\x1B[n\x1B[7n\x1B[?5n\x1B[>6n\x1B[6$n", b""),
        (b"\x1B[20t\x1B[21t\x1B[14t\x1B[t", b""),
        (b"\x1B[6\x18n\x1B[6;1$$$n", b""),
    ];
    assert_rows(&rt, facts(), &rows);
}

/// The cursor in the second row of the margins, in the last column.
fn within_margins() -> Facts {
    Facts {
        row: 3,
        column: 20,
        top: 2,
        bottom: 4,
        is_relative: true,
        ..facts()
    }
}

// As after ESC [ 2 ; 4 r ESC [ ? 6 h ESC [ 2 ; 20 H: rows count from the margin.
#[test]
fn origin_mode(rt: HostRuntime) {
    let rows: [Row; 2] = [(b"\x1B[6n", b"\x1B[2;20R"), (b"\x1B[?6n", b"\x1B[?2;20;1R")];
    assert_rows(&rt, within_margins(), &rows);
}

// ctlseqs, "Functions using CSI", Send Device Attributes; XTVERSION.
#[test]
fn attributes(rt: HostRuntime) {
    let rows: [Row; 8] = [
        (b"\x1B[c", b"\x1B[?62;22c"),
        (b"\x1B[0c", b"\x1B[?62;22c"),
        (b"\x1B[>c", b"\x1B[>1;10;0c"),
        (b"\x1B[>0c", b"\x1B[>1;10;0c"),
        (b"\x1B[=c", b"\x1BP!|00000000\x1B\\"),
        (b"\x1B[>q", b"\x1BP>|ansi-proved(1)\x1B\\"),
        (b"\x1B[1c\x1B[>1c\x1B[=1c\x1B[>1q", b""),
        (b"\x1B[?62;22c\x1B[>1;10;0c", b""),
    ];
    assert_rows(&rt, facts(), &rows);
}

// The VT510 manual, DECRQM, DECRPM: 0 not recognized, 1 set, 2 reset, 4 permanently reset.
#[test]
fn modes(rt: HostRuntime) {
    let rows: [Row; 14] = [
        (b"\x1B[4$p", b"\x1B[4;2$y"),
        (b"\x1B[20$p", b"\x1B[20;4$y"),
        (b"\x1B[2$p", b"\x1B[2;0$y"),
        (b"\x1B[?25$p", b"\x1B[?25;1$y"),
        (b"\x1B[?7$p", b"\x1B[?7;1$y"),
        (b"\x1B[?6$p", b"\x1B[?6;2$y"),
        (b"\x1B[?1$p", b"\x1B[?1;2$y"),
        (b"\x1B[?1h\x1B[?1$p", b"\x1B[?1;1$y"),
        (b"\x1B[?2004h\x1B[?2004$p", b"\x1B[?2004;1$y"),
        (b"\x1B[?2026$p", b"\x1B[?2026;2$y"),
        (b"\x1B[?1003h\x1B[?1003$p", b"\x1B[?1003;1$y"),
        (b"\x1B[?1005h\x1B[?1005$p", b"\x1B[?1005;4$y"),
        (b"\x1B[?69$p\x1B[?65535$p", b"\x1B[?69;0$y\x1B[?65535;0$y"),
        (b"\x1B[>25$p\x1B[?25p", b""),
    ];
    assert_rows(&rt, facts(), &rows);
}

// kitty's page, "Progressive enhancement".
#[test]
fn key_flags(rt: HostRuntime) {
    let rows: [Row; 3] = [
        (b"\x1B[?u", b"\x1B[?0u"),
        (b"\x1B[>5u\x1B[?u", b"\x1B[?5u"),
        (b"\x1B[>5u\x1B[<u\x1B[?u", b"\x1B[?0u"),
    ];
    assert_rows(&rt, facts(), &rows);
}

// The title, the link, the folder and what is printed never come back.
#[test]
fn texts(rt: HostRuntime) {
    let rows: [Row; 3] = [
        (b"\x1B]2;\x07\x1B]2;ls\r\x07\x1B[21t\x1B[20t", b""),
        (b"\x1B]8;;ls\x07x\x1B]8;;\x07\x1B]7;ls\x07\x05", b""),
        (
            b"\x1B]2;?\x07\x1B]0;?\x07\x1B]52;c;?\x07\x1BP+q544e\x1B\\",
            b"",
        ),
    ];
    assert_rows(&rt, facts(), &rows);
}
