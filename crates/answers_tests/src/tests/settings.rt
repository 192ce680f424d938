//! Settings.
use super::{Row, assert_rows, assert_same, facts};
use ansi_answers::{Facts, MAX_ANSWER};
use ansi_style::{Color, Hue, Style, Underline};
use std::alloc::AllocGlobal;
use std::process::Abort;

// ctlseqs, "Device-Control functions", DECRQSS; the VT510 manual, DECRPSS. One that is not known comes back empty.
#[test]
fn settings(rt: HostRuntime) {
    let rows: [Row; 9] = [
        (b"\x1BP$qr\x1B\\", b"\x1BP1$r1;6r\x1B\\"),
        (b"\x1BP$qr\x9C", b"\x1BP1$r1;6r\x1B\\"),
        (b"\x1BP$q q\x1B\\", b"\x1BP1$r2 q\x1B\\"),
        (b"\x1B[5 q\x1BP$q q\x1B\\", b"\x1BP1$r5 q\x1B\\"),
        (b"\x1B[4 q\x1BP$q q\x1B\\", b"\x1BP1$r4 q\x1B\\"),
        (b"\x1B[3 q\x1B[?12l\x1BP$q q\x1B\\", b"\x1BP1$r4 q\x1B\\"),
        (b"\x1BP$qls\r\x1B\\", b"\x1BP0$r\x1B\\"),
        (
            b"\x1BP$q\x1B\\\x1BP$qrr\x1B\\",
            b"\x1BP0$r\x1B\\\x1BP0$r\x1B\\",
        ),
        (b"\x1BPqr\x1B\\\x1BP$tr\x1B\\\x1BP+qr\x1B\\", b""),
    ];
    assert_rows(&rt, facts(), &rows);
}

#[test]
fn margins(rt: HostRuntime) {
    let rows: [Row; 1] = [(b"\x1BP$qr\x1B\\", b"\x1BP1$r2;4r\x1B\\")];
    let facts = Facts {
        top: 2,
        bottom: 4,
        ..facts()
    };
    assert_rows(&rt, facts, &rows);
}

/// A style of all kinds.
fn styled() -> Style {
    Style {
        foreground: Color::Named(Hue::Red),
        background: Color::Indexed(200),
        underline: Underline::Single,
        bold: true,
        ..Style::default()
    }
}

/// The longest.
fn longest() -> Style {
    Style {
        foreground: Color::Direct(100, 200, 255),
        background: Color::Direct(255, 128, 127),
        underline: Underline::Curly,
        bold: true,
        dim: true,
        italic: true,
        blink: true,
        reverse: true,
        hidden: true,
        struck_out: true,
        overlined: true,
    }
}

fn assert_style(rt: &(impl Abort + AllocGlobal), style: Style, wanted: &'static [u8]) {
    let rows: [Row; 1] = [(b"\x1BP$qm\x1B\\", wanted)];
    assert_rows(rt, Facts { style, ..facts() }, &rows);
}

// ctlseqs, DECRQSS: what selects the style, 0 first. Of the underline and of colours ansi_style's forms.
#[test]
fn styles(rt: HostRuntime) {
    assert_style(&rt, Style::default(), b"\x1BP1$r0m\x1B\\");
    assert_style(
        &rt,
        Style {
            bold: true,
            foreground: Color::Named(Hue::Red),
            ..Style::default()
        },
        b"\x1BP1$r0;1;31m\x1B\\",
    );
    assert_style(&rt, styled(), b"\x1BP1$r0;1;4;31;48;5;200m\x1B\\");
    let wanted = b"\x1BP1$r0;1;2;3;4:3;5;7;8;9;53;38;2;100;200;255;48;2;255;128;127m\x1B\\";
    assert_same(&rt, &wanted.len(), &MAX_ANSWER);
    assert_style(&rt, longest(), wanted);
}
