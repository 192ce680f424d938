//! Colours.
use super::{Row, after, assert_answered, assert_rows, facts};
use ansi_answers::Theme;
use ansi_modes::Rgb;
use std::alloc::AllocGlobal;
use std::process::Abort;

/// A theme with a background and the second colour of the palette.
fn theme() -> Theme {
    let mut theme = Theme::none();
    theme.background = Some(Rgb {
        red: 0x1E,
        green: 0,
        blue: 0xFF,
    });
    theme.palette[1] = Some(Rgb {
        red: 0xCD,
        green: 9,
        blue: 0xA0,
    });
    theme
}

fn assert_told(rt: &(impl Abort + AllocGlobal), rows: &[Row]) {
    for (bytes, wanted) in rows {
        let talk = after(facts(), theme(), bytes);
        assert_answered(rt, &talk, wanted);
        drop(talk);
    }
}

// ctlseqs, "Operating System Commands", 4, 10 to 12; XParseColor(3): of eight bits the sixteen
// have the same two digits twice. An answer ends as the question did.
#[test]
fn colors(rt: HostRuntime) {
    let rows: [Row; 10] = [
        (b"\x1B]11;?\x07", b"\x1B]11;rgb:1e1e/0000/ffff\x07"),
        (b"\x1B]11;?\x1B\\", b"\x1B]11;rgb:1e1e/0000/ffff\x1B\\"),
        (b"\x1B]4;1;?\x07", b"\x1B]4;1;rgb:cdcd/0909/a0a0\x07"),
        (b"\x1B]10;?\x07\x1B]12;?\x07\x1B]4;2;?\x07", b""),
        (
            b"\x1B]10;#123456\x07\x1B]10;?\x07",
            b"\x1B]10;rgb:1212/3434/5656\x07",
        ),
        (
            b"\x1B]12;rgb:f/f/f\x07\x1B]12;?\x07",
            b"\x1B]12;rgb:ffff/ffff/ffff\x07",
        ),
        (
            b"\x1B]4;1;#000\x07\x1B]4;1;?\x07",
            b"\x1B]4;1;rgb:0000/0000/0000\x07",
        ),
        (
            b"\x1B]4;255;#fff\x07\x1B]4;255;?\x07",
            b"\x1B]4;255;rgb:f0f0/f0f0/f0f0\x07",
        ),
        (
            b"\x1B]4;256;?\x07\x1B]4;?\x07\x1B]4;1;??\x07\x1B]4;x;?\x07",
            b"",
        ),
        (b"\x1B]11;red\x07\x1B]11\x07\x1B]13;?\x07\x1B]x;?\x07", b""),
    ];
    assert_told(&rt, &rows);
}

// What is not told is not answered.
#[test]
fn untold(rt: HostRuntime) {
    let rows: [Row; 1] = [(b"\x1B]11;?\x07\x1B]4;1;?\x07", b"")];
    assert_rows(&rt, facts(), &rows);
}
