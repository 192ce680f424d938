//! Answers of a screen of 20 columns and 6 rows.
use super::{Row, assert_answers};
use ansi_answers::Theme;
use ansi_screen::Screen;
use screen_answers::laws::{all_are_kept, any_pieces, parts};
use screen_answers::{Answering, facts_of};
use screen_html::LinkTable;
use std::alloc::{AllocError, AllocGlobal, Global};
use std::process::Abort;

fn made(alloc: Global) -> Result<Answering, AllocError> {
    Ok(Answering::new(
        Screen::new(alloc, 20, 6)?,
        LinkTable::new(alloc)?,
        Theme::none(),
    ))
}

fn assert_row(
    rt: &(impl Abort + AllocGlobal),
    mut answering: Answering,
    bytes: &[u8],
    wanted: &[u8],
) {
    let (front, back) = bytes.split_at(bytes.len() / 2);
    any_pieces(&mut answering, &[front, back]);
    assert_answers(rt, answering.waiting.answers(), wanted);
    assert!(rt; facts_of(&answering.screen).columns == 20);
    drop(answering);
}

fn assert_shown(rt: &(impl Abort + AllocGlobal), row: &Row) {
    match made(rt.alloc()) {
        Ok(answering) => assert_row(rt, answering, row.0, row.1),
        Err(_) => assert!(rt; false),
    }
}

// Places, modes and the size are what xterm 379 answers; the settings are from ctlseqs.
#[test]
fn shown(rt: HostRuntime) {
    let rows: [Row; 12] = [
        (b"\x1B[3;4H\x1B[6n", b"\x1B[3;4R"),
        (b"\x1B[20Gx\x1B[6n", b"\x1B[1;20R"),
        (b"\x1B[2;4r\x1B[?6h\x1B[2;3H\x1B[6n", b"\x1B[2;3R"),
        (b"x\x1B[?6n", b"\x1B[?1;2;1R"),
        (b"\x1B[18t", b"\x1B[8;6;20t"),
        (b"\x1B[4h\x1B[4$p", b"\x1B[4;1$y"),
        (
            b"\x1B[?7l\x1B[?7$p\x1B[?25l\x1B[?25$p",
            b"\x1B[?7;2$y\x1B[?25;2$y",
        ),
        (
            b"\x1B[?6h\x1B[?6$p\x1Bc\x1B[?6$p",
            b"\x1B[?6;1$y\x1B[?6;2$y",
        ),
        (b"\x1B[?1049h\x1B[?1049$p", b"\x1B[?1049;1$y"),
        (b"\x1B[2;4r\x1BP$qr\x1B\\", b"\x1BP1$r2;4r\x1B\\"),
        (b"\x1B[1;31m\x1BP$qm\x1B\\", b"\x1BP1$r0;1;31m\x1B\\"),
        (b"ls\r\n\x1B]2;ls\x07\x1B[21t", b""),
    ];
    for row in rows {
        assert_shown(&rt, &row);
    }
    parts();
    all_are_kept();
}
