//! What decides on a screen beside what shows: places, margins, tab stops and hidden rows, by the VT510 manual and xterm's
//! pages; and xterm's colours.
use super::{assert_same, fed};
use ansi_html::contrast::Rgb;
use screen_pieces::{
    CellBytes, PlaceBytes, RESERVED_PLACE, StyleBytes, StyleRecord, Terminal, color_rgb,
};
use std::alloc::{AllocError, AllocGlobal, Global};
use std::process::Abort;
use std::test::Fail;
use xterm_palette::indexed;

fn shown(alloc: Global, stream: &[u8]) -> Result<Terminal, AllocError> {
    Ok(fed(Terminal::new(alloc, 10, 6)?, stream))
}

/// Row and column of a place; whether it is bold, in origin mode, with a pending wrap, G0, G1 and which of them is used; and
/// what is reserved.
type Told = (usize, usize, [u8; 6], [u8; RESERVED_PLACE]);

fn told(terminal: &Terminal, which: u8) -> Option<Told> {
    let PlaceBytes {
        row,
        column,
        style: StyleRecord {
            bytes: StyleBytes { bold, .. },
            ..
        },
        has_origin,
        wrap_pending,
        g0_draws,
        g1_draws,
        uses_g1,
        reserved,
    } = terminal.place(which)?;
    let flags = [bold, has_origin, wrap_pending, g0_draws, g1_draws, uses_g1];
    Some((row, column, flags, reserved))
}

fn assert_place(rt: &impl Abort, terminal: &Terminal, which: u8, wanted: Option<Told>) {
    assert_same(rt, &told(terminal, which), &wanted);
}

fn assert_margins(rt: &impl Abort, terminal: &Terminal, wanted: (usize, usize)) {
    assert_same(rt, &terminal.margins(), &wanted);
}

/// The stops of ten columns, in twelve bytes of room.
fn assert_stops(rt: &impl Abort, terminal: &Terminal, wanted: (bool, [u8; 12])) {
    let mut room = [7; 12];
    let answer = terminal.put_stops(&mut room);
    assert_same(rt, &(answer, room), &wanted);
}

/// The first character of a hidden row; 0 for none.
fn hidden(terminal: &Terminal, row: usize) -> u32 {
    let Some(cell) = terminal.cell(0, 0) else {
        return 0;
    };
    let mut room = [cell; 10];
    if !terminal.put_hidden_row(row, &mut room) {
        return 0;
    }
    let CellBytes { character, .. } = room[0];
    character
}

fn assert_hidden(rt: &impl Abort, terminal: &Terminal, row: usize, wanted: u32) {
    assert_same(rt, &hidden(terminal, row), &wanted);
}

fn assert_color(rt: &impl Abort, index: u8, wanted: Rgb) {
    assert_same(rt, &color_rgb(index), &wanted);
}

// DECSC keeps the style, origin mode, sets and a pending wrap.
#[test]
fn places(rt: HostRuntime) -> Result<(), Fail> {
    let terminal = shown(
        rt.alloc(),
        b"\x1B[2;5r\x1B[?6h\x1B[2;3H\x1B[1m\x1B)0\x0E\x1B7\x1B[m\x0F\x1B[?6l0123456789",
    )?;
    assert_place(&rt, &terminal, 0, Some((0, 10, [0, 0, 1, 0, 1, 0], [0; 2])));
    assert_place(&rt, &terminal, 1, Some((2, 2, [1, 1, 0, 0, 1, 1], [0; 2])));
    assert_place(&rt, &terminal, 2, None);
    assert_margins(&rt, &terminal, (1, 5));
    let terminal = fed(terminal, b"\x1B[?1049h");
    assert_place(&rt, &terminal, 1, Some((0, 0, [0; 6], [0; 2])));
    assert_place(&rt, &terminal, 2, Some((0, 10, [0, 0, 1, 0, 1, 0], [0; 2])));
    assert_place(&rt, &terminal, 3, None);
    drop(terminal);
    Ok(())
}

// TBC, and HTS in the fourth column
#[test]
fn stops(rt: HostRuntime) -> Result<(), Fail> {
    let terminal = shown(rt.alloc(), b"")?;
    assert_stops(&rt, &terminal, (true, [1, 0, 0, 0, 0, 0, 0, 0, 1, 0, 7, 7]));
    let terminal = fed(terminal, b"\x1B[3g\x1B[4G\x1BH");
    assert_stops(&rt, &terminal, (true, [0, 0, 0, 1, 0, 0, 0, 0, 0, 0, 7, 7]));
    drop(terminal);
    Ok(())
}

#[test]
fn hidden_rows(rt: HostRuntime) -> Result<(), Fail> {
    let terminal = shown(rt.alloc(), b"a\r\nb")?;
    assert_hidden(&rt, &terminal, 1, 0);
    let terminal = fed(terminal, b"\x1B[?1049hc");
    assert_hidden(&rt, &terminal, 1, 98);
    assert_hidden(&rt, &terminal, 6, 0);
    drop(terminal);
    Ok(())
}

#[test]
fn colors(rt: HostRuntime) -> Result<(), Fail> {
    let rgb = |red, green, blue| Rgb { red, green, blue };
    assert_color(&rt, 1, rgb(0xCD, 0, 0));
    assert_color(&rt, 12, rgb(0x5C, 0x5C, 0xFF));
    assert_color(&rt, 196, rgb(0xFF, 0, 0));
    assert_color(&rt, 110, rgb(0x87, 0xAF, 0xD7));
    assert_color(&rt, 244, rgb(0x80, 0x80, 0x80));
    assert_same(&rt, &indexed(110), &0x87AFD7);
    Ok(())
}
