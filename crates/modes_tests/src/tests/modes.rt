//! What a stream asks for.
use super::{after, assert_same};
use ansi_modes::fields::{first_field, number_of, two_fields};
use ansi_modes::laws::{any_pieces, determined, equality, printed, resets, telling};
use ansi_modes::{
    Asked, Both, Changes, Colors, Encoding, Field, KeyFlags, MAX_TEXT, Modes, Palette, Progress,
    ProgressState, Rgb, SavedTitles, Shape, Switch, Text, Titles, Tracking,
};
use anstyle_parse::{Params, Parser, Utf8Parser};
use std::process::Abort;

/// The modes after the bytes.
fn modes(bytes: &[u8]) -> Modes {
    after(bytes).modes
}

fn assert_modes(rt: &impl Abort, bytes: &[u8], wanted: Modes) {
    assert_same(rt, &modes(bytes), &wanted);
}

/// A switch alone.
fn switched(switch: Switch) -> Modes {
    let mut modes = Modes::none();
    match switch {
        Switch::CursorKeys => modes.cursor_keys = true,
        Switch::Keypad => modes.keypad = true,
        Switch::Backspace => modes.backspace = true,
        Switch::Reverse => modes.reverse = true,
        Switch::Blink => modes.blink = true,
        Switch::Focus => modes.focus = true,
        Switch::AlternateScroll => modes.alternate_scroll = true,
        Switch::Alternate => modes.alternate = true,
        Switch::Paste => modes.paste = true,
        Switch::Synchronized => modes.synchronized = true,
    }
    modes
}

fn tracking(tracking: Tracking) -> Modes {
    Modes {
        tracking: Some(tracking),
        ..Modes::none()
    }
}

fn encoding(encoding: Encoding) -> Modes {
    Modes {
        encoding: Some(encoding),
        ..Modes::none()
    }
}

// ctlseqs, "DEC Private Mode Set".
#[test]
fn switches(rt: HostRuntime) {
    assert_modes(&rt, b"\x1b[?1h", switched(Switch::CursorKeys));
    assert_modes(&rt, b"\x1b[?5h", switched(Switch::Reverse));
    assert_modes(&rt, b"\x1b[?12h", switched(Switch::Blink));
    assert_modes(&rt, b"\x1b[?66h", switched(Switch::Keypad));
    assert_modes(&rt, b"\x1b=", switched(Switch::Keypad));
    assert_modes(&rt, b"\x1b[?66h\x1b>", Modes::none());
    assert_modes(&rt, b"\x1b[?67h", switched(Switch::Backspace));
    assert_modes(&rt, b"\x1b[?1004h", switched(Switch::Focus));
    assert_modes(&rt, b"\x1b[?1007h", switched(Switch::AlternateScroll));
    assert_modes(&rt, b"\x1b[?1049h", switched(Switch::Alternate));
    assert_modes(&rt, b"\x1b[?2004h", switched(Switch::Paste));
    assert_modes(&rt, b"\x1b[?2026h", switched(Switch::Synchronized));
}

// The same in ways that ask for nothing, and more modes at once.
#[test]
fn sequences(rt: HostRuntime) {
    assert_modes(&rt, b"\x1b[1h\x1b[>1h\x1b[?1$h\x1b#=", Modes::none());
    assert_modes(&rt, b"\x1b[?3;25;7h", Modes::none());
    assert_modes(&rt, b"\x1b[?1;2004;5h\x1b[?1;5l", switched(Switch::Paste));
    assert_modes(&rt, b"\x1b[?2004h\x1b[?2004l", Modes::none());
}

// ctlseqs, "Mouse Tracking"; xterm 379 where two are asked for.
#[test]
fn mouse(rt: HostRuntime) {
    assert_modes(&rt, b"\x1b[?9h", tracking(Tracking::Presses));
    assert_modes(&rt, b"\x1b[?1000h", tracking(Tracking::Buttons));
    assert_modes(&rt, b"\x1b[?1003h\x1b[?1002h", tracking(Tracking::Drags));
    assert_modes(&rt, b"\x1b[?1003h", tracking(Tracking::Motion));
    assert_modes(&rt, b"\x1b[?1003h\x1b[?1000l", Modes::none());
    assert_modes(&rt, b"\x1b[?1006;1015h", encoding(Encoding::Urxvt));
    assert_modes(&rt, b"\x1b[?1015h\x1b[?1006l", encoding(Encoding::Urxvt));
    assert_modes(&rt, b"\x1b[?1016h", encoding(Encoding::Pixels));
    assert_modes(&rt, b"\x1b[?1006h\x1b[?1005h", encoding(Encoding::Sgr));
    assert_modes(&rt, b"\x1b[?1016h\x1b[?1016l", Modes::none());
}

/// The modes that RIS and DECSTR may reset, set.
const ALL: &[u8] =
    b"\x1b[?1;5;12;66;67;1003;1004;1006;1007;1049;2004;2026h\x1b[>4;2m\x1b[>5u\x1b[4 q\x1b[?12h";

/// What DECSTR leaves of them.
fn softly_reset() -> Modes {
    Modes {
        backspace: true,
        reverse: true,
        focus: true,
        alternate_scroll: true,
        alternate: true,
        paste: true,
        synchronized: true,
        tracking: Some(Tracking::Motion),
        encoding: Some(Encoding::Sgr),
        ..Modes::none()
    }
}

/// What was asked for by ALL and the bytes.
fn after_all(bytes: &[u8]) -> Asked {
    let mut asked = after(ALL);
    let mut parser = Parser::<Utf8Parser>::new();
    parser.advance_all(&mut asked, bytes);
    asked
}

/// The shape, modifyOtherKeys and the flags of keys.
fn keys(asked: &Asked) -> (Shape, u16, u16) {
    (asked.shape, asked.other_keys, asked.key_flags())
}

fn assert_reset(rt: &impl Abort, asked: Asked, modes: Modes, wanted: (Shape, u16, u16)) {
    assert_same(rt, &asked.modes, &modes);
    assert_same(rt, &keys(&asked), &wanted);
    drop(asked);
}

// xterm 379, asked by DECRQM after them.
#[test]
fn reset(rt: HostRuntime) {
    let ris = switched(Switch::AlternateScroll);
    assert_reset(&rt, after_all(b"\x1bc"), ris, (Shape::Own, 0, 0));
    assert_reset(
        &rt,
        after_all(b"\x1b[!p"),
        softly_reset(),
        (Shape::Own, 0, 5),
    );
}

fn assert_shape(rt: &impl Abort, bytes: &[u8], shape: Shape, blink: bool) {
    let asked = after(bytes);
    assert_same(rt, &(asked.shape, asked.modes.blink), &(shape, blink));
    drop(asked);
}

// ctlseqs, DECSCUSR; xterm 379 for what 12 and numbers above 6 do.
#[test]
fn shapes(rt: HostRuntime) {
    assert_shape(&rt, b"", Shape::Own, false);
    assert_shape(&rt, b"\x1b[3 q\x1b[ q", Shape::Own, true);
    assert_shape(&rt, b"\x1b[1 q", Shape::Block, true);
    assert_shape(&rt, b"\x1b[2 q", Shape::Block, false);
    assert_shape(&rt, b"\x1b[3 q", Shape::Underline, true);
    assert_shape(&rt, b"\x1b[4 q", Shape::Underline, false);
    assert_shape(&rt, b"\x1b[5;3 q", Shape::Bar, true);
    assert_shape(&rt, b"\x1b[6 q", Shape::Bar, false);
    assert_shape(&rt, b"\x1b[3 q\x1b[7 q", Shape::Underline, true);
    assert_shape(&rt, b"\x1b[5 q\x1b[?12l", Shape::Bar, false);
}

fn assert_keys(rt: &impl Abort, bytes: &[u8], other_keys: u16, flags: u16) {
    let asked = after(bytes);
    assert_same(
        rt,
        &(asked.other_keys, asked.key_flags()),
        &(other_keys, flags),
    );
    drop(asked);
}

// ctlseqs, XTMODKEYS, and what xterm 379 answers to XTQMODKEYS.
#[test]
fn other_keys(rt: HostRuntime) {
    assert_keys(&rt, b"\x1b[>4;1m", 1, 0);
    assert_keys(&rt, b"\x1b[>4;2m", 2, 0);
    assert_keys(&rt, b"\x1b[>4;2m\x1b[>4m", 0, 0);
    assert_keys(&rt, b"\x1b[>4;2m\x1b[>4n", 0, 0);
    assert_keys(&rt, b"\x1b[>4;2m\x1b[>m\x1b[>2;0m\x1b[>n\x1b[4;0m", 2, 0);
    assert_keys(&rt, b"\x1b[>4;9m", 0, 0);
}

// kitty's page, "Progressive enhancement".
#[test]
fn key_flags(rt: HostRuntime) {
    assert_keys(&rt, b"\x1b[=5u", 0, 5);
    assert_keys(&rt, b"\x1b[=5;1u\x1b[=2;2u", 0, 7);
    assert_keys(&rt, b"\x1b[=7u\x1b[=2;3u", 0, 5);
    assert_keys(&rt, b"\x1b[=7u\x1b[=2;4u", 0, 7);
    assert_keys(&rt, b"\x1b[>1u\x1b[>3u", 0, 3);
    assert_keys(&rt, b"\x1b[>1u\x1b[>3u\x1b[<u", 0, 1);
    assert_keys(&rt, b"\x1b[>1u\x1b[>3u\x1b[<2u", 0, 0);
    assert_keys(&rt, b"\x1b[>1u\x1b[>3u\x1b[<9u", 0, 0);
    assert_keys(&rt, b"\x1b[>1u\x1b[>u", 0, 0);
    assert_keys(&rt, b"\x1b[=33u", 0, 1);
    assert_keys(&rt, b"\x1b[>1u\x1b[?1049h", 0, 0);
    assert_keys(&rt, b"\x1b[>1u\x1b[?1049h\x1b[>8u\x1b[?1049l", 0, 1);
    assert_keys(&rt, b"\x1b[5u\x1b[?5u", 0, 0);
}

/// Nine times flags come on top of others.
const NINE: &[u8] = b"\x1b[>1u\x1b[>2u\x1b[>3u\x1b[>4u\x1b[>5u\x1b[>6u\x1b[>7u\x1b[>8u\x1b[>9u";

fn depth(flags: &KeyFlags) -> usize {
    flags.depth()
}

// kitty keeps eight, and the oldest go.
#[test]
fn a_full_stack(rt: HostRuntime) {
    let asked = after(NINE);
    assert_same(
        &rt,
        &(depth(&asked.main_flags), asked.main_flags.in_force()),
        &(8, 9),
    );
    assert_same(&rt, &depth(&asked.alternate_flags), &0);
    drop(asked);
}

fn text(text: &Text) -> &str {
    text.as_str()
}

fn assert_pair(rt: &impl Abort, titles: &Titles, window: &str, icon: &str) {
    assert_eq!(rt; (text(&titles.window), text(&titles.icon)), (window, icon));
}

fn assert_titles(rt: &impl Abort, bytes: &[u8], window: &str, icon: &str) {
    let asked = after(bytes);
    assert_pair(rt, &asked.titles, window, icon);
    drop(asked);
}

// ctlseqs, "Operating System Commands".
#[test]
fn titles(rt: HostRuntime) {
    assert_titles(&rt, b"\x1b]0;a\x07", "a", "a");
    assert_titles(&rt, b"\x1b]1;a\x07", "", "a");
    assert_titles(&rt, b"\x1b]2;a\x1b\\", "a", "");
    assert_titles(&rt, b"\x1b]02;a\x07\x1b];b\x07\x1b]2;c\x07", "c", "b");
    assert_titles(&rt, b"\x1b]2;a;b;;c\x07", "a;b;;c", "");
    assert_titles(
        &rt,
        b"\x1b]2;a\x07\x1b]3;b\x07\x1b]x;c\x07\x1b]20;d\x07",
        "a",
        "",
    );
    assert_titles(&rt, b"\x1b]0;a\x07\x1b]2\x07", "", "a");
    assert_titles(
        &rt,
        "\x1b]2;\u{e9}\u{6f22}\x07".as_bytes(),
        "\u{e9}\u{6f22}",
        "",
    );
}

// No control comes through, of C1 neither, and what is no UTF-8 ends a part.
#[test]
fn inert_titles(rt: HostRuntime) {
    assert_titles(&rt, b"\x1b]2;a\x01\x7f\tb\x07", "ab", "");
    assert_titles(
        &rt,
        "\x1b]2;a\u{85}\u{9b}31mb\u{a0}\x07".as_bytes(),
        "a31mb\u{a0}",
        "",
    );
    assert_titles(&rt, b"\x1b]2;a\xffb;c\x07", "a;c", "");
    assert_titles(&rt, b"\x1b]0;a\x07\x1bc\x1b[!p", "a", "a");
}

// What xterm 379 reports of its titles.
#[test]
fn saved_titles(rt: HostRuntime) {
    assert_titles(&rt, b"\x1b]0;a\x07\x1b[22t\x1b]0;b\x07\x1b[23t", "a", "a");
    assert_titles(
        &rt,
        b"\x1b]0;a\x07\x1b[22;2t\x1b]0;b\x07\x1b[23;0t",
        "a",
        "a",
    );
    assert_titles(
        &rt,
        b"\x1b]0;a\x07\x1b[22;0t\x1b]0;b\x07\x1b[23;1t",
        "b",
        "a",
    );
    assert_titles(
        &rt,
        b"\x1b]0;a\x07\x1b[22;0t\x1b]0;b\x07\x1b[23;2t",
        "a",
        "b",
    );
    assert_titles(
        &rt,
        b"\x1b]0;a\x07\x1b[22;0t\x1b]0;b\x07\x1b[23;3t\x1b[23;0t",
        "b",
        "b",
    );
    assert_titles(
        &rt,
        b"\x1b]0;a\x07\x1b[22;0t\x1b]0;b\x07\x1b[22;2t\x1b]0;c\x07\x1b[23;0t",
        "b",
        "a",
    );
    assert_titles(
        &rt,
        b"\x1b]0;a\x07\x1b[22;0t\x1b]0;b\x07\x1b[22;1t\x1b]0;c\x07\x1b[23;2t",
        "a",
        "c",
    );
    assert_titles(&rt, b"\x1b]0;a\x07\x1b[23t", "a", "a");
    assert_titles(
        &rt,
        b"\x1b]0;a\x07\x1b[22;0;0t\x1b]0;b\x07\x1bc\x1b[23;0;0t",
        "a",
        "a",
    );
}

/// Eleven titles, each saved.
const ELEVEN: &[u8] =
    b"\x1b]2;0\x07\x1b[22t\x1b]2;1\x07\x1b[22t\x1b]2;2\x07\x1b[22t\x1b]2;3\x07\x1b[22t\x1b]2;4\x07\x1b[22t\x1b]2;5\x07\x1b[22t\x1b]2;6\x07\x1b[22t\x1b]2;7\x07\x1b[22t\x1b]2;8\x07\x1b[22t\x1b]2;9\x07\x1b[22t\x1b]2;x\x07\x1b[22t";

fn count(saved: &SavedTitles) -> usize {
    saved.len()
}

/// What was asked for by ELEVEN and ten or more restored.
fn after_eleven() -> Asked {
    let mut asked = after(ELEVEN);
    let mut parser = Parser::<Utf8Parser>::new();
    parser.advance_all(
        &mut asked,
        b"\x1b[23t\x1b[23t\x1b[23t\x1b[23t\x1b[23t\x1b[23t\x1b[23t\x1b[23t\x1b[23t\x1b[23t\x1b[23t",
    );
    asked
}

// Ten are kept.
#[test]
fn eleven_titles(rt: HostRuntime) {
    let asked = after(ELEVEN);
    assert_same(&rt, &count(&asked.saved_titles), &10);
    drop(asked);
    let asked = after_eleven();
    assert_pair(&rt, &asked.titles, "1", "");
    assert_same(&rt, &count(&asked.saved_titles), &0);
    drop(asked);
}

fn assert_folder(rt: &impl Abort, bytes: &[u8], wanted: &str) {
    let asked = after(bytes);
    assert_eq!(rt; text(&asked.folder), wanted);
    drop(asked);
}

fn assert_progress(rt: &impl Abort, bytes: &[u8], state: ProgressState, percent: u16) {
    let asked = after(bytes);
    assert_same(rt, &asked.progress, &Progress { state, percent });
    drop(asked);
}

// VTE's vte.sh; ConEmu's page, "ConEmu specific OSC".
#[test]
fn folder_and_progress(rt: HostRuntime) {
    assert_folder(
        &rt,
        b"\x1b]7;file://host/home/me%20x\x1b\\",
        "file://host/home/me%20x",
    );
    assert_progress(&rt, b"\x1b]9;4;1;30\x07", ProgressState::Normal, 30);
    assert_progress(&rt, b"\x1b]9;4;1;300\x07", ProgressState::Normal, 100);
    assert_progress(
        &rt,
        b"\x1b]9;4;1;30\x07\x1b]9;4;2\x07",
        ProgressState::Failed,
        30,
    );
    assert_progress(
        &rt,
        b"\x1b]9;4;1;30\x07\x1b]9;4;4;50\x07",
        ProgressState::Paused,
        50,
    );
    assert_progress(&rt, b"\x1b]9;4;3\x1b\\", ProgressState::Unknown, 0);
    assert_progress(
        &rt,
        b"\x1b]9;4;1;30\x07\x1b]9;4;0\x07",
        ProgressState::Hidden,
        0,
    );
    assert_progress(
        &rt,
        b"\x1b]9;4;1;30\x07\x1b]9;4;5\x07\x1b]9;1;2\x07",
        ProgressState::Normal,
        30,
    );
    assert_progress(&rt, b"\x1b]9;4;1;30\x07\x1bc", ProgressState::Hidden, 0);
}

/// A colour.
fn rgb(red: u8, green: u8, blue: u8) -> Option<Rgb> {
    Some(Rgb { red, green, blue })
}

/// What the palette has for 5.
fn fifth(palette: &Palette) -> Option<Rgb> {
    palette.get(5)
}

fn assert_fifth(rt: &impl Abort, bytes: &[u8], wanted: Option<Rgb>) {
    let asked = after(bytes);
    assert_same(rt, &fifth(&asked.colors.palette), &wanted);
    drop(asked);
}

// XParseColor(3), and what xterm 379 reports of it.
#[test]
fn palette(rt: HostRuntime) {
    assert_fifth(&rt, b"", None);
    assert_fifth(&rt, b"\x1b]4;5;rgb:1/2/3\x07", rgb(0x11, 0x22, 0x33));
    assert_fifth(&rt, b"\x1b]4;5;rgb:12/34/56\x07", rgb(0x12, 0x34, 0x56));
    assert_fifth(&rt, b"\x1b]4;5;rgb:123/456/789\x07", rgb(0x12, 0x45, 0x78));
    assert_fifth(
        &rt,
        b"\x1b]4;5;RGB:1234/5678/9aBC\x07",
        rgb(0x12, 0x56, 0x9A),
    );
    assert_fifth(&rt, b"\x1b]4;5;rgb:1/22/3333\x07", rgb(0x11, 0x22, 0x33));
    assert_fifth(&rt, b"\x1b]4;5;#3a7\x07", rgb(0x30, 0xA0, 0x70));
    assert_fifth(&rt, b"\x1b]4;005;#0a0a0a\x07", rgb(10, 10, 10));
    assert_fifth(&rt, b"\x1b]4;5;#123456789\x07", rgb(0x12, 0x45, 0x78));
    assert_fifth(&rt, b"\x1b]4;5;#123456789abc\x07", rgb(0x12, 0x56, 0x9A));
    assert_fifth(
        &rt,
        b"\x1b]4;5;#1234;5;#12345;5;rgb:1/2;5;rgb:1/2/3/4;5;rgb:g/1/1;5;#\x07",
        None,
    );
    assert_fifth(&rt, b"\x1b]4;256;#111;x;#222;6;#333\x07", None);
    assert_fifth(&rt, b"\x1b]4;6;#111;5;#222\x07", rgb(0x20, 0x20, 0x20));
    assert_fifth(
        &rt,
        b"\x1b]4;5;#222\x07\x1b]4;5;?\x07",
        rgb(0x20, 0x20, 0x20),
    );
    assert_fifth(
        &rt,
        b"\x1b]4;5;#222\x07\x1b]104;6\x07",
        rgb(0x20, 0x20, 0x20),
    );
    assert_fifth(&rt, b"\x1b]4;5;#222\x07\x1b]104;6;5\x07", None);
    assert_fifth(&rt, b"\x1b]4;5;#222\x07\x1b]104\x07", None);
    assert_fifth(&rt, b"\x1b]4;5;#222\x07\x1bc", None);
    assert_fifth(&rt, b"\x1b]4;5;#222\x07\x1b[!p", None);
}

/// The colours of text, background and cursor.
fn others(colors: &Colors) -> (Option<Rgb>, Option<Rgb>, Option<Rgb>) {
    (colors.foreground, colors.background, colors.cursor)
}

fn assert_others(rt: &impl Abort, bytes: &[u8], wanted: (Option<Rgb>, Option<Rgb>, Option<Rgb>)) {
    let asked = after(bytes);
    assert_same(rt, &others(&asked.colors), &wanted);
    drop(asked);
}

// ctlseqs, OSC 10 to 19; xterm 379 for resets.
#[test]
fn other_colors(rt: HostRuntime) {
    let (one, two, three) = (rgb(17, 17, 17), rgb(34, 34, 34), rgb(51, 51, 51));
    assert_others(&rt, b"\x1b]10;rgb:1/1/1\x07", (one, None, None));
    assert_others(&rt, b"\x1b]11;rgb:2/2/2\x1b\\", (None, two, None));
    assert_others(
        &rt,
        b"\x1b]12;rgb:3/3/3\x07\x1b]13;rgb:1/1/1\x07",
        (None, None, three),
    );
    assert_others(
        &rt,
        b"\x1b]10;rgb:1/1/1;rgb:2/2/2;rgb:3/3/3\x07\x1bc\x1b[!p",
        (one, two, three),
    );
    assert_others(
        &rt,
        b"\x1b]10;?;rgb:2/2/2\x07\x1b]11;?;rgb:3/3/3\x07",
        (None, two, three),
    );
    assert_others(
        &rt,
        b"\x1b]10;rgb:1/1/1;rgb:2/2/2;rgb:3/3/3\x07\x1b]110\x07",
        (None, two, three),
    );
    assert_others(
        &rt,
        b"\x1b]10;rgb:1/1/1;rgb:2/2/2;rgb:3/3/3\x07\x1b]111\x07\x1b]112\x07",
        (one, None, None),
    );
}

/// The bits of what was set, and those of what was set after it was asked.
fn bits(first: &[u8], second: &[u8]) -> (u16, u16) {
    let mut asked = after(first);
    let before = asked.take_changes().bits();
    let mut parser = Parser::<Utf8Parser>::new();
    parser.advance_all(&mut asked, second);
    let changes: Changes = asked.take_changes();
    (before, changes.bits())
}

fn assert_bits(rt: &impl Abort, first: &[u8], second: &[u8], wanted: (u16, u16)) {
    assert_same(rt, &bits(first, second), &wanted);
}

// Each bit by what it stands for.
#[test]
fn changes(rt: HostRuntime) {
    assert_bits(&rt, b"a\x1b[31m\x1b[H", b"", (0, 0));
    assert_bits(&rt, b"\x1b[?1h", b"\x1b[?1000h", (1, 2));
    assert_bits(&rt, b"\x1b[?1004h", b"\x1b[?2004h", (4, 8));
    assert_bits(&rt, b"\x1b[?2026h", b"\x1b[?5h", (16, 32));
    assert_bits(&rt, b"\x1b[2 q", b"\x1b]2;a\x07", (64, 128));
    assert_bits(&rt, b"\x1b]1;a\x07", b"\x1b]7;a\x07", (256, 512));
    assert_bits(&rt, b"\x1b]9;4;1;1\x07", b"\x07", (1024, 2048));
    assert_bits(&rt, b"\x1b[!p", b"\x1bc", (4161, 5247));
    assert_bits(&rt, b"\x1b]4;1;#123\x07", b"\x1b]110\x07", (4096, 4096));
    assert_bits(
        &rt,
        b"\x1b]0;a\x07\x1b[>1u\x1b[?1049h",
        b"\x1b[?1005h",
        (385, 0),
    );
}

// BEL that ends no command.
#[test]
fn bells(rt: HostRuntime) {
    assert_same(&rt, &after(b"\x07a\x07\x1b]2;t\x07").bells, &2);
}

/// The modes, how many titles and flags are kept, the title, the palette's second colour, and what is told.
fn parts(asked: &mut Asked) -> (Modes, usize, usize, bool, Option<Rgb>, u16) {
    let saved = asked.saved_titles.len();
    let flags = asked.main_flags.depth();
    let titled = asked.titles.icon.as_str() == "b";
    let color = asked.colors.palette.get(1);
    (
        asked.modes,
        saved,
        flags,
        titled,
        color,
        asked.take_changes().bits(),
    )
}

// A copy has all of it; a new beginning has none, and all counts as set.
#[test]
fn copied(rt: HostRuntime) {
    let bytes =
        b"\x1b[?67h\x1b[22t\x1b]2;a\x07\x1b[22t\x1b]1;b\x07\x1b[>1u\x1b[>2u\x1b]4;1;#123\x07";
    let mut asked = after(bytes);
    let mut copy = asked.copy();
    let color = Some(Rgb {
        red: 0x10,
        green: 0x20,
        blue: 0x30,
    });
    let all = (switched(Switch::Backspace), 2, 2, true, color, 4481);
    assert_same(&rt, &parts(&mut copy), &all);
    drop(copy);
    assert_same(&rt, &parts(&mut asked), &all);
    asked.restart();
    assert_same(
        &rt,
        &parts(&mut asked),
        &(Modes::none(), 0, 0, false, None, 8191),
    );
    drop(asked);
}

/// Two get the same.
fn both(bytes: &[u8]) -> (u32, u16) {
    let mut both = Both {
        first: Asked::new(),
        second: Asked::new(),
    };
    let mut parser = Parser::<Utf8Parser>::new();
    parser.advance_texts(&mut both, bytes);
    (both.first.bells, both.second.key_flags())
}

fn fields(params: &Params) -> (u16, u16) {
    two_fields(params)
}

// The other names of the library.
#[test]
fn names(rt: HostRuntime) {
    determined();
    resets();
    printed();
    telling();
    equality();
    let mut asked = Asked::new();
    any_pieces(&mut asked, &[b"\x1b[?", b"1h"]);
    assert_same(
        &rt,
        &asked.modes.has(Field::Switches(Switch::CursorKeys)),
        &true,
    );
    drop(asked);
    assert_same(&rt, &both(b"\x07\x1b[=3u"), &(1, 3));
    assert_same(
        &rt,
        &(first_field(&[7, 8]), number_of(b"70000"), number_of(b"7x")),
        &(7, Some(65535), None),
    );
    assert_same(&rt, &MAX_TEXT, &1024);
}
