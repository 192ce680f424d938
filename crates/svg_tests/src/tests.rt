//! Pictures of small screens, written out by hand after the definitions of SVG and of XML.
use ansi_html::{Scheme, has_ground, put_character, put_declarations, put_escaped, put_ground};
use ansi_screen::Screen;
use ansi_style::{Color, Hue, Style};
use anstyle_parse::io::{Fault, FromWrite, Output};
use anstyle_parse::{Parser, Utf8Parser};
use screen_html::LinkTable;
use screen_svg::laws::{pictures, runs};
use screen_svg::{Drawing, FONT, MOST_ABOVE, write_shown, write_svg};
use std::alloc::{AllocError, AllocGlobal, Global};
use std::process::Abort;

/// What was written, and whether a write failed.
type Ran = (Vec<u8>, Result<(), Fault>);

/// An output into memory.
fn memory(alloc: Global) -> Output<FromWrite<Vec<u8>>> {
    Output::new(FromWrite::new(Vec::new(alloc)))
}

/// A screen of four columns and one row after some bytes.
fn shown(alloc: Global, bytes: &[u8]) -> Result<Screen, AllocError> {
    let mut screen = Screen::new(alloc, 4, 1)?;
    let mut parser = Parser::<Utf8Parser>::new();
    for byte in bytes {
        parser.advance(&mut screen, *byte);
    }
    Ok(screen)
}

/// Its picture, without links.
fn drawn(
    alloc: Global,
    bytes: &[u8],
    drawing: Drawing,
    title: &str,
    font: &str,
) -> Result<Ran, AllocError> {
    let screen = shown(alloc, bytes)?;
    let links = LinkTable::new(alloc)?;
    let output = memory(alloc);
    let (writer, answer) = write_svg(&screen, &links, drawing, title, font, output).finish();
    Ok((writer.into_inner(), answer))
}

fn assert_written(rt: &impl Abort, ran: Ran, wanted: &[u8]) {
    let (text, answer) = ran;
    assert_eq!(rt; (text.as_slice(), answer), (wanted, Ok(())));
    drop(text);
}

fn assert_drawn(
    rt: &(impl Abort + AllocGlobal),
    bytes: &[u8],
    drawing: Drawing,
    title: &str,
    font: &str,
    wanted: &[u8],
) {
    match drawn(rt.alloc(), bytes, drawing, title, font) {
        Ok(ran) => assert_written(rt, ran, wanted),
        Err(_) => assert!(rt; false),
    }
}

/// For light pages, without cursor and window.
const LIGHT: Drawing = Drawing {
    scheme: Scheme::Light,
    cursor: false,
    window: false,
};

const OF_LIGHT: &[u8] =
    b"<svg xmlns=\"http://www.w3.org/2000/svg\" viewBox=\"0 0 40 20\" width=\"40\" height=\"20\" \
    font-family=\"F\" font-size=\"16.61\" xml:space=\"preserve\">\
    <style>svg{color-scheme:light;color:#000000}.page{color:#ffffff}.bar{color:#d9d9d9}\
    text,path,rect,circle{fill:currentColor}text{white-space:pre}a{color:inherit}.shape{fill:none}.cursor{fill:none;stroke:currentColor}circle{fill-opacity:.15}\
    .name{text-anchor:middle}</style><rect x=\"0\" y=\"0\" width=\"40\" height=\"20\" class=\"page\"></rect>\
    <text x=\"0\" y=\"15\" textLength=\"20\" style=\"font-weight:bold;\">&lt;b</text>\
    <text x=\"20\" y=\"15\" textLength=\"20\">\xe4\xb8\xad</text></svg>";

const IN_WINDOW: &[u8] =
    b"<svg xmlns=\"http://www.w3.org/2000/svg\" viewBox=\"0 -30 40 50\" width=\"40\" height=\"50\" \
    font-family=\"F\" font-size=\"16.61\" xml:space=\"preserve\"><title>&amp;\xef\xbf\xbd</title>\
    <style>svg{color-scheme:dark;color:#ffffff}.page{color:#1e1e1e}.bar{color:#3b3b3b}\
    text,path,rect,circle{fill:currentColor}text{white-space:pre}a{color:inherit}.shape{fill:none}.cursor{fill:none;stroke:currentColor}circle{fill-opacity:.15}\
    .name{text-anchor:middle}</style><rect x=\"0\" y=\"0\" width=\"40\" height=\"20\" class=\"page\"></rect>\
    <rect x=\"0\" y=\"-30\" width=\"40\" height=\"30\" class=\"bar\"></rect>\
    <circle cx=\"20\" cy=\"-15\" r=\"6\"></circle><circle cx=\"40\" cy=\"-15\" r=\"6\"></circle>\
    <circle cx=\"60\" cy=\"-15\" r=\"6\"></circle><text x=\"20\" y=\"-10\" class=\"name\">&amp;\xef\xbf\xbd</text>\
    <rect x=\"0\" y=\"0\" width=\"10\" height=\"20\" style=\"color:inherit;\"></rect>\
    <text x=\"0\" y=\"15\" textLength=\"10\" style=\"color:#000000;background-color:#ffffff;\">r</text>\
    <rect x=\"10\" y=\"0\" width=\"10\" height=\"20\" style=\"color:inherit;\"></rect>\
    <rect x=\"10\" y=\"0\" width=\"10\" height=\"20\" class=\"cursor\"></rect></svg>";

// Reversed text is black on the white of a dark page's text (xterm's ctlseqs, SGR 7); a title has no controls.
#[test]
fn drawings(rt: HostRuntime) {
    let dark = Drawing {
        scheme: Scheme::Dark,
        cursor: true,
        window: true,
    };
    let bold = "\x1b[1m<b\x1b[m中".as_bytes();
    assert_drawn(&rt, bold, LIGHT, "", "F", OF_LIGHT);
    assert_drawn(&rt, b"\x1b[7mr\x1b[8mh\x08", dark, "&\u{1}", "F", IN_WINDOW);
    assert!(rt; FONT.ends_with("monospace"));
    pictures();
    runs();
}

/// Two cells of line drawing, and what two rows of letters showed.
const OF_LINES: &[u8] = b"<path d=\"M0 0m0 10h10v1h-10zm10-10m5 0h1v20h-1zm5 0\"></path>\
    <text x=\"0\" y=\"15\" textLength=\"20\" class=\"shape\">\xe2\x94\x80\xe2\x94\x82</text></svg>";

const SHOWN: &[u8] = b"<text x=\"0\" y=\"15\" textLength=\"10\">a</text>\
    <text x=\"0\" y=\"35\" textLength=\"10\">b</text></svg>";

/// The picture of all that such a screen showed which keeps the rows that left it.
fn all_drawn(alloc: Global, bytes: &[u8]) -> Result<Ran, AllocError> {
    let mut screen = Screen::with_history(alloc, 4, 1, MOST_ABOVE)?;
    let mut parser = Parser::<Utf8Parser>::new();
    for byte in bytes {
        parser.advance(&mut screen, *byte);
    }
    let links = LinkTable::new(alloc)?;
    let (writer, answer) = write_shown(&screen, &links, LIGHT, "", "F", memory(alloc)).finish();
    Ok((writer.into_inner(), answer))
}

fn assert_ends(rt: &impl Abort, ran: Result<Ran, AllocError>, wanted: &[u8]) {
    match ran {
        Ok((text, answer)) => {
            assert_eq!(rt; answer, Ok(()));
            assert!(rt; text.as_slice().ends_with(wanted));
            drop(text);
        }
        Err(_) => assert!(rt; false),
    }
}

// Line drawing is in the middle of its cell (code chart U+2500), and a row that has left stands above the others.
#[test]
fn shapes_and_rows(rt: HostRuntime) {
    let lines = "\u{2500}\u{2502}".as_bytes();
    assert_ends(&rt, drawn(rt.alloc(), lines, LIGHT, "", "F"), OF_LINES);
    assert_ends(&rt, all_drawn(rt.alloc(), b"a\r\nb"), SHOWN);
}

/// Bold, on a red ground.
fn bold_on_red() -> Style {
    Style {
        bold: true,
        background: Color::Named(Hue::Red),
        ..Style::default()
    }
}

/// A style alone, its ground, and text.
fn said(alloc: Global, style: &Style) -> Ran {
    let mut output = memory(alloc);
    put_declarations(&mut output, Scheme::Light, style);
    put_ground(&mut output, style);
    put_escaped(&mut output, b"<a>");
    put_character(&mut output, '&');
    let (writer, answer) = output.finish();
    (writer.into_inner(), answer)
}

// Red is xterm's; white has a contrast of 5.9:1 on it (WCAG 2.1, 1.4.3).
#[test]
fn styles(rt: HostRuntime) {
    let wanted =
        b"color:#ffffff;background-color:#cd0000;font-weight:bold;color:#cd0000;&lt;a&gt;&amp;";
    assert_written(&rt, said(rt.alloc(), &bold_on_red()), wanted);
    assert!(rt; has_ground(&bold_on_red()));
    assert!(rt; !has_ground(&Style::default()));
}
