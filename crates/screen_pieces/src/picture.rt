//! What a screen shows, or showed, as a picture, in the caller's room.
ghost use Rattle.std.specs.Prelude.{◌≡◌, ◌⊎◌, IfOk, IfErr, IfSome};
ghost use Rattle.anstyle_parse.specs.Io.Output.{Adds};
ghost use Rattle.screen_pieces.specs.Picture.{scheme_numbered, drawing_told, font_told, rows_wanted, svg_of};
ghost use Rattle.screen_pieces.specs.Terminal.{screen_of, table_of};
ghost use Rattle.screen_pieces.specs.Text.{HasText, LacksRoom};
ghost use Rattle.screen_svg.specs.Picture.{svg};

use crate::drawing::collected;
use crate::terminal::Terminal;
use crate::text::put_bytes;
use ansi_html::Scheme;
use anstyle_parse::io::{FromWrite, Output, Sink};
use screen_svg::{Drawing, FONT, write_shown, write_svg};
use std::alloc::Global;

/// How many bytes of how a picture is drawn are kept for later: they are 0.
pub const RESERVED_PICTURE: usize = 4;

/// How a picture is drawn: zero bytes draw what the screen shows, for light and dark pages. A number of the last three that
/// is not 0 asks for what it names.
#[repr(C)]
#[derive(Clone, Copy)]
pub struct PictureBytes {
    /// 1 for light pages, 2 for dark ones, and any other for both.
    pub scheme: u8,
    /// All that the screen showed.
    pub shown: u8,
    /// The cursor, where the screen shows it.
    pub cursor: u8,
    /// The bar of a window, with the title.
    pub window: u8,
    pub reserved: [u8; RESERVED_PICTURE],
}

/// The scheme of a number.
fn scheme_at(number: u8) -> Scheme
    ensures { result ≡ scheme_numbered number }
{
    match number {
        1 => Scheme::Light,
        2 => Scheme::Dark,
        _ => Scheme::Both,
    }
}

impl PictureBytes {
    /// The drawing that they tell.
    fn drawing(&self) -> Drawing
        ensures { result ≡ drawing_told self.now }
    {
        Drawing {
            scheme: scheme_at(self.scheme),
            cursor: self.cursor != 0,
            window: self.window != 0,
        }
    }
}

/// The fonts that are wanted: where none are named, the usual ones.
fn wanted_font(font: &str) -> &str
    ensures { result.now ≡ font_told font.now }
{
    if font.is_empty() { FONT } else { font }
}

/// Writes the picture of all that a screen showed, or of what it shows.
fn write_drawn<W: Sink>(
    terminal: &Terminal,
    is_all: bool,
    drawing: Drawing,
    title: &str,
    font: &str,
    output: Output<W>,
) -> Output<W>
    ensures { Adds W.Sink (svg drawing title.now font.now (table_of terminal.now)
        (rows_wanted is_all drawing.cursor terminal.now) (screen_of terminal.now)) output result }
{
    let (screen, links) = (terminal.screen(), terminal.links());
    if is_all {
        write_shown(screen, links, drawing, title, font, output)
    } else {
        write_svg(screen, links, drawing, title, font, output)
    }
}

/// Writes the picture that is told.
fn write_picture<W: Sink>(
    terminal: &Terminal,
    how: PictureBytes,
    title: &str,
    font: &str,
    output: Output<W>,
) -> Output<W>
    ensures { Adds W.Sink (svg_of how title.now font.now terminal.now) output result }
{
    let drawing = how.drawing();
    let wanted = wanted_font(font);
    write_drawn(terminal, how.shown != 0, drawing, title, wanted, output)
}

/// The same as bytes; `None` where memory was wanting.
fn picture(
    alloc: Global,
    terminal: &Terminal,
    how: PictureBytes,
    title: &str,
    font: &str,
) -> Option<Vec<u8>>
    ensures { IfSome result (λ bytes. bytes.items ≡ svg_of how title.now font.now terminal.now) }
{
    let output = Output::new(FromWrite::new(Vec::new(alloc)));
    collected(write_picture(terminal, how, title, font, output))
}

impl Terminal {
    /// Writes the picture of what it shows, or of all that it showed, as SVG to the front of the room, as
    /// [`write_svg`](screen_svg::write_svg) and [`write_shown`](screen_svg::write_shown) draw it, with the links that are
    /// kept. An empty title is none, and where no fonts are named, they are [`FONT`](screen_svg::FONT). It answers how many
    /// bytes there are. `Err` has 0 where memory is wanting, which is taken while they are made; and else how many bytes
    /// there are, which the room has not; then what stands in the room does not count.
    pub fn svg(
        &self,
        alloc: Global,
        how: PictureBytes,
        title: &str,
        font: &str,
        room: &mut [u8],
    ) -> Result<usize, usize>
        ensures text { IfOk result (HasText (svg_of how title.now font.now self.now) room.old room.new) }
        ensures refused { IfErr result
            (λ needed. (needed ≡ 0) ⊎ LacksRoom (svg_of how title.now font.now self.now) room.old needed) }
    {
        match picture(alloc, self, how, title, font) {
            None => Err(0),
            Some(bytes) => put_bytes(bytes.as_slice(), room),
        }
    }
}
