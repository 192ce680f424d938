//! What a screen shows at the end of a stream, or all that it showed, with its links, as a picture.
ghost use Rattle.std.specs.Prelude.{IfOk};
ghost use Rattle.ansi_screen.specs.Size.{IsTaken};
ghost use Rattle.anstyle_parse.specs.Io.Output.{Adds};
ghost use Rattle.ansi2svg.specs.Picture.{IsNew, picture_of, DrawsToEnd};

use ansi_screen::{Screen, Size};
use anstyle_parse::io::{Fault, Output, Sink, Source, perform_texts_to_end};
use anstyle_parse::{Params, Perform, PerformText};
use screen_html::LinkTable;
use screen_svg::{Drawing, MOST_ABOVE, write_shown, write_svg};
use std::alloc::{AllocError, Global};

/// The title and the fonts of a picture.
#[derive(Clone, Copy)]
pub struct Named<'a> {
    pub title: &'a str,
    pub font: &'a str,
}

/// A screen, and the links of its cells by their numbers.
#[derive(Drop)]
pub struct Linked {
    pub screen: Screen,
    pub links: LinkTable,
    /// All that it showed is drawn, and a line feed does a carriage return first, as a terminal's line gives it.
    pub is_all: bool,
}

impl Linked {
    /// A blank screen of this size, with no link, which keeps rows that leave it where all that it shows is drawn. `Err`
    /// means that memory is wanting.
    pub fn new(alloc: Global, size: Size, is_all: bool) -> Result<Linked, AllocError>
        requires { IsTaken size }
        ensures { IfOk result (IsNew size is_all) }
    {
        let screen = if is_all {
            Screen::with_history(alloc, size.columns, size.rows, MOST_ABOVE)?
        } else {
            Screen::new(alloc, size.columns, size.rows)?
        };
        Ok(Linked {
            screen,
            links: LinkTable::new(alloc)?,
            is_all,
        })
    }
}

/// A call does to the screen what it does, and a command may begin a link.
impl Perform for Linked {
    ghost use Rattle.std.specs.Prelude.{◌≡◌};
    ghost use Rattle.ansi2svg.specs.Picture.{linked_after};

    ghost means = { λ old call new. new ≡ linked_after call old };

    fn print(&mut self, c: char) {
        self.screen.print(c);
    }

    fn execute(&mut self, byte: u8) {
        if self.is_all && byte == b'\n' {
            self.screen.execute(b'\r');
        }
        self.screen.execute(byte);
    }

    fn hook(&mut self, params: &Params, intermediates: &[u8], ignore: bool, action: u8) {
        self.screen.hook(params, intermediates, ignore, action);
    }

    fn put(&mut self, byte: u8) {
        self.screen.put(byte);
    }

    fn unhook(&mut self) {
        self.screen.unhook();
    }

    fn osc_dispatch(&mut self, params: &[&[u8]], bell_terminated: bool) {
        self.screen.osc_dispatch(params, bell_terminated);
        let link = self.screen.link();
        self.links.take_command(link, params);
    }

    fn csi_dispatch(&mut self, params: &Params, intermediates: &[u8], ignore: bool, action: u8) {
        self.screen
            .csi_dispatch(params, intermediates, ignore, action);
    }

    fn esc_dispatch(&mut self, intermediates: &[u8], ignore: bool, byte: u8) {
        self.screen.esc_dispatch(intermediates, ignore, byte);
    }
}

/// A text begins no link.
impl PerformText for Linked {
    ghost use Rattle.ansi2svg.specs.PictureProof.{Becomes, becomes-follows};

    ghost receives = { Becomes };

    fn print_text(&mut self, text: &str) {
        self.screen.print_text(text);
    }

    ghost follows = { becomes-follows };
}

/// Draws what a screen shows, or all that it showed, with the links that are kept.
fn drawn<W: Sink>(
    linked: &Linked,
    drawing: Drawing,
    named: Named<'_>,
    output: Output<W>,
) -> Output<W>
    ensures { Adds W.Sink (picture_of drawing named.entry.title.now named.entry.font.now linked.now) output result }
{
    let screen = &linked.screen;
    let links = &linked.links;
    if linked.is_all {
        write_shown(screen, links, drawing, named.title, named.font, output)
    } else {
        write_svg(screen, links, drawing, named.title, named.font, output)
    }
}

/// Gives the screen all that the reader gives, and then draws what it shows, or all that it showed.
///
/// `Ok` means that the reader is at its end; `Err(Fault::Read)` that a read failed, or that 2^64 - 1 reads all gave
/// bytes: then what the bytes before that lead to is drawn. A write that fails is kept in the output.
pub fn draw_to_end<R: Source, W: Sink>(
    reader: &mut R,
    linked: &mut Linked,
    drawing: Drawing,
    named: Named<'_>,
    output: Output<W>,
) -> (Output<W>, Result<(), Fault>)
    ensures { DrawsToEnd R.Source W.Sink (picture_of drawing named.entry.title.now named.entry.font.now)
        reader.old reader.new linked.old linked.new output result.0 result.1 }
{
    let answer = perform_texts_to_end(reader, linked);
    (drawn(linked, drawing, named, output), answer)
}
