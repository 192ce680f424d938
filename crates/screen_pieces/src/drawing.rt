//! Bytes that make a terminal show a screen, in the caller's room.
ghost use Rattle.std.specs.Prelude.{◌≡◌, ◌⊎◌, None, IfOk, IfErr, IfSome};
ghost use Rattle.anstyle_parse.specs.Io.Devices.{writer_of};
ghost use Rattle.anstyle_parse.specs.Io.Output.{writer_in, fault_in};
ghost use Rattle.screen_pieces.specs.Drawing.{drawing_of, update_of};
ghost use Rattle.screen_pieces.specs.Text.{HasText, LacksRoom};

use crate::terminal::Terminal;
use crate::text::put_bytes;
use ansi_screen::Screen;
use anstyle_parse::io::{FromWrite, Output};
use screen_draw::{draw, update};
use std::alloc::Global;

/// What was written to it; `None` where memory was wanting.
pub(crate) fn collected(output: Output<FromWrite<Vec<u8>>>) -> Option<Vec<u8>>
    ensures no_fault { IfSome result (λ bytes. fault_in output ≡ None) }
    ensures bytes { IfSome result (λ bytes. bytes.items ≡ (writer_of (writer_in output)).items) }
{
    if output.fault().is_some() {
        return None;
    }
    let (sink, _answer) = output.finish();
    Some(sink.into_inner())
}

/// The bytes of a drawing; `None` where memory was wanting.
fn drawing(alloc: Global, screen: &Screen) -> Option<Vec<u8>>
    ensures { IfSome result (λ bytes. bytes.items ≡ drawing_of screen.now.display) }
{
    let mut output = Output::new(FromWrite::new(Vec::new(alloc)));
    draw(screen, &mut output);
    collected(output)
}

/// The bytes of an update; `None` where memory was wanting.
fn updating(alloc: Global, shown: &Screen, wanted: &Screen) -> Option<Vec<u8>>
    requires columns { shown.now.display.width ≡ wanted.now.display.width }
    requires rows { shown.now.display.height ≡ wanted.now.display.height }
    ensures { IfSome result (λ bytes. bytes.items ≡ update_of shown.now.display wanted.now.display) }
{
    let mut output = Output::new(FromWrite::new(Vec::new(alloc)));
    update(shown, wanted, &mut output);
    collected(output)
}

impl Terminal {
    ghost use Rattle.screen_pieces.specs.Terminal.{display_of};

    /// Writes the bytes after which any terminal of its size shows what it shows to the front of the room, and answers
    /// how many there are. `Err` has 0 where memory is wanting, which is taken while they are made; and else how many
    /// bytes there are, which the room has not; then what stands in the room does not count.
    pub fn draw(&self, alloc: Global, room: &mut [u8]) -> Result<usize, usize>
        ensures text { IfOk result (HasText (drawing_of (display_of self.now)) room.old room.new) }
        ensures refused { IfErr result
            (λ needed. (needed ≡ 0) ⊎ LacksRoom (drawing_of (display_of self.now)) room.old needed) }
    {
        match drawing(alloc, self.screen()) {
            None => Err(0),
            Some(bytes) => put_bytes(bytes.as_slice(), room),
        }
    }

    /// The same with the bytes after which a terminal that shows this screen shows `wanted`. `Err` also has 0 where
    /// they have different sizes.
    pub fn update(&self, alloc: Global, wanted: &Terminal, room: &mut [u8]) -> Result<usize, usize>
        ensures text { IfOk result (HasText (update_of (display_of self.now) (display_of wanted.now))
            room.old room.new) }
        ensures refused { IfErr result (λ needed. (needed ≡ 0)
            ⊎ LacksRoom (update_of (display_of self.now) (display_of wanted.now)) room.old needed) }
    {
        let (shown, wanted) = (self.screen(), wanted.screen());
        if shown.columns() != wanted.columns() || shown.rows() != wanted.rows() {
            return Err(0);
        }
        match updating(alloc, shown, wanted) {
            None => Err(0),
            Some(bytes) => put_bytes(bytes.as_slice(), room),
        }
    }
}
