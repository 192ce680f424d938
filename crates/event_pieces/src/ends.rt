//! Where in a piece each record ends.
ghost use Rattle.std.specs.Prelude.{◌≡◌};
ghost use Rattle.anstyle_parse.specs.Views.Parser.{machine_of};
ghost use Rattle.event_pieces.specs.Ends.{FindsEnds};
ghost use Rattle.event_pieces.specs.EndWriter.{Gives};

use crate::end_writer::EndWriter;
use anstyle_parse::{Parser, Utf8Parser};
use stream_state::StreamState;

/// Writes to the front of `ends` where each record ends that [`feed`](crate::feed) writes of these bytes, as a number
/// of bytes from their start, and answers how many it wrote: of as many records as there are places for.
///
/// `state` is the state before: a copy that was made before `feed` took the bytes. A record ends with the byte that led
/// to its last call: that of a sequence is its final byte, and that of a broken character or of a string that is broken
/// off is the byte that did so.
pub fn find_ends(state: &StreamState, bytes: &[u8], ends: &mut [usize]) -> usize
    ensures { FindsEnds state.now bytes.now ends.old ends.new result }
{
    let mut parser = Parser::<Utf8Parser>::new();
    state.resume_in(&mut parser);
    let mut writer = EndWriter::new(ends);
    give(&mut parser, bytes, &mut writer);
    writer.written()
}

/// Gives the parser each byte, and the writer its calls.
fn give(parser: &mut Parser, bytes: &[u8], writer: &mut EndWriter)
    ensures same_ends { writer.new.ends.ghost_name ≡ writer.old.ends.ghost_name }
    ensures gives { Gives (machine_of parser.old) bytes.now writer.old writer.new }
{
    for (place, byte) in bytes.iter().enumerate() {
        writer.set_given(place + 1);
        parser.advance(writer, *byte);
    }
}
