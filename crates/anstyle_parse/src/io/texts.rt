//! From a reader to a performer that takes texts.
ghost use Rattle.anstyle_parse.specs.Io.Run.{PerformsTextsToEnd};

use super::engine::PIECE;
use super::{Fault, Source};
use crate::accumulator::Utf8Parser;
use crate::parser::Parser;
use crate::perform::PerformText;

/// Gives what the reader gives to a new parser, as [`perform_to_end`](super::perform_to_end) does, and the parser hands
/// on texts ([`Parser::advance_texts`]): for a performer that takes one at once, as a screen. The answers are the same.
pub fn perform_texts_to_end<P: PerformText, R: Source>(
    reader: &mut R,
    performer: &mut P,
) -> Result<(), Fault>
    ensures { PerformsTextsToEnd R.Source P.receives reader.old reader.new performer.old performer.new result }
{
    let mut parser = Parser::<Utf8Parser>::new();
    let mut piece = [0; PIECE];
    for turn in 0..u64::MAX {
        match reader.read(&mut piece) {
            None => return Err(Fault::Read),
            Some(0) => return Ok(()),
            Some(count) => parser.advance_texts(performer, &piece[..count]),
        }
    }
    Err(Fault::Read)
}
