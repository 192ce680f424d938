//! A log that a performer follows, piece by piece, and what it wrote in the end.
ghost use Rattle.std.specs.Prelude.{◌≡◌, ◌++◌, [], ℕ, List, None, IfSome};
ghost use Rattle.anstyle_parse.specs.Io.Devices.{writer_of};
ghost use Rattle.anstyle_parse.specs.Io.Output.{writer_in, fault_in};
ghost use Rattle.shown_pieces.specs.Following.{Follows, Writes};

use anstyle_parse::io::{FromWrite, WritingPerformer};
use anstyle_parse::{Parser, Utf8Parser};

/// What is written goes to memory.
pub type Memory = FromWrite<Vec<u8>>;

/// A performer, and the parser that makes the calls for it.
#[derive(Drop)]
pub(crate) struct Following<P> {
    parser: Parser,
    performer: P,
}

impl<P: WritingPerformer<Memory>> Following<P> {
    /// It stands at the beginning of a log.
    pub(crate) fn new(performer: P) -> Following<P>
        ensures { Follows P.receives performer [] result }
    {
        Following {
            parser: Parser::<Utf8Parser>::new(),
            performer,
        }
    }

    /// Takes the next bytes of the log, as a reader of logs reads them. It answers false where memory was wanting for
    /// what is written.
    pub(crate) fn take(&mut self, piece: &[u8]) -> bool
        ensures { (first : P) (before : List ℕ) → Follows P.receives first before self.old
            → Follows P.receives first (before ++ piece.now) self.new }
    {
        self.parser.advance_log(&mut self.performer, piece);
        self.performer.output().fault().is_none()
    }

    /// What is written of all of the log, which ends; `None` where memory was wanting.
    pub(crate) fn into_text(self) -> Option<Vec<u8>>
        ensures { IfSome result (λ text. (first : P) (bytes : List ℕ) → fault_in (P.output_in first) ≡ None
            → (writer_of (writer_in (P.output_in first))).items ≡ [] → Follows P.receives first bytes self
            → Writes (P.text_from first) (P.ending_from first) bytes text.items) }
    {
        let Following {
            mut parser,
            mut performer,
        } = self;
        parser.end_log(&mut performer);
        let output = performer.into_output();
        if output.fault().is_some() {
            return None;
        }
        let (sink, _answer) = output.finish();
        Some(sink.into_inner())
    }
}
