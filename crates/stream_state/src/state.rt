//! The state of a stream between its pieces.
ghost use Rattle.std.specs.Prelude.{◌≡◌, ◌≤◌, ◌↔◌, [], ℕ, List, length, IsTrue};
ghost use Rattle.anstyle_parse.specs.Laws.Checkpoint.{max_checkpoint};
ghost use Rattle.anstyle_parse.specs.Views.Accumulator.{front_of};
ghost use Rattle.anstyle_parse.specs.Machine.Stands.{EndsInCharacter};
ghost use Rattle.anstyle_parse.specs.Views.Parser.{IsAfter};
ghost use Rattle.stream_state.specs.Log.{StandsForLog, EndsLog, end_calls};
ghost use Rattle.stream_state.specs.State.{pending_of, StandsFor};

use crate::saved::Saved;
use anstyle_parse::canon::{MAX_CHECKPOINT, checkpoint};
use anstyle_parse::{Parser, PerformText, Utf8Parser};

/// Where a stream stands between two pieces.
///
/// It holds bytes after which a new parser stands there. So any bytes in it are a valid state,
/// and zero bytes are one that begins a stream. It owns nothing, and may be copied or
/// written down.
#[repr(C)]
#[derive(Clone, Copy)]
pub struct StreamState {
    /// How many bytes are pending; a number above 1,042 counts for 1,042.
    pub length: usize,
    pub pending: [u8; MAX_CHECKPOINT],
}

impl StreamState {
    /// A state that begins a stream.
    pub fn new() -> StreamState
        ensures empty { pending_of result ≡ [] }
        ensures begins { StandsFor result [] }
        ensures begins_log { StandsForLog result [] }
    {
        StreamState {
            length: 0,
            pending: [0; MAX_CHECKPOINT],
        }
    }

    /// A parser that stands where the stream stands.
    #[inline(always)]
    pub fn resume(&self) -> Parser
        ensures { (before : List ℕ) → StandsFor self.now before → IsAfter front_of result before }
    {
        let mut parser = Parser::<Utf8Parser>::new();
        self.resume_in(&mut parser);
        parser
    }

    /// Leads a new parser to where the stream stands, in its place: it is large to copy. Nothing is done with its
    /// calls.
    #[inline(always)]
    pub fn resume_in(&self, parser: &mut Parser)
        ensures { (before : List ℕ) → IsAfter front_of parser.old [] → StandsFor self.now before
            → IsAfter front_of parser.new before }
    {
        let length = self.length.min(MAX_CHECKPOINT);
        parser.advance_all(&mut (), &self.pending[..length]);
    }

    /// Whether the stream stands inside of a character. Where it ends there, that character is U+FFFD.
    pub fn is_in_char(&self) -> bool
        ensures stream { (before : List ℕ) → StandsFor self.now before → (IsTrue result ↔ EndsInCharacter before) }
        ensures ends { (before : List ℕ) → StandsForLog self.now before → EndsLog before (end_calls result) }
    {
        self.resume().is_in_char()
    }

    /// Keeps where the parser stands.
    pub fn save(&mut self, parser: &Parser)
        requires { (before : List ℕ) × IsAfter front_of parser.now before }
        ensures { (before : List ℕ) → IsAfter front_of parser.now before
            → StandsFor self.new before }
    {
        let mut held = [0; MAX_CHECKPOINT];
        let (saved, _) = checkpoint(parser, Saved::new(&mut held));
        self.hold(saved.bytes());
    }

    /// Holds these bytes.
    fn hold(&mut self, bytes: &[u8])
        requires { length bytes.now ≤ max_checkpoint }
        ensures { pending_of self.new ≡ bytes.now }
    {
        self.pending[..bytes.len()].copy_from_slice(bytes);
        self.length = bytes.len();
    }
}

/// The end of a stream, by whether a character is begun: that is U+FFFD.
pub fn print_end<P: PerformText>(performer: &mut P, is_begun: bool)
    ensures { P.receives performer.old (end_calls is_begun) performer.new }
{
    if is_begun {
        performer.print('\u{FFFD}');
    }
}
