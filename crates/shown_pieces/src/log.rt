//! A log that comes in pieces, and what is written of it.
ghost use Rattle.std.specs.Prelude.{◌≡◌, [], true, IfSome, IfOk, IfErr};
ghost use Rattle.std.specs.Bool.{OnTrue, OnFalse};
ghost use Rattle.std.proofs.Props.{props};
ghost use Rattle.screen_text.specs.Recording.{CanBeShown};

use crate::following::Memory;
use crate::how::How;
use crate::stage::Stage;
use anstyle_parse::io::Sink;
use screen_text::ShownSize;
use std::alloc::Global;
use std::mem::replace;
use stream_state::put_at_start;

/// A log that comes in pieces, and, once it has ended, what is written of it, or of what a screen of this size showed of
/// it.
///
/// It is read as the programs read a log ([`advance_log`](anstyle_parse::Parser::advance_log)). Memory is taken by
/// [`ShownLog::feed`] and [`ShownLog::end`] alone.
#[derive(Drop)]
pub struct ShownLog {
    alloc: Global,
    size: Option<ShownSize>,
    how: How,
    stage: Stage,
    ghost can_be: { IfSome size CanBeShown } by { Prim.hlevel props },
}

impl ShownLog {
    ghost use Rattle.shown_pieces.specs.Log.{size_of, how_of, text_of, HasCome, Feeds, Ends, Refuses, HasText, LacksRoom};

    /// A log of which nothing has come, for a screen of a size that screens can have, or for none.
    pub fn new(alloc: Global, size: Option<ShownSize>, how: How) -> ShownLog
        requires { IfSome size CanBeShown }
        ensures size { size_of result ≡ size }
        ensures how { how_of result ≡ how }
        ensures begins { HasCome ⟦<Memory as Sink>⟧ [] result }
    {
        ShownLog {
            alloc,
            size,
            how,
            stage: Stage::Held(Vec::new(alloc)),
        }
    }

    /// Takes the next bytes of the log. It answers false where memory is wanting: then no more is taken, and nothing is
    /// written; and after the end, or where memory was wanting before: then nothing happens.
    pub fn feed(&mut self, piece: &[u8]) -> bool
        ensures fed { OnTrue result (Feeds ⟦<Memory as Sink>⟧ piece.now self.old self.new) }
        ensures refused { OnFalse result (Refuses self.old self.new) }
    {
        if self.stage.is_over() {
            return false;
        }
        let stage = replace(&mut self.stage, Stage::Failed);
        self.stage = stage.fed(self.alloc, self.size, self.how, piece);
        !self.stage.is_over()
    }

    /// Ends the log: then what is to be written of all of it is. It answers false where memory is wanting, where
    /// it was before, and after the end: then nothing happens.
    pub fn end(&mut self) -> bool
        ensures ended { OnTrue result (Ends ⟦<Memory as Sink>⟧ self.old self.new) }
        ensures refused { OnFalse result (Refuses self.old self.new) }
    {
        if self.stage.is_over() {
            return false;
        }
        let stage = replace(&mut self.stage, Stage::Failed);
        self.stage = stage.at_end(self.alloc, self.size, self.how);
        self.stage.has_text()
    }

    /// What is written: nothing before the end.
    pub fn text(&self) -> &[u8]
        ensures { result.now ≡ text_of self.now }
    {
        self.stage.text()
    }

    /// Writes what is written to the front of the room, and answers how many bytes it has. `Err` has how many it has,
    /// where the room has fewer: then the room stays as it is.
    pub fn put_text(&self, room: &mut [u8]) -> Result<usize, usize>
        ensures text { IfOk result (HasText (text_of self.now) room.old room.new) }
        ensures refused { IfErr result (LacksRoom (text_of self.now) room.old room.new) }
    {
        let text = self.text();
        if room.len() < text.len() {
            return Err(text.len());
        }
        Ok(put_at_start(room, text))
    }
}
