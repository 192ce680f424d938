//! The performer of each of many streams, with its hidden text left out.
ghost use Rattle.std.specs.Prelude.{◌≡◌, IfOk, IfErr};
ghost use Rattle.each_source.specs.Each.{Given, BeginsWith};

use crate::performer::WithoutHidden;
use anstyle_parse::io::{Output, Sink, WritingPerformer};
use each_source::Begin;

/// Makes the performer of each stream as `begin` does, and leaves hidden text out before it.
#[derive(Debug, Clone, Copy)]
pub struct LeavingOut<B> {
    pub begin: B,
}

/// What is written is what would be written of the calls that are not left out.
impl<W: Sink, P: WritingPerformer<W>, B: Begin<P, W>> Begin<WithoutHidden<P>, W> for LeavingOut<B> {
    ghost use Rattle.without_hidden.specs.Hidden.{without_hidden};
    ghost use Rattle.without_hidden.specs.Passing.{performer_in, style_in};
    ghost use Rattle.without_hidden.specs.Given.{begin_in, shown_of};

    ghost text = { λ it given. B.text (begin_in it) (shown_of given) };

    ghost ending = { λ it given. B.ending (begin_in it) (shown_of given) };

    ghost enough = { λ it. B.enough (begin_in it) };

    fn is_enough(&self, front: &[u8]) -> bool {
        self.begin.is_enough(front)
    }

    fn begin(&self, front: &[u8], output: Output<W>) -> Result<WithoutHidden<P>, Output<W>>
        ensures output { IfOk result (λ performer. P.output_in (performer_in performer) ≡ output) }
        ensures text { IfOk result (λ performer. (given : Given)
            → BeginsWith (B.enough (begin_in self.now)) front.now given
            → P.text_from (performer_in performer) (without_hidden (style_in performer) given.calls)
            ≡ B.text (begin_in self.now) (shown_of given)) }
        ensures ending { IfOk result (λ performer. (given : Given)
            → BeginsWith (B.enough (begin_in self.now)) front.now given
            → P.ending_from (performer_in performer) (without_hidden (style_in performer) given.calls)
            ≡ B.ending (begin_in self.now) (shown_of given)) }
        ensures kept { IfErr result (λ kept. kept ≡ output) }
    {
        match self.begin.begin(front, output) {
            Ok(performer) => Ok(WithoutHidden::new(performer)),
            Err(output) => Err(output),
        }
    }
}
