//! The performer of each of many streams, which are shown by a screen first.
ghost use Rattle.std.specs.Prelude.{◌≡◌, ◌++◌, ◌&&◌, IfOk, IfErr};
ghost use Rattle.each_source.specs.Each.{Given, BeginsWith};
ghost use Rattle.screen_html.specs.Links.{no_links};
ghost use Rattle.screen_text.specs.Recording.{is_decided, screen_for, CanBeShown};

use crate::rows::CallRows;
use ansi_screen::Scrollable;
use anstyle_parse::io::{Output, Sink};
use each_source::Begin;
use html_urls::Resumable;
use screen_html::LinkTable;
use screen_text::{ShownSize, ShownWriter};
use std::alloc::{AllocError, Global};

/// Shows each stream by a screen of this size, or of the one that it says, and gives what was shown on to the performer
/// that `begin` makes.
#[derive(Drop)]
pub struct ShowingFirst<B> {
    alloc: Global,
    size: ShownSize,
    begin: B,
    ghost can_be: { CanBeShown size },
}

impl<B> ShowingFirst<B> {
    ghost use Rattle.screen_calls.specs.Begin.{size_of, begin_in};

    /// For screens of a size that screens can have.
    pub fn new(alloc: Global, size: ShownSize, begin: B) -> ShowingFirst<B>
        requires { CanBeShown size }
        ensures size { size_of result ≡ size }
        ensures begin { begin_in result ≡ begin }
    {
        ShowingFirst { alloc, size, begin }
    }

    /// A blank screen for a stream that begins with these bytes, and memory for links.
    fn parts(&self, front: &[u8]) -> Result<(Scrollable, LinkTable), AllocError>
        ensures screen { IfOk result (λ parts. (given : Given)
            → BeginsWith (is_decided (size_of self.now)) front.now given
            → parts.0 ≡ screen_for (size_of self.now) given.read) }
        ensures links { IfOk result (λ parts. parts.1 ≡ no_links) }
    {
        let screen = self.size.screen(self.alloc, front)?;
        let links = LinkTable::new(self.alloc)?;
        Ok((screen, links))
    }
}

/// What is written is what would be written of the calls of what was shown.
impl<W: Sink, P: Resumable<W>, B: Begin<P, W>> Begin<ShownWriter<CallRows<P, W>>, W>
    for ShowingFirst<B> {
    ghost use Rattle.screen_text.specs.Writer.{rows_of, text_from, ending_from};
    ghost use Rattle.screen_calls.specs.Begin.{size_of, begin_in, is_enough, shown_of, left_of, ending_of};
    ghost use Rattle.screen_calls.specs.Rows.{performer_in};
    ghost use Rattle.screen_calls.specs.Writer.{standing_in, row_text, after_row, after_command, closing};

    ghost text = { λ it given. B.text (begin_in it) (left_of (size_of it) given) };

    ghost ending = { λ it given. ending_of (B.text (begin_in it)) (B.ending (begin_in it)) (size_of it) given };

    ghost enough = { λ it. is_enough (size_of it) (B.enough (begin_in it)) };

    fn is_enough(&self, front: &[u8]) -> bool {
        self.size.is_decided(front) && self.begin.is_enough(front)
    }

    fn begin(
        &self,
        front: &[u8],
        output: Output<W>,
    ) -> Result<ShownWriter<CallRows<P, W>>, Output<W>>
        ensures output { IfOk result (λ performer. P.output_in (performer_in (rows_of performer)) ≡ output) }
        ensures text { IfOk result (λ performer. (given : Given)
            → BeginsWith (is_enough (size_of self.now) (B.enough (begin_in self.now))) front.now given
            → text_from (standing_in P.text_from P.ending_from) row_text after_row after_command performer given.calls
            ≡ B.text (begin_in self.now) (left_of (size_of self.now) given)) }
        ensures ending { IfOk result (λ performer. (given : Given)
            → BeginsWith (is_enough (size_of self.now) (B.enough (begin_in self.now))) front.now given
            → ending_from (standing_in P.text_from P.ending_from) row_text after_row after_command closing
            performer given.calls
            ≡ ending_of (B.text (begin_in self.now)) (B.ending (begin_in self.now)) (size_of self.now) given) }

        // All that is written of a stream is what is written of the calls of what was shown.
        ensures whole { IfOk result (λ performer. (given : Given)
            → BeginsWith (is_enough (size_of self.now) (B.enough (begin_in self.now))) front.now given
            → B.text (begin_in self.now) (left_of (size_of self.now) given)
            ++ ending_of (B.text (begin_in self.now)) (B.ending (begin_in self.now)) (size_of self.now) given
            ≡ B.text (begin_in self.now) (shown_of (size_of self.now) given)
            ++ B.ending (begin_in self.now) (shown_of (size_of self.now) given)) }
        ensures kept { IfErr result (λ kept. kept ≡ output) }
    {
        match self.parts(front) {
            Ok((screen, links)) => match self.begin.begin(front, output) {
                Ok(performer) => Ok(ShownWriter::new(screen, CallRows::new(links, performer))),
                Err(output) => Err(output),
            },
            Err(_) => Err(output),
        }
    }
}
