//! A performer that writes goes on writing where its calls have links.
ghost use Rattle.std.specs.Prelude.{ℕ, List};
ghost use Rattle.anstyle_parse.specs.Stream.Call.{Call};
ghost use Rattle.html_urls.specs.Resumed.{Resumes};

use crate::linking::Linking;
use ansi_html::{BlocksWriter, HtmlWriter, LinesWriter};
use ansi_strip::{Inert, Stripper};
use anstyle_parse::io::{Output, Sink, WritingPerformer};
use safe_text::MarkingWriter;
use without_hidden::WithoutHidden;

/// One of which it is known what it writes by more calls, after some.
pub trait Resumable<W: Sink>: WritingPerformer<W> {
    // What it writes by more calls, after some.
    ghost text_after: { Self → (calls more : List Call) → List ℕ };

    // As it then stands it writes that, with the ending of all calls; and the one after the other is what it writes by
    // all calls.
    ghost goes_on: { Resumes Self.receives Self.text_from text_after Self.ending_from };
}

impl<W: Sink> Resumable<W> for HtmlWriter<W> {
    ghost use Rattle.html_urls.specs.Resumed.{html_after};
    ghost use Rattle.html_urls.specs.ResumedProof.{html-goes_on};

    ghost text_after = { html_after };

    ghost goes_on = { html-goes_on W.Sink };
}

impl<W: Sink> Resumable<W> for LinesWriter<W> {
    ghost use Rattle.html_urls.specs.Resumed.{lined_after};
    ghost use Rattle.html_urls.specs.ResumedProof.{lined-goes_on};

    ghost text_after = { lined_after };

    ghost goes_on = { lined-goes_on W.Sink };
}

impl<W: Sink> Resumable<W> for BlocksWriter<W> {
    ghost use Rattle.html_urls.specs.Resumed.{blocked_after};
    ghost use Rattle.html_urls.specs.ResumedProof.{blocked-goes_on};

    ghost text_after = { blocked_after };

    ghost goes_on = { blocked-goes_on W.Sink };
}

impl<W: Sink> Resumable<W> for Stripper<W> {
    ghost use Rattle.html_urls.specs.Resumed.{stripped_after};
    ghost use Rattle.html_urls.specs.ResumedTextProof.{stripped-goes_on};

    ghost text_after = { stripped_after };

    ghost goes_on = { stripped-goes_on W.Sink };
}

/// It goes on as what it hands on to does.
impl<W: Sink, P: Resumable<W>> Resumable<W> for Inert<P> {
    ghost use Rattle.html_urls.specs.Resumed.{inert_after};
    ghost use Rattle.html_urls.specs.ResumedTextProof.{inert-goes_on};

    ghost text_after = { inert_after P.text_after };

    ghost goes_on = { inert-goes_on P.goes_on };
}

impl<W: Sink> Resumable<W> for MarkingWriter<W> {
    ghost use Rattle.html_urls.specs.Resumed.{marked_after};
    ghost use Rattle.html_urls.specs.ResumedTextProof.{marked-goes_on};

    ghost text_after = { marked_after };

    ghost goes_on = { marked-goes_on W.Sink };
}

/// What is held at the end is written.
impl<P: Resumable<W>, W: Sink> WritingPerformer<W> for Linking<P> {
    ghost use Rattle.html_urls.specs.Linker.{performer_in, text_from, ending_from};
    ghost use Rattle.html_urls.specs.LinkerProof.{ends-taken};

    ghost output_in = { λ linking. P.output_in (performer_in linking) };

    ghost text_from = { text_from P.text_from };

    ghost ending_from = { ending_from P.text_after P.ending_from };

    fn output(&self) -> &Output<W> {
        self.performer.output()
    }

    fn pass_on(&mut self) {
        self.performer.pass_on();
    }

    fn into_output(self) -> Output<W> {
        let mut linking = self;
        linking.release();
        linking.performer.into_output()
    }

    ghost adds = { λ old calls new taken. P.adds (performer_in old) _ (performer_in new) taken.received };

    ghost ends = { λ old calls new taken _. ends-taken P.goes_on P.follows.none old calls new taken };
}

/// It goes on as what it hands on to does.
impl<P: Resumable<W>, W: Sink> Resumable<W> for Linking<P> {
    ghost use Rattle.html_urls.specs.Linker.{text_after};
    ghost use Rattle.html_urls.specs.LinkerProof.{linking-goes_on};

    ghost text_after = { text_after P.text_after };

    ghost goes_on = { linking-goes_on P.goes_on };
}

/// So does one before which hidden text is left out.
impl<P: Resumable<W>, W: Sink> Resumable<W> for WithoutHidden<P> {
    ghost use Rattle.html_urls.specs.Resumed.{shown_after};
    ghost use Rattle.html_urls.specs.ResumedProof.{shown-goes_on};

    ghost text_after = { shown_after P.text_after };

    ghost goes_on = { shown-goes_on P.goes_on };
}
