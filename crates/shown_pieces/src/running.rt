//! A screen that follows a log, in one of the forms in which is written what it showed.
ghost use Rattle.std.specs.Prelude.{◌≡◌, ◌++◌, ◌⊎◌, [], true, ℕ, List, IfSome};
ghost use Rattle.screen_text.specs.declared.recording.ShownSize.{ShownSize as AShownSize};
ghost use Rattle.screen_text.specs.Recording.{is_decided, screen_for, CanBeShown};
ghost use Rattle.shown_pieces.specs.declared.how.Form.{Form as AForm};
ghost use Rattle.shown_pieces.specs.declared.how.Form.TheVariants.{Text as AText, Safe as ASafe, Html as AHtml};
ghost use Rattle.shown_pieces.specs.Running.{IsEmpty, IsShowing};
ghost use Rattle.shown_pieces.specs.Shown.{IsShownByRows};

use crate::following::{Following, Memory};
use crate::how::Form;
use ansi_html::Styling;
use ansi_screen::Scrollable;
use anstyle_parse::io::{FromWrite, Output, Sink};
use screen_html::{HtmlRows, LinkMemory};
use screen_safe::SafeRows;
use screen_text::{ShownSize, ShownWriter, TextRows};
use std::alloc::Global;

/// A screen that follows a log, and writes to memory.
#[derive(Drop)]
pub(crate) enum Running {
    AsText(Following<ShownWriter<TextRows<Memory>>>),
    AsSafe(Following<ShownWriter<SafeRows<Memory>>>),
    AsHtml(Following<ShownWriter<HtmlRows<Memory>>>),
}

/// An output to memory, which is empty.
pub(crate) fn in_memory(alloc: Global) -> Output<Memory>
    ensures { IsEmpty result }
{
    Output::new(FromWrite::new(Vec::new(alloc)))
}

/// A screen of which text is written, at the beginning of a log.
fn as_text(screen: Scrollable, output: Output<Memory>) -> Running
    requires { IsEmpty output }
    ensures { (size : AShownSize) (form : AForm) (whole : List ℕ) → form ≡ AText → screen ≡ screen_for size whole
        → IsShowing ⟦<Memory as Sink>⟧ size form whole [] result }
{
    let rows = TextRows::new(output);
    let performer = ShownWriter::new(screen, rows);
    Running::AsText(Following::new(performer))
}

/// The same of which safe text is written.
fn as_safe(screen: Scrollable, output: Output<Memory>) -> Running
    requires { IsEmpty output }
    ensures { (size : AShownSize) (form : AForm) (whole : List ℕ) → form ≡ ASafe → screen ≡ screen_for size whole
        → IsShowing ⟦<Memory as Sink>⟧ size form whole [] result }
{
    let rows = SafeRows::new(output);
    let performer = ShownWriter::new(screen, rows);
    Running::AsSafe(Following::new(performer))
}

/// The same of which HTML is written, with memory for its links.
fn as_html(
    screen: Scrollable,
    styling: Styling,
    links: LinkMemory,
    output: Output<Memory>,
) -> Running
    requires { IsEmpty output }
    ensures { (size : AShownSize) (form : AForm) (whole : List ℕ) → form ≡ AHtml styling
        → screen ≡ screen_for size whole → IsShowing ⟦<Memory as Sink>⟧ size form whole [] result }
{
    let rows = HtmlRows::new(styling, links, output);
    let performer = ShownWriter::new(screen, rows);
    Running::AsHtml(Following::new(performer))
}

impl Running {
    /// A blank screen, at the beginning of a log, of the size that these bytes at its front decide, or that all of its
    /// bytes do; `None` where memory is wanting.
    pub(crate) fn new(alloc: Global, size: ShownSize, form: Form, front: &[u8]) -> Option<Running>
        requires { CanBeShown size }
        ensures { IfSome result (λ running. (rest : List ℕ) → (is_decided size front.now ≡ true) ⊎ (rest ≡ [])
            → IsShowing ⟦<Memory as Sink>⟧ size form (front.now ++ rest) [] running) }
    {
        let Ok(screen) = size.screen(alloc, front) else {
            return None;
        };
        let output = in_memory(alloc);
        match form {
            Form::Text => Some(as_text(screen, output)),
            Form::Safe => Some(as_safe(screen, output)),
            Form::Html(styling) => match LinkMemory::new(alloc) {
                Ok(links) => Some(as_html(screen, styling, links, output)),
                Err(_) => None,
            },
        }
    }

    /// Takes the next bytes of the log; `None` where memory is wanting.
    pub(crate) fn take(self, piece: &[u8]) -> Option<Running>
        ensures { IfSome result (λ after. (size : AShownSize) (form : AForm) (whole before : List ℕ)
            → IsShowing ⟦<Memory as Sink>⟧ size form whole before self
            → IsShowing ⟦<Memory as Sink>⟧ size form whole (before ++ piece.now) after) }
    {
        match self {
            Running::AsText(following) => {
                let mut following = following;
                if following.take(piece) {
                    Some(Running::AsText(following))
                } else {
                    None
                }
            }
            Running::AsSafe(following) => {
                let mut following = following;
                if following.take(piece) {
                    Some(Running::AsSafe(following))
                } else {
                    None
                }
            }
            Running::AsHtml(following) => {
                let mut following = following;
                if following.take(piece) {
                    Some(Running::AsHtml(following))
                } else {
                    None
                }
            }
        }
    }

    /// What is written of all of the log, which ends; `None` where memory is wanting.
    pub(crate) fn into_text(self) -> Option<Vec<u8>>
        ensures { IfSome result (λ text. (size : AShownSize) (form : AForm) (bytes : List ℕ)
            → IsShowing ⟦<Memory as Sink>⟧ size form bytes bytes self → IsShownByRows size form bytes text.items) }
    {
        match self {
            Running::AsText(following) => following.into_text(),
            Running::AsSafe(following) => following.into_text(),
            Running::AsHtml(following) => following.into_text(),
        }
    }
}

/// A screen for a log that begins with these bytes, which it has received; `None` where memory is wanting.
pub(crate) fn begun(alloc: Global, size: ShownSize, form: Form, front: &[u8]) -> Option<Running>
    requires { CanBeShown size }
    ensures { IfSome result (λ running. (rest : List ℕ) → (is_decided size front.now ≡ true) ⊎ (rest ≡ [])
        → IsShowing ⟦<Memory as Sink>⟧ size form (front.now ++ rest) front.now running) }
{
    match Running::new(alloc, size, form, front) {
        Some(running) => running.take(front),
        None => None,
    }
}
