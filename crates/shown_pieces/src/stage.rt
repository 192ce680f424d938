//! The stages that a log goes through.
ghost use Rattle.std.specs.Prelude.{◌≡◌, ◌++◌, ◌⊎◌, [], true, false, ℕ, List, IfSome};
ghost use Rattle.screen_text.specs.Recording.{CanBeShown};
ghost use Rattle.shown_pieces.specs.Shown.{IsShown};
ghost use Rattle.shown_pieces.specs.Stages.{size_of_rows, showing_or_failed, ended_or_failed, text_at, is_over, has_text, HasComeAt};

use crate::converted::of_whole;
use crate::following::Memory;
use crate::how::How;
use crate::running::{Running, begun};
use anstyle_parse::io::Sink;
use screen_text::ShownSize;
use std::alloc::Global;

/// How far a log has come.
#[derive(Drop)]
pub(crate) enum Stage {
    /// These bytes of it are held: they do not decide yet which size its screen has, or it is converted once it has
    /// ended.
    Held(Vec<u8>),
    /// A screen follows it, whose rows are written.
    Showing(Running),
    /// It has ended, and this is written.
    Ended(Vec<u8>),
    /// Memory was wanting.
    Failed,
}

/// The log goes on, where there was memory.
fn showing(running: Option<Running>) -> Stage
    ensures { result ≡ showing_or_failed running }
{
    match running {
        Some(running) => Stage::Showing(running),
        None => Stage::Failed,
    }
}

/// The log has ended, where there was memory.
fn ended(text: Option<Vec<u8>>) -> Stage
    ensures { result ≡ ended_or_failed text }
{
    match text {
        Some(text) => Stage::Ended(text),
        None => Stage::Failed,
    }
}

/// The size of the screen whose rows are written as they leave it, if they are.
fn size_of_rows(size: Option<ShownSize>, how: How) -> Option<ShownSize>
    ensures rows { result ≡ size_of_rows size how }
    ensures can_be { IfSome size CanBeShown → IfSome result CanBeShown }
{
    match size {
        Some(shown) => {
            if how.goes_further() {
                None
            } else {
                Some(shown)
            }
        }
        None => None,
    }
}

impl Stage {
    /// Whether no more of the log is taken.
    pub(crate) fn is_over(&self) -> bool
        ensures { result ≡ is_over self.now }
    {
        matches!(self, Stage::Ended(_) | Stage::Failed)
    }

    /// Whether it has ended, and what is written stands here.
    pub(crate) fn has_text(&self) -> bool
        ensures { result ≡ has_text self.now }
    {
        matches!(self, Stage::Ended(_))
    }

    /// What is written: nothing before the end.
    pub(crate) fn text(&self) -> &[u8]
        ensures { result.now ≡ text_at self.now }
    {
        match self {
            Stage::Ended(text) => text.as_slice(),
            _ => &[],
        }
    }

    /// The stage after the next bytes of a log that is not over.
    pub(crate) fn fed(self, alloc: Global, size: Option<ShownSize>, how: How, piece: &[u8]) -> Stage
        requires { IfSome size CanBeShown }
        ensures come { is_over result ≡ false → (before : List ℕ)
            → HasComeAt ⟦<Memory as Sink>⟧ size how before self
            → HasComeAt ⟦<Memory as Sink>⟧ size how (before ++ piece.now) result }
        ensures failed { is_over result ≡ true → text_at result ≡ [] }
    {
        match self {
            Stage::Held(front) => held(alloc, size, how, front, piece),
            Stage::Showing(running) => showing(running.take(piece)),
            Stage::Ended(_) | Stage::Failed => Stage::Failed,
        }
    }

    /// The stage after the end of a log that is not over.
    pub(crate) fn at_end(self, alloc: Global, size: Option<ShownSize>, how: How) -> Stage
        requires { IfSome size CanBeShown }
        ensures shown { has_text result ≡ true → (bytes : List ℕ)
            → HasComeAt ⟦<Memory as Sink>⟧ size how bytes self → IsShown size how bytes (text_at result) }
        ensures ended { is_over result ≡ true }
        ensures failed { has_text result ≡ false → text_at result ≡ [] }
    {
        match self {
            Stage::Held(log) => ended(of_whole(alloc, size, how, log.as_slice())),
            Stage::Showing(running) => ended(running.into_text()),
            Stage::Ended(_) | Stage::Failed => Stage::Failed,
        }
    }
}

/// The stage after the next bytes of a log of which these are held.
fn held(alloc: Global, size: Option<ShownSize>, how: How, front: Vec<u8>, piece: &[u8]) -> Stage
    requires { IfSome size CanBeShown }
    ensures come { is_over result ≡ false
        → HasComeAt ⟦<Memory as Sink>⟧ size how (front.items ++ piece.now) result }
    ensures failed { is_over result ≡ true → text_at result ≡ [] }
{
    match extended(front, piece) {
        Some(both) => sized(alloc, size, how, both),
        None => Stage::Failed,
    }
}

/// These bytes and a piece after them; `None` where memory is wanting.
fn extended(front: Vec<u8>, piece: &[u8]) -> Option<Vec<u8>>
    ensures { IfSome result (λ both. both.items ≡ front.items ++ piece.now) }
{
    let mut both = front;
    if both.extend_from_slice(piece).is_err() {
        return None;
    }
    Some(both)
}

/// The stage of a log that begins with these bytes: a screen follows it, where its rows are written and they decide its
/// size.
fn sized(alloc: Global, size: Option<ShownSize>, how: How, front: Vec<u8>) -> Stage
    requires { IfSome size CanBeShown }
    ensures come { is_over result ≡ false → HasComeAt ⟦<Memory as Sink>⟧ size how front.items result }
    ensures failed { is_over result ≡ true → text_at result ≡ [] }
{
    let Some(shown) = size_of_rows(size, how) else {
        return Stage::Held(front);
    };
    if !shown.is_decided(front.as_slice()) {
        return Stage::Held(front);
    }
    showing(begun(alloc, shown, how.form, front.as_slice()))
}
