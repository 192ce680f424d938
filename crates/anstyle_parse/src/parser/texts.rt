//! Texts: characters that are printed one after another, with layout, and handed on at once.
ghost use Rattle.std.specs.Prelude.{◌≡◌, ◌≤◌, ◌<◌, ◌++◌, ◌∷◌, [], ℕ, List, IfSome, IsTrue, length, take};
ghost use Rattle.anstyle_parse.specs.Stream.Items.{EachIs};
ghost use Rattle.anstyle_parse.specs.Views.Accumulator.{front_of, parser_after};
ghost use Rattle.anstyle_parse.specs.Views.Texts.{is_text_byte, BeginWithText, IsTextAt, TakesText, LeadsByTextTo};
ghost use Rattle.anstyle_parse.specs.Views.Stage.{stage};

use super::Parser;
use crate::accumulator::Utf8Parser;
use crate::chunks::{CHUNK, lanes, layouts, outside};
use crate::layout::is_layout;
use crate::padded::Padded;
use crate::perform::PerformText;
use crate::state::State;
use crate::utf8::{Front, whole};

/// The first byte that is a character of its own and printed.
const FIRST_PRINTED: u8 = 0x20;

/// How many such bytes there are, one after another.
const PRINTED: u8 = 0x60;

/// A byte of a text that is a character of its own: one that is printed, 20..7F, or layout.
#[inline(always)]
#[tactic(auto, unfolding(crate::specs::Stream::Bytes::is_within))]
fn is_text_byte(byte: u8) -> bool
    ensures { result ≡ is_text_byte byte }
{
    matches!(byte, 0x20..=0x7F) || is_layout(byte)
}

/// How many bytes of a chunk come first that stand in a text by themselves. Mostly all are printed,
/// or up to one that stands in no text.
#[inline(always)]
fn text_count(chunk: &[u8; CHUNK]) -> usize
    ensures within { result ≤ length chunk.now }
    ensures text { EachIs is_text_byte (take result chunk.now) }
{
    let bytes = lanes(chunk);
    let unprinted = outside(bytes, FIRST_PRINTED, PRINTED);
    if unprinted == 0 {
        return CHUNK;
    }
    let count = unprinted.trailing_zeros() as usize;
    if !is_layout(chunk[count]) {
        return count;
    }
    // Layout is among what is not printed.
    let others = unprinted - layouts(bytes);
    if others == 0 {
        CHUNK
    } else {
        others.trailing_zeros() as usize
    }
}

/// Whether some bytes, the first `count` of a chunk, are followed by a control there.
#[inline(always)]
fn are_ended(chunk: &[u8; CHUNK], count: usize) -> bool
    ensures some { IsTrue result → 0 < count }
    ensures within { IsTrue result → count < length chunk.now }
{
    count > 0 && matches!(chunk.get(count), Some(next) if *next < FIRST_PRINTED)
}

/// What comes after the characters of one byte at the front of a text.
#[inline(always)]
fn after_bytes(bytes: &[u8]) -> &[u8]
    ensures { BeginWithText bytes.now result.now }
{
    let mut rest = bytes;
    'chunks: while let Some((chunk, behind)) = rest.split_first_chunk::<CHUNK>() {
        let count = text_count(chunk);
        if count < CHUNK {
            let (_, others) = rest.split_at(count);
            return others;
        }
        rest = behind;
    }
    after_few(rest)
}

/// The same, byte by byte.
#[inline(always)]
fn after_few(bytes: &[u8]) -> &[u8]
    ensures { BeginWithText bytes.now result.now }
{
    let mut rest = bytes;
    'bytes: while let Some((first, behind)) = rest.split_first() {
        if !is_text_byte(*first) {
            break;
        }
        rest = behind;
    }
    rest
}

/// What comes after the first character of a text, and others of one byte that follow such a one.
#[inline(always)]
fn after_first(first: u8, behind: &[u8]) -> Option<&[u8]>
    ensures text { IfSome result (λ rest. BeginWithText (first ∷ behind.now) rest.now) }
    ensures within { IfSome result (λ rest. length rest.now ≤ length behind.now) }
{
    if first.is_ascii() {
        if !is_text_byte(first) {
            return None;
        }
        return Some(after_bytes(behind));
    }
    let (_, rest) = whole(first, behind)?;
    Some(rest)
}

/// What comes after the text at the front.
#[inline(always)]
fn after_text(bytes: &[u8]) -> &[u8]
    ensures { BeginWithText bytes.now result.now }
{
    let mut rest = bytes;
    'text: while let Some((first, behind)) = rest.split_first() {
        let Some(further) = after_first(*first, behind) else {
            break;
        };
        rest = further;
    }
    rest
}

/// The text at the front, which is not empty, and what comes after it.
#[inline(always)]
fn split_text(bytes: &[u8]) -> Option<(&str, &[u8])>
    ensures text { IfSome result (λ split. BeginWithText bytes.now split.1.now) }
    ensures some { IfSome result (λ split. length split.1.now < length bytes.now) }
    ensures joined { IfSome result (λ split. bytes.now ≡ split.0.now ++ split.1.now) }
{
    let (first, behind) = bytes.split_first()?;
    let rest = after_text(after_first(*first, behind)?);
    let (text, _) = bytes.split_at(bytes.len() - rest.len());
    // All that was passed is whole characters.
    Some((unsafe { str::from_utf8_unchecked(text) }, rest))
}

/// Streams of UTF-8.
impl Parser<Utf8Parser> {
    ghost use Rattle.anstyle_parse.specs.Views.Parser.{machine_of, calls_made};
    ghost use Rattle.anstyle_parse.specs.Views.Texts.{StandsOn, ReceivesOn, CallsGoOn};
    ghost use Rattle.anstyle_parse.specs.Machine.Step.{machine_after, IsWithinLimits};

    /// Takes bytes, as [`advance_all`](Parser::advance_all) does, but hands characters that are
    /// printed one after another, with tabs, line feeds and carriage returns among them, on as one
    /// text, as far as they stand in `bytes`: by [`PerformText::print_with_layout`], or, where the
    /// text ends at a control within sixteen bytes, by [`PerformText::print_padded`].
    ///
    /// A stream may come in any pieces, by any mixture of this call and the others. A character
    /// that is begun in one piece and ends in another is printed by itself.
    #[inline]
    pub fn advance_texts<P: PerformText>(&mut self, performer: &mut P, bytes: &[u8])
        // The headline: the parser stands after all bytes, and a performer that has received
        // exactly the calls of the bytes before has received exactly those of all.
        ensures stands { StandsOn self.old bytes.now self.new }
        ensures received { ReceivesOn P.receives self.old performer.old bytes.now performer.new }

        // The calls made here continue those of the bytes before.
        ensures stream { CallsGoOn self.old bytes.now }

        // The bytes do what the machine does with each in turn, and what is kept stays within
        // the limits.
        ensures machine { machine_of self.new ≡ machine_after parser_after bytes.now (machine_of self.old) }
        ensures calls { P.receives performer.old (calls_made parser_after self.old bytes.now) performer.new }
        ensures limits { IsWithinLimits (machine_of self.new) }
    {
        self.take_texts(performer, bytes);
    }

    /// Bytes, as the machine takes them one after another.
    fn take_texts<P: PerformText>(&mut self, performer: &mut P, bytes: &[u8])
        ensures machine { machine_of self.new ≡ machine_after parser_after bytes.now (machine_of self.old) }
        ensures calls { P.receives performer.old (calls_made parser_after self.old bytes.now) performer.new }
    {
        let mut rest = bytes;
        'rest: while !rest.is_empty() {
            rest = match self.state {
                State::Ground => {
                    let further = self.take_text(performer, rest);
                    self.take_unprinted(performer, further)
                }
                _ => self.take_first(performer, rest),
            };
        }
    }

    /// The text at the front, if there is one. A control at the front is left, since often no text follows it. A text
    /// that ends within a chunk, at a control, is handed on with that chunk.
    #[inline(always)]
    pub(super) fn take_text<'a, P: PerformText>(
        &self,
        performer: &mut P,
        bytes: &'a [u8],
    ) -> &'a [u8]
        requires { self.now.state ≡ State.Ground }
        ensures leads { LeadsByTextTo P.receives (stage self.now performer.old bytes.now)
            (stage self.now performer.new result.now) }
        ensures taken { TakesText P.receives self.now performer.old bytes.now performer.new result.now }
        ensures within { length result.now ≤ length bytes.now }
    {
        let Some((first, _)) = bytes.split_first() else {
            return bytes;
        };
        if *first < FIRST_PRINTED {
            return bytes;
        }
        if let Some((chunk, _)) = bytes.split_first_chunk::<CHUNK>() {
            let count = text_count(chunk);
            if are_ended(chunk, count) && self.is_between_characters() {
                performer.print_padded(&Padded::new(chunk, count));
                let (_, further) = bytes.split_at(count);
                return further;
            }
        }
        match self.text_at(bytes) {
            Some((text, further)) => {
                performer.print_with_layout(text);
                further
            }
            None => bytes,
        }
    }

    /// Whether no character is begun.
    #[inline(always)]
    fn is_between_characters(&self) -> bool
        ensures { IsTrue result → front_of self.now.accumulator ≡ [] }
    {
        matches!(self.accumulator.front(), Front::Empty)
    }

    /// The text at the front, and what comes after it, where no character is begun.
    #[inline(always)]
    fn text_at<'a>(&self, bytes: &'a [u8]) -> Option<(&'a str, &'a [u8])>
        requires { self.now.state ≡ State.Ground }
        ensures { IfSome result (λ split. IsTextAt self.now bytes.now split.0.now split.1.now) }
    {
        match self.accumulator.front() {
            Front::Empty => split_text(bytes),
            _ => None,
        }
    }
}
