//! Control sequences that a performer passes over: only where they end is looked for.
ghost use Rattle.std.specs.Prelude.{◌≡◌, ◌≤◌, ◌<◌, ◌-◌, ◌++◌, [], ℕ, List, IfSome, length};
ghost use Rattle.anstyle_parse.specs.Views.Accumulator.{front_of, parser_after};
ghost use Rattle.anstyle_parse.specs.Views.Passing.{PassFields, BeginWithSequence, PassesOver, LeadsInEffectTo};
ghost use Rattle.anstyle_parse.specs.Views.Stage.{stage};

use super::Parser;
use super::header::is_final_byte;
use crate::accumulator::Utf8Parser;
use crate::chunks::{CHUNK, beyond_fields};
use crate::controls::ESCAPE;
use crate::perform::PerformText;
use crate::state::State;
use std::simd::prelude::*;

/// What comes after the digits and separators at the front, as far as they stand in whole chunks.
#[inline(always)]
fn after_fields(bytes: &[u8]) -> &[u8]
    ensures { PassFields bytes.now result.now }
{
    let mut rest = bytes;
    'chunks: while let Some((chunk, behind)) = rest.split_first_chunk::<CHUNK>() {
        let others = beyond_fields(u8x16::from_array(*chunk));
        if others != 0 {
            let (_, left) = rest.split_at(others.trailing_zeros() as usize);
            return left;
        }
        rest = behind;
    }
    rest
}

/// What comes after a control sequence of fields alone, if one stands at the front, whole.
#[inline(always)]
pub(super) fn after_sequence(bytes: &[u8]) -> Option<&[u8]>
    ensures sequence { IfSome result (λ left. BeginWithSequence bytes.now left.now) }
    ensures within { IfSome result (λ left. length left.now < length bytes.now) }
{
    let (escape, begun) = bytes.split_first()?;
    if *escape != ESCAPE {
        return None;
    }
    let (introducer, header) = begun.split_first()?;
    if *introducer != b'[' {
        return None;
    }
    let (last, behind) = after_fields(header).split_first()?;
    if !is_final_byte(*last) {
        return None;
    }
    Some(behind)
}

/// The same of one that the performer passes over.
#[inline(always)]
pub(super) fn after_passed<'a, P: PerformText>(performer: &P, bytes: &'a [u8]) -> Option<&'a [u8]>
    ensures passes { IfSome result (λ left. PassesOver P.receives performer.now) }
    ensures sequence { IfSome result (λ left. BeginWithSequence bytes.now left.now) }
    ensures within { IfSome result (λ left. length left.now < length bytes.now) }
{
    if !performer.passes_over_control_sequences() {
        return None;
    }
    after_sequence(bytes)
}

/// Streams of UTF-8, for a performer that may pass over control sequences.
impl Parser<Utf8Parser> {
    ghost use Rattle.anstyle_parse.specs.Views.Parser.{calls_made};
    ghost use Rattle.anstyle_parse.specs.Views.Texts.{StandsOn, ReceivesOn, CallsGoOn};

    /// Takes bytes, as [`advance_texts`](Parser::advance_texts) does, but of control sequences that leave the performer
    /// as it is ([`PerformText::passes_over_control_sequences`]) it may look for the end alone. Then `csi_dispatch` is
    /// not called.
    ///
    /// A stream may come in any pieces, by any mixture of this call and the others.
    #[inline]
    pub fn advance_heeded<P: PerformText>(&mut self, performer: &mut P, bytes: &[u8])
        // The headline: the parser stands after all bytes, and a performer that has received
        // exactly the calls of the bytes before has received exactly those of all.
        ensures stands { StandsOn self.old bytes.now self.new }
        ensures received { ReceivesOn P.receives self.old performer.old bytes.now performer.new }

        // These calls continue those of the bytes before.
        ensures stream { CallsGoOn self.old bytes.now }
        ensures calls { P.receives performer.old (calls_made parser_after self.old bytes.now) performer.new }
    {
        self.take_heeded(performer, bytes);
    }

    /// Bytes, as the machine takes them one after another, in what counts.
    fn take_heeded<P: PerformText>(&mut self, performer: &mut P, bytes: &[u8])
        ensures { LeadsInEffectTo P.receives (stage self.old performer.old bytes.now)
            (stage self.new performer.new []) }
    {
        let mut rest = bytes;
        'rest: while !rest.is_empty() {
            rest = match self.state {
                State::Ground => self.take_or_pass(performer, rest),
                _ => self.take_first(performer, rest),
            };
        }
    }

    /// The text at the front, and a control sequence that is passed over, or what else follows it.
    #[inline(always)]
    fn take_or_pass<'a, P: PerformText>(&mut self, performer: &mut P, bytes: &'a [u8]) -> &'a [u8]
        requires { self.old.state ≡ State.Ground }
        ensures leads { LeadsInEffectTo P.receives (stage self.old performer.old bytes.now)
            (stage self.new performer.new result.now) }
        ensures onward { length result.now ≤ length bytes.now - 1 }
    {
        let further = self.take_text(performer, bytes);
        match after_passed(performer, further) {
            Some(behind) => behind,
            None => self.take_unprinted(performer, further),
        }
    }
}
