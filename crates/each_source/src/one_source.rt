//! What one source gives, to a performer, as long as what that writes gets on.
ghost use Rattle.std.specs.Prelude.{◌≡◌, ◌≤◌, [], true, false, None, IfSome, IfNone, length, take};
ghost use Rattle.std.specs.Io.KnownBytes.{Consumes};
ghost use Rattle.anstyle_parse.specs.Io.Output.{fault_in};
ghost use Rattle.each_source.specs.Ended.{is_stuck, HasNoEscape, IsLastEscape, GivesOn, IsUpTo, Reads};

use crate::Begin;
use anstyle_parse::io::{Sink, Source, WritingPerformer};
use anstyle_parse::{Parser, Utf8Parser};

/// The bytes that one read is asked for.
pub(crate) const PIECE: usize = 4096;

/// So many bytes at the front of a stream always say which performer it has.
pub const MOST_FRONT: usize = PIECE;

const ESCAPE: u8 = 0x1B;

/// How the reading of a source came to an end.
#[derive(Clone, Copy)]
pub(crate) enum Ended {
    /// The source is at its end or has failed, or the output keeps a fault.
    Over,
    /// The source is at its end, inside of a string that begins at this byte of it.
    InString(u64),
    /// What the writer holds back can't be passed on.
    Stuck,
}

impl Ended {
    pub(crate) fn is_stuck(self) -> bool
        ensures { result ≡ is_stuck self }
    {
        matches!(self, Ended::Stuck)
    }
}

/// How far a source is read.
#[derive(Clone, Copy)]
pub(crate) enum Reached {
    /// More may come.
    Middle,
    /// The source is at its end.
    End,
    /// A read has failed.
    Failure,
}

/// Where the last sequence of a stream begins, as its pieces come.
#[derive(Clone, Copy)]
struct LastSequence {
    /// How many bytes have come.
    read: u64,
    begins: u64,
}

impl LastSequence {
    /// A piece more, after which a sequence is open or not. A sequence that is open begins with the last ESC.
    fn take(&mut self, piece: &[u8], is_open: bool) {
        if is_open {
            if let Some(place) = last_escape(piece) {
                self.begins = self.read.saturating_add(place as u64);
            }
        }
        self.read = self.read.saturating_add(piece.len() as u64);
    }
}

/// Where the last ESC stands.
fn last_escape(bytes: &[u8]) -> Option<usize>
    ensures last { IfSome result (λ place. IsLastEscape place bytes.now) }
    ensures none { IfNone result (HasNoEscape bytes.now) }
{
    let mut rest = bytes;
    'rest: while let Some((last, before)) = rest.split_last() {
        if *last == ESCAPE {
            return Some(before.len());
        }
        rest = before;
    }
    None
}

/// Reads the front of a stream, as far as it has to be seen before its performer begins: to the front of this piece.
/// The answer is how many bytes there are, and how far the source is read: where none has to be seen none is read.
pub(crate) fn read_front<P: WritingPerformer<W>, B: Begin<P, W>, R: Source, W: Sink>(
    begin: &B,
    reader: &mut R,
    piece: &mut [u8; PIECE],
) -> (usize, Reached)
    ensures within { result.0 ≤ PIECE }
    ensures none { B.enough begin.now [] ≡ true → result.0 ≡ 0 }
    ensures consumed { Consumes (R.remaining reader.old) (R.remaining reader.new) (take result.0 piece.new) }
    ensures reached { IsUpTo R.Source (B.enough begin.now) reader.new (take result.0 piece.new) result.1 }
{
    let mut count = 0;
    'count: while !begin.is_enough(&piece[..count]) {
        match reader.read(&mut piece[count..]) {
            None => return (count, Reached::Failure),
            Some(0) => return (count, Reached::End),
            Some(more) => count += more,
        }
    }
    (count, Reached::Middle)
}

/// Gives a piece to the parser, and passes on what was written of it; of none nothing is done. The answer is why no
/// more is to be read, if so: the performer's output keeps a fault, or what its writer holds back can't be passed on.
fn give<P: WritingPerformer<W>, W: Sink>(
    parser: &mut Parser<Utf8Parser>,
    performer: &mut P,
    piece: &[u8],
) -> Option<Ended>
    requires { fault_in (P.output_in performer.old) ≡ None }
    ensures { GivesOn W.Sink P.receives P.output_in parser.old performer.old piece.now parser.new performer.new
        result }
{
    if piece.is_empty() {
        return None;
    }
    parser.advance_log(performer, piece);
    performer.pass_on();
    if performer.output().fault().is_some() {
        return Some(Ended::Over);
    }
    if performer.output().is_stuck() {
        return Some(Ended::Stuck);
    }
    None
}

/// Gives what the reader gives to a new parser, as a reader of logs reads it ([`Parser::advance_log`]): the front that
/// is read, and then pieces of at most 4096 bytes, until the reader ends or fails, the performer's output keeps a
/// fault, or what its writer holds back can't be passed on. At most 2^64 - 1 reads are made. What was written of a
/// piece is passed on before the next read.
pub(crate) fn read_to<P: WritingPerformer<W>, R: Source, W: Sink>(
    reader: &mut R,
    performer: &mut P,
    front: &[u8],
    reached: Reached,
) -> Ended
    requires { fault_in (P.output_in performer.old) ≡ None }
    ensures { Reads R.Source W.Sink P.receives P.output_in front.now reached reader.old reader.new
        performer.old performer.new (is_stuck result) }
{
    let mut parser = Parser::<Utf8Parser>::new();
    let mut last = LastSequence { read: 0, begins: 0 };
    let stopped = give(&mut parser, performer, front);
    last.take(front, parser.is_in_sequence());
    if let Some(ended) = stopped {
        return ended;
    }
    match reached {
        Reached::Middle => {}
        Reached::End => {
            parser.end_log(performer);
            return at_end(&parser, last.begins);
        }
        Reached::Failure => {
            parser.end_log(performer);
            return Ended::Over;
        }
    }
    let mut piece = [0; PIECE];
    for turn in 0..u64::MAX {
        match reader.read(&mut piece) {
            None => {
                parser.end_log(performer);
                return Ended::Over;
            }
            Some(0) => {
                parser.end_log(performer);
                return at_end(&parser, last.begins);
            }
            Some(count) => {
                let stopped = give(&mut parser, performer, &piece[..count]);
                last.take(&piece[..count], parser.is_in_sequence());
                if let Some(ended) = stopped {
                    return ended;
                }
            }
        }
    }
    parser.end_log(performer);
    Ended::Over
}

/// How a stream ends whose last sequence begins there.
fn at_end(parser: &Parser<Utf8Parser>, begins: u64) -> Ended
    ensures { is_stuck result ≡ false }
{
    if parser.is_in_string() {
        Ended::InString(begins)
    } else {
        Ended::Over
    }
}
