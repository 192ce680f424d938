//! Many sources, one after another: each is a stream of its own, with its own parser and performer, and what is
//! written of all is the join of what is written of each.
#![tactic(auto)]

mod begun;
mod one_source;

ghost use Rattle.std.specs.Prelude.{◌≡◌, ◌≤◌, ◌++◌, ℕ, Bool, List, None, OnOk, IfOk, IfErr, IsTrue, length};
ghost use Rattle.anstyle_parse.specs.Io.Output.{fault_in, Adds};
ghost use Rattle.each_source.specs.Each.{Given, BeginsWith, WritesOne, AddsEach, WritesEach, IsFrontRead, stopped_by};

use anstyle_parse::io::{Fault, FromRead, Output, Sink, Source, WritingPerformer};
pub use begun::{Begun, read_first_line};
pub use one_source::MOST_FRONT;
use one_source::{Ended, PIECE, read_front, read_to};
use std::io::Read;

/// Why not all was written.
#[derive(Debug, Clone, Copy, PartialEq, Eq)]
pub enum Stopped {
    /// There was no memory for the next stream's performer.
    NoMemory,
    /// What the writer holds back could not be passed on, as to a full disk or a pipe that nobody reads.
    Stuck,
    /// The output failed: [`Fault::Write`] or [`Fault::Flush`].
    AtFault(Fault),
}

/// A source that is told where its stream was cut off.
pub trait Stream: Source {
    /// The stream has ended inside of a string ([`Parser::is_in_string`](anstyle_parse::Parser::is_in_string)), which
    /// begins at this byte of it, counted from 0. Of the string, which may be the rest of a text, nothing was written.
    fn ended_in_string(&self, begin: u64);
}

/// A reader of std is not told.
impl<R: Read> Stream for FromRead<R> {
    fn ended_in_string(&self, _begin: u64) {}
}

/// Makes the performer of each stream, and may look at its first bytes before.
pub trait Begin<P: WritingPerformer<W>, W: Sink> {
    // What a performer of its writes by what a source gave,
    ghost text: { Self → Given → List ℕ };
    // and what is still to be written after that.
    ghost ending: { Self → Given → List ℕ };
    // Whether these bytes at the front of a stream say which performer it has.
    ghost enough: { Self → List ℕ → Bool };

    /// Whether these bytes at the front of a stream say which performer it has, whatever comes after them. If not, more
    /// are read before it begins; [`MOST_FRONT`] are enough for each.
    fn is_enough(&self, front: &[u8]) -> bool
        ensures enough { result ≡ enough self.now front.now }
        ensures limit { MOST_FRONT ≤ length front.now → IsTrue result };

    /// A performer that has received no call, over this output, for a stream that begins with these bytes. Nothing is
    /// written. Where there is no memory for one, the output comes back as it was.
    fn begin(&self, front: &[u8], output: Output<W>) -> Result<P, Output<W>>
        ensures output { IfOk result (λ performer. P.output_in performer ≡ output) }
        ensures text { IfOk result (λ performer. (given : Given) → BeginsWith (enough self.now) front.now given
            → P.text_from performer given.calls ≡ text self.now given) }
        ensures ending { IfOk result (λ performer. (given : Given) → BeginsWith (enough self.now) front.now given
            → P.ending_from performer given.calls ≡ ending self.now given) }
        ensures kept { IfErr result (λ kept. kept ≡ output) };
}

/// Writes the text of all that the reader gives, and its ending, to an output with no fault: until the reader
/// ends or fails, or the output does, or its writer is stuck, which the answer says. `Err` where there is no memory for
/// the performer: then no more is read than what `begin` looked at, at most [`MOST_FRONT`] bytes.
fn write_one<P: WritingPerformer<W>, B: Begin<P, W>, R: Stream, W: Sink>(
    begin: &B,
    reader: &mut R,
    output: Output<W>,
) -> Result<(Output<W>, bool), Output<W>>
    requires { fault_in output ≡ None }
    ensures written { IfOk result (λ one. WritesOne R.Source W.Sink
        (λ given. B.text begin.now given ++ B.ending begin.now given) reader.old reader.new output one.0 one.1) }
    ensures kept { IfErr result (λ after. after ≡ output) }
    ensures begun { IfErr result (λ _. IsFrontRead R.Source reader.old reader.new) }
{
    let mut piece = [0; PIECE];
    let (count, reached) = read_front::<P, B, R, W>(begin, reader, &mut piece);
    let mut performer = begin.begin(&piece[..count], output)?;
    let ended = read_to::<P, R, W>(reader, &mut performer, &piece[..count], reached);
    let is_stuck = ended.is_stuck();
    if let Ended::InString(begin) = ended {
        reader.ended_in_string(begin);
    }
    let output = performer.into_output();
    let is_clear = output.fault().is_none();
    Ok((output, is_stuck & is_clear))
}

/// The same of each reader in turn, until the output fails. `Err` where there was no memory for the next performer, or
/// the writer is stuck: then the output has no fault.
fn add_each<P: WritingPerformer<W>, B: Begin<P, W>, R: Stream, W: Sink>(
    begin: &B,
    readers: &mut [R],
    output: Output<W>,
) -> (Output<W>, Result<(), Stopped>)
    ensures { AddsEach R.Source W.Sink
        (λ given. B.text begin.now given ++ B.ending begin.now given)
        readers.old readers.new output result.0 result.1 }
{
    let mut output = output;
    for reader in readers.iter_mut() {
        if output.fault().is_some() {
            return (output, Ok(()));
        }
        match write_one::<P, B, R, W>(begin, reader, output) {
            Ok((after, is_stuck)) => {
                if is_stuck {
                    return (after, Err(Stopped::Stuck));
                }
                output = after;
            }
            Err(after) => return (after, Err(Stopped::NoMemory)),
        }
    }
    (output, Ok(()))
}

/// What stopped it, where the output failed.
fn stopped_by(answer: Result<(), Fault>) -> Result<(), Stopped>
    ensures { result ≡ stopped_by answer }
{
    match answer {
        Ok(()) => Ok(()),
        Err(fault) => Err(Stopped::AtFault(fault)),
    }
}

/// Writes the head, the text of each reader in turn, and the tail.
///
/// Each reader is a stream of its own: it goes to a new parser, in pieces of at most 4096 bytes, as a reader of logs
/// reads them ([`Parser::advance_log`](anstyle_parse::Parser::advance_log)), and to a performer of its own, which
/// `begin` makes. A read that fails ends its stream, and the next reader goes on: whether one has failed the readers
/// say. The writer is always handed back. The answer is
///
/// - `Ok(())` where each reader was read to its end or to a failed read, and the flush that followed went well;
/// - `Err(AtFault(Fault::Flush))` where that flush failed;
/// - `Err(AtFault(Fault::Write))` where a write failed: what is written is a proper prefix of all, and nothing was
///   read or written after the fault;
/// - `Err(Stuck)` where what the writer holds back could not be passed on (`Sink::is_stuck`): the texts of what
///   was read by then were given to the writer, no more is read, and then it is flushed once, whatever that answers;
/// - `Err(NoMemory)` where `begin` had no memory for the next stream's performer: the texts before it are written,
///   and then the writer is flushed once, whatever that answers. Of the next stream no more is read than `begin` looks
///   at, at most [`MOST_FRONT`] bytes.
// (out of line: a program has one for each kind of performer, and in one frame they would touch the memory of all)
#[inline(never)]
pub fn write_each<P: WritingPerformer<W>, B: Begin<P, W>, R: Stream, W: Sink>(
    begin: &B,
    head: &[u8],
    readers: &mut [R],
    writer: W,
    tail: &[u8],
) -> (W, Result<(), Stopped>)
    // What is written is the join of what is written of each.
    ensures joined { WritesEach R.Source W.Sink
        (λ given. B.text begin.now given ++ B.ending begin.now given) (head.now, tail.now)
        readers.old readers.new writer result }

    // With Ok nothing of it is held back.
    ensures handed_on { OnOk result.1 (W.holds_nothing result.0) }
{
    let mut output = Output::new(writer);
    output.put(head);
    let (mut output, added) = add_each::<P, B, R, W>(begin, readers, output);
    if added.is_err() {
        let (writer, _) = output.finish();
        return (writer, added);
    }
    output.put(tail);
    let (writer, answer) = output.finish();
    (writer, stopped_by(answer))
}
