//! From a reader to a writer: the bytes go through a new parser to a performer, which writes.
ghost use Rattle.std.specs.Prelude.{◌≡◌, ◌++◌, [], ℕ, List, None, OnOk};
ghost use Rattle.anstyle_parse.specs.declared.io.output.Output.{Output as AnOutput};
ghost use Rattle.anstyle_parse.specs.Stream.Call.{Call};
ghost use Rattle.anstyle_parse.specs.Io.Output.{writer_in, fault_in, Adds};
ghost use Rattle.anstyle_parse.specs.Io.Run.{Drives, PerformsToEnd, Runs, RunsToEnding};

use super::{Fault, Output, Sink, Source};
use crate::accumulator::Utf8Parser;
use crate::parser::Parser;
use crate::perform::{Perform, PerformText};

/// The bytes that one read is asked for.
pub(super) const PIECE: usize = 4096;

/// Why no more was read.
#[derive(Debug, Clone, Copy, PartialEq, Eq)]
pub enum Stop {
    /// A read gave 0.
    AtEnd,
    /// The performer's output keeps a fault.
    AtFault,
    /// A read failed, or all reads that are made at most gave bytes.
    AtRead,
}

/// Gives what the reader gives to a new parser, in pieces of at most 4096 bytes, until the reader
/// ends: for a performer that is given, as a screen. `Err(Fault::Read)` means that a read failed,
/// or that 2^64 - 1 reads all gave bytes; the performer has received what was read by then.
pub fn perform_to_end<P: Perform, R: Source>(reader: &mut R, performer: &mut P) -> Result<(), Fault>
    ensures { PerformsToEnd R.Source P.means reader.old reader.new performer.old performer.new result }
{
    let mut parser = Parser::<Utf8Parser>::new();
    let mut piece = [0; PIECE];
    for turn in 0..u64::MAX {
        match reader.read(&mut piece) {
            None => return Err(Fault::Read),
            Some(0) => return Ok(()),
            Some(count) => parser.advance_all(performer, &piece[..count]),
        }
    }
    Err(Fault::Read)
}

/// Gives what the reader gives to a new parser, in pieces of at most 4096 bytes, until the
/// reader ends or fails or the performer's output keeps a fault. At most 2^64 - 1 reads are made.
/// The parser hands on texts, and of control sequences what the performer heeds
/// ([`Parser::advance_heeded`]). What was written of a piece is handed on before the next read.
pub fn drive<P: WritingPerformer<W>, R: Source, W: Sink>(reader: &mut R, performer: &mut P) -> Stop
    requires { fault_in (P.output_in performer.old) ≡ None }
    ensures { Drives R.Source P.receives P.output_in reader.old reader.new performer.old performer.new result }
{
    let mut parser = Parser::<Utf8Parser>::new();
    let mut piece = [0; PIECE];
    for turn in 0..u64::MAX {
        match reader.read(&mut piece) {
            None => return Stop::AtRead,
            Some(0) => return Stop::AtEnd,
            Some(count) => {
                parser.advance_heeded(performer, &piece[..count]);
                performer.pass_on();
                if performer.output().fault().is_some() {
                    return Stop::AtFault;
                }
            }
        }
    }
    Stop::AtRead
}

/// A performer that writes a text of its calls to an [`Output`].
///
/// An implementation says what text it writes of a list of calls from where it stands, and what it
/// then has still to write. [`write_calls_by`] does the rest.
pub trait WritingPerformer<W: Sink>: PerformText {
    // The output that it writes to.
    ghost output_in: { Self → AnOutput W };
    // What it writes by a list of calls, as it stands,
    ghost text_from: { Self → List Call → List ℕ };
    // and what is still to be written after these.
    ghost ending_from: { Self → List Call → List ℕ } = { λ _ _. [] };

    /// The output that it writes to.
    fn output(&self) -> &Output<W>
        ensures { result.now ≡ output_in self.now };

    /// Hands on what the writer of the output holds back ([`Output::pass_on`]), before more is
    /// read: as if it had received no call.
    fn pass_on(&mut self)
        ensures { Self.receives self.old [] self.new }
    {}

    /// Writes what is still to be written, and hands the output back.
    fn into_output(self) -> Output<W>
        ensures { Adds W.Sink (ending_from self []) (output_in self) result };

    // By a list of calls it writes their text. (Where this is the text of each call, joined,
    // `receives` may say so by `AddsTexts` of `specs/Io/Output.antt`, and this is the same.)
    ghost adds: { (old : Self) (calls : List Call) (new : Self) → Self.receives old calls new
        → Adds W.Sink (text_from old calls) (output_in old) (output_in new) };

    // Where no fault stopped it, their ending is still to be written.
    ghost ends: { (old : Self) (calls : List Call) (new : Self) → Self.receives old calls new
        → fault_in (output_in new) ≡ None → ending_from new [] ≡ ending_from old calls };
}

/// One that is made over an output alone, so that a type says what text a new one writes:
/// [`write_calls`] makes it.
pub trait CallWriter<W: Sink>: WritingPerformer<W> {
    // It has received no call.
    ghost is_new: { Self → Type 0 };
    // What a new one writes by a list of calls,
    ghost text: { List Call → List ℕ };
    // and what is still to be written after these.
    ghost ending: { List Call → List ℕ } = { λ _. [] };

    /// One that writes to this output and has received no call. Nothing is written.
    fn over(output: Output<W>) -> Self
        ensures output { Self.output_in result ≡ output }
        ensures new { is_new result };

    // As it stands it writes that text, with that ending.
    ghost text_of_new: { (performer : Self) → is_new performer
        → (calls : List Call) → Self.text_from performer calls ≡ text calls };

    ghost ending_of_new: { (performer : Self) → is_new performer
        → (calls : List Call) → Self.ending_from performer calls ≡ ending calls };
}

/// Writes the text of the calls of all bytes that the reader gives, and its ending.
///
/// `P` says which text: `write_calls::<CanonWriter<W>, R, W>` writes the canonical one. The
/// bytes are read in pieces of at most 4096 and go to a new parser; no memory is taken. The
/// writer is always handed back. The answer is
///
/// - `Ok(())` where a read gave 0, and the flush that followed went well;
/// - `Err(Fault::Flush)` where that flush failed;
/// - `Err(Fault::Read)` where a read failed, or 2^64 - 1 reads all gave bytes: the text of
///   the bytes read by then is written and its ending, as far as the writer takes the ending,
///   and then the writer is flushed once, whatever that answers;
/// - `Err(Fault::Write)` where a write failed: what is written is a proper prefix of the
///   text and its ending, and nothing was read or written after the fault.
pub fn write_calls<P: CallWriter<W>, R: Source, W: Sink>(
    reader: &mut R,
    writer: W,
) -> (W, Result<(), Fault>)
    ensures runs { RunsToEnding R.Source W.Sink P.text P.ending reader.old reader.new writer result }

    // Where the text has no ending.
    ensures without_ending { ((calls : List Call) → P.ending calls ≡ [])
        → Runs R.Source W.Sink P.text reader.old reader.new writer result }

    // With Ok nothing of it is held back.
    ensures handed_on { OnOk result.1 (W.holds_nothing result.0) }
{
    write_calls_between::<P, R, W>(b"", reader, writer, b"")
}

/// The same with a text before and one after, such as the head and the tail of a page.
///
/// A write of the head that fails is `Err(Fault::Write)` too, and then nothing is read.
pub fn write_calls_between<P: CallWriter<W>, R: Source, W: Sink>(
    head: &[u8],
    reader: &mut R,
    writer: W,
    tail: &[u8],
) -> (W, Result<(), Fault>)
    ensures runs { RunsToEnding R.Source W.Sink
        (λ calls. head.now ++ P.text calls) (λ calls. P.ending calls ++ tail.now)
        reader.old reader.new writer result }
    ensures handed_on { OnOk result.1 (W.holds_nothing result.0) }
{
    let mut output = Output::new(writer);
    output.put(head);
    write_calls_by(P::over(output), reader, tail)
}

/// The same by a performer that is given: one with a state of its own, such as a screen.
///
/// What its output has taken before, such as a head, counts as written by this run: where a write of
/// that failed, the answer is `Err(Fault::Write)`, and nothing is read.
pub fn write_calls_by<P: WritingPerformer<W>, R: Source, W: Sink>(
    performer: P,
    reader: &mut R,
    tail: &[u8],
) -> (W, Result<(), Fault>)
    // From where its output kept no fault.
    ensures runs { (start : AnOutput W) (head : List ℕ) → fault_in start ≡ None
        → Adds W.Sink head start (P.output_in performer)
        → RunsToEnding R.Source W.Sink
        (λ calls. head ++ P.text_from performer calls)
        (λ calls. P.ending_from performer calls ++ tail.now)
        reader.old reader.new (writer_in start) result }
    ensures handed_on { OnOk result.1 (W.holds_nothing result.0) }
{
    let mut performer = performer;
    if performer.output().fault().is_some() {
        return performer.into_output().finish();
    }
    let stop = drive::<P, R, W>(reader, &mut performer);
    let mut output = performer.into_output();
    output.put(tail);
    let (writer, answer) = output.finish();
    match stop {
        Stop::AtRead => (writer, Err(Fault::Read)),
        Stop::AtEnd | Stop::AtFault => (writer, answer),
    }
}
