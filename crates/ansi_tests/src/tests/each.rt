//! Sources one after another.
ghost use Rattle.std.specs.Prelude.{◌≡◌, true, IfOk, IfErr};
ghost use Rattle.ansi_strip.specs.Strip.{stripped};
ghost use Rattle.each_source.specs.Each.{Given, BeginsWith};
ghost use Rattle.ansi_tests.specs.Ending.{no_text};

use super::{assert_bytes, assert_count};
use ansi_strip::Stripper;
use anstyle_parse::io::{Buffer, CallWriter, Fault, FromRead, FromWrite, Output, Sink, Source};
use command_line::{
    Destination, Input, Line, OUTPUT, Outputs, Place, Target, file_failed, file_name, given_line,
    have_failed, inputs, is_folder, line_of, outputs_in,
};
use each_source::{Begin, Begun, MOST_FRONT, Stopped, Stream, read_first_line, write_each};
use std::alloc::Global;
use std::io::{Error, ErrorKind};
use std::process::{Abort, ExitCode};
use std::test::Fail;
use test_streams::{Paper, TROUBLES, Tape};
use without_hidden::{LeavingOut, WithoutHidden};

/// Each stream is stripped.
struct Stripping;

impl<W: Sink> Begin<Stripper<W>, W> for Stripping {
    ghost use Rattle.ansi_strip.specs.Stripper.{output_of};

    ghost text = { λ _ given. stripped given.calls };

    ghost ending = { λ _ _. no_text };

    ghost enough = { λ _ _. true };

    fn is_enough(&self, _front: &[u8]) -> bool {
        true
    }

    fn begin(&self, _front: &[u8], output: Output<W>) -> Result<Stripper<W>, Output<W>>
        ensures output { IfOk result (λ performer. output_of performer ≡ output) }
        ensures text { IfOk result (λ performer. (given : Given) → BeginsWith (λ _. true) _front.now given
            → stripped given.calls ≡ stripped given.calls) }
        ensures ending { IfOk result (λ performer. (given : Given) → BeginsWith (λ _. true) _front.now given
            → no_text ≡ no_text) }
        ensures kept { IfErr result (λ kept. kept ≡ output) }
    {
        Ok(Stripper::over(output))
    }
}

/// The same, once three bytes of it have come.
#[derive(Clone, Copy)]
struct Waiting;

impl<W: Sink> Begin<Stripper<W>, W> for Waiting {
    ghost use Rattle.std.specs.Prelude.{nat_le, length};
    ghost use Rattle.ansi_strip.specs.Stripper.{output_of};

    ghost text = { λ _ given. stripped given.calls };

    ghost ending = { λ _ _. no_text };

    ghost enough = { λ _ front. nat_le 3 (length front) };

    fn is_enough(&self, front: &[u8]) -> bool {
        3 <= front.len()
    }

    fn begin(&self, _front: &[u8], output: Output<W>) -> Result<Stripper<W>, Output<W>>
        ensures output { IfOk result (λ performer. output_of performer ≡ output) }
        ensures text { IfOk result (λ performer. (given : Given)
            → BeginsWith (λ front. nat_le 3 (length front)) _front.now given
            → stripped given.calls ≡ stripped given.calls) }
        ensures ending { IfOk result (λ performer. (given : Given)
            → BeginsWith (λ front. nat_le 3 (length front)) _front.now given → no_text ≡ no_text) }
        ensures kept { IfErr result (λ kept. kept ≡ output) }
    {
        Ok(Stripper::over(output))
    }
}

/// A stream that gives these bytes at once.
fn at_once(bytes: &[u8]) -> FromRead<Tape<'_>> {
    FromRead::new(Tape::new(bytes))
}

/// One that gives a byte a read.
fn by_byte(bytes: &[u8]) -> FromRead<Tape<'_>> {
    FromRead::new(Tape::by_byte(bytes))
}

/// The same, but the read of this number fails.
fn failing(bytes: &[u8], fails_at: u64) -> FromRead<Tape<'_>> {
    let mut tape = Tape::by_byte(bytes);
    tape.fails_at = fails_at;
    FromRead::new(tape)
}

/// Three tapes: a sequence and a character that are cut off by the ends of the first two.
fn tapes() -> [FromRead<Tape<'static>>; 3] {
    [
        at_once(b"A\x1b[3"),
        at_once(b"1mB\xe2\x82"),
        by_byte(b"\xacC\x1b[m"),
    ]
}

/// Streams between a head and a tail. (A test that calls this is proved sooner than one that calls `write_each`, of
/// which much is known.)
fn write_between<B: Begin<Stripper<W>, W>, R: Stream, W: Sink>(
    begin: &B,
    head: &[u8],
    readers: &mut [R],
    writer: W,
    tail: &[u8],
) -> (W, Result<(), Stopped>) {
    write_each::<Stripper<W>, B, R, W>(begin, head, readers, writer, tail)
}

/// A run that goes well writes this.
fn assert_written<B: Begin<Stripper<FromWrite<Vec<u8>>>, FromWrite<Vec<u8>>>>(
    rt: &(impl Abort + AllocGlobal),
    begin: &B,
    head: &[u8],
    readers: &mut [FromRead<Tape<'_>>],
    tail: &[u8],
    wanted: &[u8],
) {
    let writer = FromWrite::new(Vec::new(rt.alloc()));
    let (writer, answer) = write_between(begin, head, readers, writer, tail);
    assert_bytes(rt, writer.into_inner().as_slice(), wanted);
    assert_eq!(rt; answer, Ok(()));
}

/// A reader made so many reads.
fn assert_reads(rt: &impl Abort, reader: FromRead<Tape<'_>>, reads: u64) {
    assert_count(rt, reader.into_inner().reads, reads);
}

/// Hidden text of each is left out, also where it is not shown again at the end of the one before.
#[test]
fn hidden_text_of_each(rt: HostRuntime) -> Result<(), Fail> {
    let mut readers = [at_once(b"a\x1b[8mb"), by_byte(b"c\x1b[8md\x1b[28me")];
    let begin = LeavingOut { begin: Waiting };
    let writer = FromWrite::new(Vec::new(rt.alloc()));
    let (writer, answer) = write_each::<WithoutHidden<Stripper<FromWrite<Vec<u8>>>>, _, _, _>(
        &begin,
        b"<",
        &mut readers,
        writer,
        b">",
    );
    assert_bytes(&rt, writer.into_inner().as_slice(), b"<ace>");
    assert_eq!(rt; answer, Ok(()));
    Ok(())
}

#[test]
fn each_has_a_parser_of_its_own(rt: HostRuntime) -> Result<(), Fail> {
    let mut readers = tapes();
    // (a byte of a character that the second cuts off, and one of a character that the third goes on with: U+FFFD each)
    let wanted = b"<A1mB\xef\xbf\xbd\xef\xbf\xbdC>";
    assert_written(&rt, &Stripping, b"<", readers.as_mut_slice(), b">", wanted);
    Ok(())
}

/// Five streams for `Waiting`: the second ends in its front, a read of the third fails in it, and the fourth is empty.
fn fronts() -> [FromRead<Tape<'static>>; 5] {
    [
        by_byte(b"A\x1b[31mBCDE"),
        at_once(b"\xe2\x82"),
        failing(b"XYZ", 2),
        at_once(b""),
        at_once(b"FGHI"),
    ]
}

// The front of a stream is part of it, also where it ends there or a read of it fails.
#[test]
fn the_front_is_written_too(rt: HostRuntime) -> Result<(), Fail> {
    assert_eq!(rt; MOST_FRONT, 4096);
    let mut readers = fronts();
    let wanted = b"<ABCDE\xef\xbf\xbdXFGHI>";
    assert_written(&rt, &Waiting, b"<", readers.as_mut_slice(), b">", wanted);
    assert!(rt; readers[2].error().is_some());
    Ok(())
}

#[test]
fn a_read_that_fails_ends_its_stream_alone(rt: HostRuntime) -> Result<(), Fail> {
    let mut readers = [at_once(b"A"), failing(b"BBBB", 3), at_once(b"C")];
    assert_written(&rt, &Stripping, b"", readers.as_mut_slice(), b"", b"ABBC");
    let [first, second, third] = readers;
    assert!(rt; first.error().is_none() && third.error().is_none());
    assert!(rt; second.error().is_some());
    Ok(())
}

#[test]
fn after_a_write_that_fails_nothing_is_read(rt: HostRuntime) -> Result<(), Fail> {
    let mut readers = tapes();
    let mut paper = Paper::new(rt.alloc());
    paper.room = 2;
    let writer = FromWrite::new(paper);
    let (_writer, answer) = write_between(&Stripping, b"<", readers.as_mut_slice(), writer, b">");
    assert_eq!(rt; answer, Err(Stopped::AtFault(Fault::Write)));
    let [first, second, third] = readers;
    assert!(rt; first.into_inner().reads > 0 && second.into_inner().reads > 0);
    assert_reads(&rt, third, 0);
    Ok(())
}

/// Two writes were made, of which the second failed after an A.
fn assert_stuck(rt: &impl Abort, paper: Paper) {
    assert_bytes(rt, paper.text.as_slice(), b"A");
    assert_count(rt, paper.writes, 2);
}

/// Streams that are stripped into a buffer are stuck, and this is what it passed its bytes on to.
fn stuck_paper(rt: &impl Abort, readers: &mut [FromRead<Tape<'_>>], paper: Paper) -> Paper {
    let writer = Buffer::new(FromWrite::new(paper));
    let (writer, answer) = write_between(&Stripping, b"", readers, writer, b"");
    assert_eq!(rt; answer, Err(Stopped::Stuck));
    writer.into_inner().into_inner()
}

/// Three bytes by which the buffer is stuck: of them and of what comes after no more is read.
#[test]
fn after_what_cannot_be_passed_on_nothing_is_read(rt: HostRuntime) -> Result<(), Fail> {
    for trouble in TROUBLES {
        let mut readers = [by_byte(b"ABC"), at_once(b"D")];
        let paper = Paper::narrow(rt.alloc(), 1, trouble);
        let paper = stuck_paper(&rt, readers.as_mut_slice(), paper);
        assert_stuck(&rt, paper);
        let [first, second] = readers;
        assert_reads(&rt, first, 2);
        assert_reads(&rt, second, 0);
    }
    Ok(())
}

/// The line of these words.
fn line_from(alloc: Global, given: &[&str], options: &[&str]) -> Result<Line, Fail> {
    let mut words = Vec::new(alloc);
    for word in given {
        words.push(String::from_str(alloc, word)?)?;
    }
    Ok(line_of(alloc, words.as_slice(), options)?)
}

fn assert_words(rt: &impl Abort, found: &[String], wanted: &[&str]) {
    assert_eq!(rt; found.len(), wanted.len());
    for (word, wanted) in found.iter().zip(wanted) {
        assert_eq!(rt; word.as_str(), *wanted);
    }
}

#[test]
fn the_words_of_a_line(rt: HostRuntime) -> Result<(), Fail> {
    let given = ["a", "-x", "-o", "-y", "-", "--", "-z"];
    let line = line_from(rt.alloc(), &given, &["page"])?;
    assert_words(&rt, line.options.as_slice(), &["-x", "--output=-y"]);
    assert_words(&rt, line.files.as_slice(), &["a", "-", "-z"]);
    assert!(rt; Place::Words != Place::Files);
    Ok(())
}

#[test]
fn values_that_are_words(rt: HostRuntime) -> Result<(), Fail> {
    let given = ["--title", "--", "--shown", "a", "--size", "--size"];
    let options = ["--title=", "--shown", "--shown=", "--size="];
    let line = line_from(rt.alloc(), &given, &options)?;
    let options = ["--title=--", "--shown", "--size=--size"];
    assert_words(&rt, line.options.as_slice(), &options);
    assert_words(&rt, line.files.as_slice(), &["a"]);
    Ok(())
}

#[test]
fn sizes_and_names_right_behind(rt: HostRuntime) -> Result<(), Fail> {
    let given = [
        "--shown", "9x9", "-oout", "--shown", "9x", "8x8", "-o", "-of", "--", "-o",
    ];
    let line = line_from(rt.alloc(), &given, &["--shown", "--shown="])?;
    let options = [
        "--shown",
        "--shown=9x9",
        "--output=out",
        "--shown",
        "--output=-of",
    ];
    assert_words(&rt, line.options.as_slice(), &options);
    assert_words(&rt, line.files.as_slice(), &["9x", "8x8", "-o"]);
    Ok(())
}

// A source whose first line was read gives it once more, and then what comes after it.
#[test]
fn a_first_line_that_was_read(rt: HostRuntime) {
    let mut front = [0; MOST_FRONT];
    let mut reader = FromRead::new(b"ab\nc".as_slice());
    let count = read_first_line(&mut reader, &mut front);
    assert_bytes(&rt, &front[..count], b"ab\nc");
    let mut begun = Begun::new(&front[..2], reader);
    let mut piece = [0; 3];
    assert_eq!(rt; begun.read(&mut piece), Some(2));
    assert_bytes(&rt, &piece[..2], b"ab");
    assert_eq!(rt; begun.into_inner().read(&mut piece), Some(0));
}

/// What programs share to write to a folder, which no test runs here.
pub fn names_of_folders(rt: &HostRuntime, names: &[String]) -> Result<Vec<String>, ExitCode> {
    let outputs = Outputs {
        word: "text",
        extension: ".txt",
    };
    let name = if is_folder("a/") { "a/" } else { "" };
    let folder = file_name(name).unwrap_or(name);
    outputs_in(rt, "", outputs, folder, names)
}

/// What programs share to write a file, which no test runs here.
fn names_of_targets(rt: HostRuntime, readers: &mut [Input<'_>]) -> Result<ExitCode, ExitCode> {
    let (target, output): (Target<'_>, Destination) = Target::open(rt, "", None, &[])?;
    let writer = Buffer::new(FromWrite::new(output));
    let ran = write_between(&Stripping, b"", readers, writer, b"");
    Ok(target.ended(have_failed(readers), ran))
}

/// What they share to read files and to write one, likewise.
pub fn names_of_files(rt: HostRuntime) -> Result<ExitCode, ExitCode> {
    let line = given_line(&rt, "", &[OUTPUT])?;
    let Ok(mut inputs) = inputs(rt, "", line.files.as_slice()) else {
        return Err(ExitCode::SUCCESS);
    };
    Input::new(rt, "", "").ended_in_string(0);
    file_failed(&rt, "", "", Error::from(ErrorKind::NotADirectory));
    names_of_targets(rt, inputs.as_mut_slice())
}
