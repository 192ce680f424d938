//! The files of a page, one after another, each with what stands around its text.
ghost use Rattle.std.specs.Prelude.{◌≡◌, ◌<◌, ◌++◌, [], ◌∷◌, codes, map, string_bytes, IfOk};
ghost use Rattle.std.specs.List.{list_any};
ghost use Rattle.command_line.specs.Inputs.{input_failed, names_read};
ghost use Rattle.ansi2html.specs.Page.{around_of, page_around};
ghost use Rattle.ansi2html.specs.Parts.{WritesPart, WritesParts, around, readers_of};

use crate::form::{Place, STANDARD, Said};
use ansi_html::{Scheme, Styling};
use anstyle_parse::io::{Sink, WritingPerformer};
use command_line::{Input, have_failed};
use each_source::{Begin, Stopped, Stream, write_each};
use std::alloc::AllocError;
use std::rt::HostRuntime;

/// A file of a page.
#[derive(Drop)]
pub struct Part<R> {
    /// What stands before its text,
    before: Vec<u8>,
    /// what it is read by, alone,
    readers: Vec<R>,
    /// and what stands after its text.
    after: &'static [u8],
}

/// How the head of a page is written.
#[derive(Debug, Clone, Copy)]
pub struct Frame<'a> {
    pub styling: Styling,
    pub scheme: Scheme,
    pub said: Said<'a>,
}

/// The files of a page, none of which is opened so far; with no name, standard input alone.
pub fn parts<'a>(
    rt: HostRuntime,
    program: &'a str,
    names: &'a [String],
    frame: Frame<'_>,
) -> Result<Vec<Part<Input<'a>>>, AllocError>
    ensures { IfOk result (λ parts. map around parts.items
        ≡ page_around frame.entry.styling frame.entry.scheme frame.entry.said
        (names_read (map string_bytes names.now))) }
{
    let mut parts = Vec::new(rt.alloc());
    if names.is_empty() {
        let place = Place {
            count: 1,
            number: 0,
        };
        parts.push(part_named(rt, program, STANDARD, place, frame)?)?;
        return Ok(parts);
    }
    for name in names {
        let place = Place {
            count: names.len(),
            number: parts.len(),
        };
        parts.push(part_named(rt, program, name.as_str(), place, frame)?)?;
    }
    Ok(parts)
}

/// The one of this name, at this place.
fn part_named<'a>(
    rt: HostRuntime,
    program: &'a str,
    name: &'a str,
    place: Place,
    frame: Frame<'_>,
) -> Result<Part<Input<'a>>, AllocError>
    requires { place.number < place.count }
    ensures { IfOk result (λ part. around part
        ≡ around_of frame.entry.styling frame.entry.scheme frame.entry.said place.count place.number name.now) }
{
    let before = place.before(rt.alloc(), name, frame.styling, frame.scheme, frame.said)?;
    let mut readers = Vec::new(rt.alloc());
    readers.push(Input::new(rt, program, name))?;
    Ok(Part {
        before,
        readers,
        after: place.after(),
    })
}

/// Whether one of them has failed.
pub fn one_has_failed(parts: &[Part<Input<'_>>]) -> bool
    ensures { result ≡ list_any (λ part. list_any input_failed (readers_of part)) parts.now }
{
    parts
        .iter()
        .any(|part| have_failed(part.readers.as_slice()))
}

/// Writes one with what stands around it.
fn write_part<P: WritingPerformer<W>, B: Begin<P, W>, R: Stream, W: Sink>(
    begin: &B,
    part: &mut Part<R>,
    writer: W,
) -> (W, Result<(), Stopped>)
    ensures { WritesPart R.Source W.Sink
        (λ given. B.text begin.now given ++ B.ending begin.now given) part.old part.new writer result.0 result.1 }
{
    let before = part.before.as_slice();
    write_each::<P, B, R, W>(
        begin,
        before,
        part.readers.as_mut_slice(),
        writer,
        part.after,
    )
}

/// Writes them in turn, until one is not written whole: then those after it are not touched.
pub fn write_parts<P: WritingPerformer<W>, B: Begin<P, W>, R: Stream, W: Sink>(
    begin: &B,
    parts: &mut [Part<R>],
    writer: W,
) -> (W, Result<(), Stopped>)
    ensures { WritesParts R.Source W.Sink
        (λ given. B.text begin.now given ++ B.ending begin.now given) parts.old parts.new writer result.0 result.1 }
{
    let mut writer = writer;
    for part in parts.iter_mut() {
        let (after, answer) = write_part::<P, B, R, W>(begin, part, writer);
        if answer.is_err() {
            return (after, answer);
        }
        writer = after;
    }
    (writer, Ok(()))
}
