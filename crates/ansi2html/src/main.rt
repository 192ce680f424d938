//! Writes the text of files, or of standard input, or what a screen showed of each, as HTML, in its colours: a
//! whole page, or a fragment.
#![tactic(auto)]

mod form;
mod names;
mod parts;
mod streams;
mod words;

ghost use Rattle.std.specs.Prelude.{IfSome};
ghost use Rattle.screen_text.specs.Recording.{CanBeShown};

use ansi_html::{Scheme, Styling};
use anstyle_parse::io::Sink;
use command_line::{
    OUTPUT, Target, answered, asked_of, buffered, failed, given_line, have_failed, inputs,
    is_folder, misused, outputs_in, value_of, wrong_size,
};
use each_source::{Begin, Stopped, Stream, write_each};
use form::{Form, Said, write_stylesheet};
use html_urls::Resumable;
use names::title_of;
use parts::{Frame, Part, one_has_failed, parts, write_parts};
use screen_calls::{CallRows, ShowingFirst};
use screen_html::{BlockRows, HtmlRows};
use screen_text::{SHOWN, ShownSize, ShownWriter, screen_size};
use shared_options::scheme_of;
use std::alloc::Global;
use std::process::ExitCode;
use streams::{Blocking, BlockingUrls, Converting, ConvertingUrls, Lining, LiningUrls, Showing};
use without_hidden::{LeavingOut, WithoutHidden};
use words::{
    HELP, NO_FILES, NO_LANGUAGE, NOT_OF_A_PAGE, ONE_FILE, OPTIONS, PAGES, asks_for_lines,
    asks_for_no_hidden, asks_for_stylesheet, asks_for_urls, asks_to_scroll, form, language,
    says_of_a_page, stylesheet_address, styling, title_or,
};

/// The name at the front of what the program says of failures.
const PROGRAM: &str = "ansi2html";

fn main(rt: HostRuntime) -> ExitCode {
    let line = match given_line(&rt, PROGRAM, OPTIONS) {
        Ok(line) => line,
        Err(status) => return status,
    };
    let options = line.options.as_slice();
    if let Some(request) = asked_of(options, OPTIONS) {
        return answered(&rt, PROGRAM, HELP, request);
    }
    let Ok(size) = screen_size(value_of(options, SHOWN)) else {
        return wrong_size(&rt, PROGRAM);
    };
    let scheme = scheme_of(options);
    if asks_for_stylesheet(options) {
        if !line.files.is_empty() {
            return misused(&rt, NO_FILES);
        }
        return stylesheet(rt, options, scheme);
    }
    let output = value_of(options, OUTPUT);
    let folder = output.filter(|output| is_folder(output));
    let has_lines = asks_for_lines(options);
    if has_lines && line.files.len() > 1 && folder.is_none() {
        return misused(&rt, ONE_FILE);
    }
    let styling = styling(options, scheme);
    let form = form(options);
    if form == Form::Fragment && says_of_a_page(options) {
        return misused(&rt, NOT_OF_A_PAGE);
    }
    let Some(language) = language(options) else {
        return misused(&rt, NO_LANGUAGE);
    };
    let names = line.files.as_slice();
    let Ok(named) = title_of(rt.alloc(), names) else {
        return failed(&rt, PROGRAM, "out of memory");
    };
    let said = Said {
        language,
        title: title_or(options, named.as_str()),
        stylesheet: stylesheet_address(options),
        has_lines,
        scrolls: asks_to_scroll(options),
    };
    let frame = Frame {
        styling,
        scheme,
        said,
    };
    let how = How {
        form,
        frame,
        size,
        has_urls: asks_for_urls(options),
        no_hidden: asks_for_no_hidden(options),
    };
    match folder {
        Some(folder) => pages(rt, options, names, folder, how),
        None => written(rt, names, output, how),
    }
}

/// How the text of files is written: with what around it on a page, shown by a screen first or not, with addresses as
/// links or not, with hidden text or without.
#[derive(Debug, Clone, Copy)]
struct How<'a> {
    form: Form,
    frame: Frame<'a>,
    size: Option<ShownSize>,
    has_urls: bool,
    no_hidden: bool,
}

impl How<'_> {
    /// Whether what a screen shows is converted further: else its rows are written as they are.
    fn converts_further(&self) -> bool {
        self.frame.said.has_lines || self.has_urls || self.no_hidden
    }

    /// What is done with each stream before it is converted.
    fn first(&self, alloc: Global) -> First
        requires { IfSome self.now.size CanBeShown }
        ensures { IfSome result.size CanBeShown }
    {
        First {
            alloc,
            size: self.size,
            no_hidden: self.no_hidden,
        }
    }
}

/// What is done with each stream before it is converted: it is shown by a screen, or not, and then hidden text is left
/// out, or not.
#[derive(Clone, Copy)]
struct First {
    alloc: Global,
    size: Option<ShownSize>,
    no_hidden: bool,
}

/// Writes each of these files, as a page or a fragment of its own, into the folder, which is made where it is not
/// there.
fn pages(
    rt: HostRuntime,
    options: &[String],
    names: &[String],
    folder: &str,
    how: How<'_>,
) -> ExitCode
    requires { IfSome how.size CanBeShown }
{
    let paths = match outputs_in(&rt, PROGRAM, PAGES, folder, names) {
        Ok(paths) => paths,
        Err(status) => return status,
    };
    let mut status = ExitCode::SUCCESS;
    for (files, path) in names.chunks(1).zip(paths.iter()) {
        let Ok(named) = title_of(rt.alloc(), files) else {
            return failed(&rt, PROGRAM, "out of memory");
        };
        let said = Said {
            title: title_or(options, named.as_str()),
            ..how.frame.said
        };
        let frame = Frame { said, ..how.frame };
        let ended = written(rt, files, Some(path.as_str()), How { frame, ..how });
        if ended != ExitCode::SUCCESS {
            status = ended;
        }
    }
    status
}

/// Writes these files, as one page or fragment.
fn written(rt: HostRuntime, names: &[String], output: Option<&str>, how: How<'_>) -> ExitCode
    requires { IfSome how.size CanBeShown }
{
    match how.form {
        Form::Page => page(rt, names, output, how),
        Form::Fragment => fragment(rt, names, output, how),
    }
}

/// Writes the page of these files.
fn page(rt: HostRuntime, names: &[String], output: Option<&str>, how: How<'_>) -> ExitCode
    requires { IfSome how.size CanBeShown }
{
    let Ok(mut parts) = parts(rt, PROGRAM, names, how.frame) else {
        return failed(&rt, PROGRAM, "out of memory");
    };
    let (target, output) = match Target::open(rt, PROGRAM, output, names) {
        Ok(opened) => opened,
        Err(status) => return status,
    };
    let (written, output) = (parts.as_mut_slice(), buffered(output));
    let styling = how.frame.styling;
    let has_numbers = how.frame.said.has_lines;
    let first = how.first(rt.alloc());
    let ran = match how.size {
        Some(size) if !how.converts_further() => {
            let showing = Showing::new(rt.alloc(), size, styling);
            write_parts::<ShownWriter<BlockRows<_>>, _, _, _>(&showing, written, output)
        }
        _ if how.has_urls => {
            let blocking = BlockingUrls {
                styling,
                has_numbers,
            };
            write_page(&blocking, first, written, output)
        }
        _ => {
            let blocking = Blocking {
                styling,
                has_numbers,
            };
            write_page(&blocking, first, written, output)
        }
    };
    target.ended(one_has_failed(parts.as_slice()), ran)
}

/// Writes the text of these files, with nothing around it.
fn fragment(rt: HostRuntime, names: &[String], output: Option<&str>, how: How<'_>) -> ExitCode
    requires { IfSome how.size CanBeShown }
{
    let Ok(mut inputs) = inputs(rt, PROGRAM, names) else {
        return failed(&rt, PROGRAM, "out of memory");
    };
    let (target, output) = match Target::open(rt, PROGRAM, output, names) {
        Ok(opened) => opened,
        Err(status) => return status,
    };
    let (readers, output) = (inputs.as_mut_slice(), buffered(output));
    let styling = how.frame.styling;
    let has_lines = how.frame.said.has_lines;
    let first = how.first(rt.alloc());
    let ran = match how.size {
        Some(size) if !how.converts_further() => {
            let showing = Showing::new(rt.alloc(), size, styling);
            write_each::<ShownWriter<HtmlRows<_>>, _, _, _>(&showing, b"", readers, output, b"")
        }
        _ if has_lines && how.has_urls => {
            write_text(&LiningUrls { styling }, first, readers, output)
        }
        _ if how.has_urls => write_text(&ConvertingUrls { styling }, first, readers, output),
        _ if has_lines => write_text(&Lining { styling }, first, readers, output),
        _ => write_text(&Converting { styling }, first, readers, output),
    };
    target.ended(have_failed(inputs.as_slice()), ran)
}

/// Writes these parts of a page, with hidden text or without.
fn write_page<P: Resumable<W>, B: Begin<P, W> + Copy, R: Stream, W: Sink>(
    begin: &B,
    first: First,
    parts: &mut [Part<R>],
    output: W,
) -> (W, Result<(), Stopped>)
    requires { IfSome first.size CanBeShown }
{
    if first.no_hidden {
        let begin = LeavingOut { begin: *begin };
        return write_page_of::<WithoutHidden<P>, _, _, _>(&begin, first, parts, output);
    }
    write_page_of::<P, _, _, _>(begin, first, parts, output)
}

/// Writes them of what a screen showed, or of the streams as they are.
fn write_page_of<P: Resumable<W>, B: Begin<P, W> + Copy, R: Stream, W: Sink>(
    begin: &B,
    first: First,
    parts: &mut [Part<R>],
    output: W,
) -> (W, Result<(), Stopped>)
    requires { IfSome first.size CanBeShown }
{
    match first.size {
        Some(size) => {
            let begin = ShowingFirst::new(first.alloc, size, *begin);
            write_parts::<ShownWriter<CallRows<P, W>>, _, _, _>(&begin, parts, output)
        }
        None => write_parts::<P, _, _, _>(begin, parts, output),
    }
}

/// Writes the text of these streams, with hidden text or without.
fn write_text<P: Resumable<W>, B: Begin<P, W> + Copy, R: Stream, W: Sink>(
    begin: &B,
    first: First,
    readers: &mut [R],
    output: W,
) -> (W, Result<(), Stopped>)
    requires { IfSome first.size CanBeShown }
{
    if first.no_hidden {
        let begin = LeavingOut { begin: *begin };
        return write_text_of::<WithoutHidden<P>, _, _, _>(&begin, first, readers, output);
    }
    write_text_of::<P, _, _, _>(begin, first, readers, output)
}

/// Writes it of what a screen showed, or of the streams as they are.
fn write_text_of<P: Resumable<W>, B: Begin<P, W> + Copy, R: Stream, W: Sink>(
    begin: &B,
    first: First,
    readers: &mut [R],
    output: W,
) -> (W, Result<(), Stopped>)
    requires { IfSome first.size CanBeShown }
{
    match first.size {
        Some(size) => {
            let begin = ShowingFirst::new(first.alloc, size, *begin);
            write_each::<ShownWriter<CallRows<P, W>>, _, _, _>(&begin, b"", readers, output, b"")
        }
        None => write_each::<P, _, _, _>(begin, b"", readers, output, b""),
    }
}

/// Writes the stylesheet.
fn stylesheet(rt: HostRuntime, options: &[String], scheme: Scheme) -> ExitCode {
    match Target::open(rt, PROGRAM, value_of(options, OUTPUT), &[]) {
        Ok((target, output)) => {
            let (output, answer) = write_stylesheet(scheme, buffered(output));
            target.ended(false, (output, answer.map_err(Stopped::AtFault)))
        }
        Err(status) => status,
    }
}
