//! Strips files, or standard input, of their escapes, or makes text of them that is safe to show, or writes what a
//! screen showed of each.
#![tactic(auto)]

mod streams;
mod words;

ghost use Rattle.std.specs.Prelude.{IfSome, []};
ghost use Rattle.ansi2text.specs.Streams.{visible_text, visible_safe, visible};
ghost use Rattle.each_source.specs.Each.{WritesEach};
ghost use Rattle.screen_text.specs.Recording.{CanBeShown};

use ansi_strip::{Inert, Stripper};
use anstyle_parse::io::Sink;
use command_line::{
    OUTPUT, Target, answered, asked_of, buffered, failed, given_line, have_failed, inputs,
    is_folder, outputs_in, value_of, wrong_size,
};
use each_source::{Stopped, Stream, write_each};
use safe_text::MarkingWriter;
use screen_calls::{CallRows, ShowingFirst};
use screen_safe::SafeRows;
use screen_text::{SHOWN, ShownSize, ShownWriter, TextRows, screen_size};
use std::alloc::Global;
use std::process::ExitCode;
use streams::{MakingSafe, Showing, Stripping, StrippingLines};
use without_hidden::{LeavingOut, WithoutHidden};
use words::{HELP, OPTIONS, TEXTS, asks_for_line_feeds, asks_for_no_hidden, asks_for_safe};

/// The name at the front of what the program says of failures.
const PROGRAM: &str = "ansi2text";

fn main(rt: HostRuntime) -> ExitCode {
    let line = match given_line(&rt, PROGRAM, OPTIONS) {
        Ok(line) => line,
        Err(status) => return status,
    };
    let options = line.options.as_slice();
    if let Some(request) = asked_of(options, OPTIONS) {
        return answered(&rt, PROGRAM, HELP, request);
    }
    let Ok(size) = screen_size(value_of(options, SHOWN)) else {
        return wrong_size(&rt, PROGRAM);
    };
    let how = How {
        size,
        safe: asks_for_safe(options),
        line_feeds: asks_for_line_feeds(options),
        no_hidden: asks_for_no_hidden(options),
    };
    let output = value_of(options, OUTPUT);
    let names = line.files.as_slice();
    match output.filter(|output| is_folder(output)) {
        Some(folder) => texts(rt, names, folder, how),
        None => written(rt, names, output, how),
    }
}

/// How the text of files is written.
#[derive(Debug, Clone, Copy)]
struct How {
    /// What a screen of this size showed of them.
    size: Option<ShownSize>,
    safe: bool,
    /// Lines end with a line feed alone.
    line_feeds: bool,
    /// Hidden text is left out.
    no_hidden: bool,
}

/// Writes the text of each of these files into the folder, which is made where it is not there.
fn texts(rt: HostRuntime, names: &[String], folder: &str, how: How) -> ExitCode
    requires { IfSome how.size CanBeShown }
{
    let paths = match outputs_in(&rt, PROGRAM, TEXTS, folder, names) {
        Ok(paths) => paths,
        Err(status) => return status,
    };
    let mut status = ExitCode::SUCCESS;
    for (name, path) in names.chunks(1).zip(paths.iter()) {
        let ended = written(rt, name, Some(path.as_str()), how);
        if ended != ExitCode::SUCCESS {
            status = ended;
        }
    }
    status
}

/// Writes the text of these files, one after another.
fn written(rt: HostRuntime, names: &[String], output: Option<&str>, how: How) -> ExitCode
    requires { IfSome how.size CanBeShown }
{
    let Ok(mut inputs) = inputs(rt, PROGRAM, names) else {
        return failed(&rt, PROGRAM, "out of memory");
    };
    let (target, output) = match Target::open(rt, PROGRAM, output, names) {
        Ok(opened) => opened,
        Err(status) => return status,
    };
    let (readers, output) = (inputs.as_mut_slice(), buffered(output));
    let ran = match how.size {
        Some(size) if how.no_hidden => show_visible(rt.alloc(), size, how.safe, readers, output),
        Some(size) => show(rt.alloc(), size, how.safe, readers, output),
        None if how.no_hidden => write_visible(how, readers, output),
        None if how.safe => write_each(&MakingSafe, b"", readers, output, b""),
        None if how.line_feeds => write_each(&StrippingLines, b"", readers, output, b""),
        None => write_each(&Stripping, b"", readers, output, b""),
    };
    target.ended(have_failed(inputs.as_slice()), ran)
}

/// Writes what screens showed of these streams, as text or as safe text.
fn show<R: Stream, W: Sink>(
    alloc: Global,
    size: ShownSize,
    safe: bool,
    readers: &mut [R],
    output: W,
) -> (W, Result<(), Stopped>)
    requires { CanBeShown size }
{
    let showing = Showing::new(alloc, size);
    if safe {
        write_each::<ShownWriter<SafeRows<_>>, _, _, _>(&showing, b"", readers, output, b"")
    } else {
        write_each::<ShownWriter<TextRows<_>>, _, _, _>(&showing, b"", readers, output, b"")
    }
}

/// The same without what is hidden.
fn show_visible<R: Stream, W: Sink>(
    alloc: Global,
    size: ShownSize,
    safe: bool,
    readers: &mut [R],
    output: W,
) -> (W, Result<(), Stopped>)
    requires { CanBeShown size }
    ensures { WritesEach R.Source W.Sink (visible safe size) ([], []) readers.old readers.new output result }
{
    if safe {
        show_visible_safe(alloc, size, readers, output)
    } else {
        show_visible_text(alloc, size, readers, output)
    }
}

/// As text.
fn show_visible_text<R: Stream, W: Sink>(
    alloc: Global,
    size: ShownSize,
    readers: &mut [R],
    output: W,
) -> (W, Result<(), Stopped>)
    requires { CanBeShown size }
    ensures { WritesEach R.Source W.Sink (visible_text size) ([], []) readers.old readers.new output result }
{
    let visible = LeavingOut { begin: Stripping };
    let showing = ShowingFirst::new(alloc, size, visible);
    write_each::<ShownWriter<CallRows<WithoutHidden<Inert<Stripper<W>>>, W>>, _, _, _>(
        &showing, b"", readers, output, b"",
    )
}

/// As safe text.
fn show_visible_safe<R: Stream, W: Sink>(
    alloc: Global,
    size: ShownSize,
    readers: &mut [R],
    output: W,
) -> (W, Result<(), Stopped>)
    requires { CanBeShown size }
    ensures { WritesEach R.Source W.Sink (visible_safe size) ([], []) readers.old readers.new output result }
{
    let visible = LeavingOut { begin: MakingSafe };
    let showing = ShowingFirst::new(alloc, size, visible);
    write_each::<ShownWriter<CallRows<WithoutHidden<MarkingWriter<W>>, W>>, _, _, _>(
        &showing, b"", readers, output, b"",
    )
}

/// Writes the text of these streams without what is hidden.
fn write_visible<R: Stream, W: Sink>(
    how: How,
    readers: &mut [R],
    output: W,
) -> (W, Result<(), Stopped>) {
    if how.safe {
        let begin = LeavingOut { begin: MakingSafe };
        write_each(&begin, b"", readers, output, b"")
    } else if how.line_feeds {
        let begin = LeavingOut {
            begin: StrippingLines,
        };
        write_each(&begin, b"", readers, output, b"")
    } else {
        let begin = LeavingOut { begin: Stripping };
        write_each(&begin, b"", readers, output, b"")
    }
}
