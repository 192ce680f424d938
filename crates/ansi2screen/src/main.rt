//! Writes what a terminal's screen shows at the end of a file, or of standard input, as text
//! or as the bytes that draw it; or as input comes, what updates it.
#![tactic(auto)]

mod words;

ghost use Rattle.std.specs.Prelude.{◌≡◌, None, IfSome};
ghost use Rattle.anstyle_parse.specs.Io.Output.{fault_in};
ghost use Rattle.ansi_screen.specs.Size.{IsTaken};

use ansi_screen::{Screen, Size};
use anstyle_parse::io::{Output, Sink, Source};
use command_line::{
    Input, OUTPUT, Target, answered, asked_of, buffered, given_line, misused, value_of, wrong_size,
};
use each_source::{Begun, MOST_FRONT, Stopped};
use screen_draw::{Form, show_to_end, update_to_end};
use shared_options::{SIZE, begun, named_file, named_size, screen_size};
use std::alloc::Global;
use std::process::ExitCode;
use words::{BOTH, HELP, MORE_FILES, OPTIONS, asks_for_updates, asks_to_draw};

/// The name at the front of what the program says of failures.
const PROGRAM: &str = "ansi2screen";

fn main(rt: HostRuntime) -> ExitCode {
    let line = match given_line(&rt, PROGRAM, OPTIONS) {
        Ok(line) => line,
        Err(status) => return status,
    };
    let options = line.options.as_slice();
    if let Some(request) = asked_of(options, OPTIONS) {
        return answered(&rt, PROGRAM, HELP, request);
    }
    let Ok(size) = named_size(value_of(options, SIZE)) else {
        return wrong_size(&rt, PROGRAM);
    };
    let draws = asks_to_draw(options);
    let updates = asks_for_updates(options);
    if updates && draws {
        return misused(&rt, BOTH);
    }
    let form = if draws { Form::Drawing } else { Form::Text };
    let Some(name) = named_file(line.files.as_slice()) else {
        return misused(&rt, MORE_FILES);
    };
    let names = line.files.as_slice();
    let (target, output) = match Target::open(rt, PROGRAM, value_of(options, OUTPUT), names) {
        Ok(opened) => opened,
        Err(status) => return status,
    };
    let input = Input::new(rt, PROGRAM, name);
    let mut output = Output::new(buffered(output));
    let (input, ran) = if updates {
        followed(rt.alloc(), input, size, &mut output)
    } else {
        shown(rt.alloc(), input, size, form, &mut output)
    };
    let (writer, answer) = output.finish();
    let ran = (writer, ran.and(answer.map_err(Stopped::AtFault)));
    target.ended(input.has_failed(), ran)
}

/// Writes what a screen shows at the end of a stream: one of this size, or else of the one that the stream says.
fn shown<R: Source, W: Sink>(
    alloc: Global,
    source: R,
    size: Option<Size>,
    form: Form,
    output: &mut Output<W>,
) -> (R, Result<(), Stopped>)
    requires { IfSome size IsTaken }
{
    let mut front = [0; MOST_FRONT];
    let (recorded, mut source) = begun(source, &mut front);
    let size = screen_size(size, recorded);
    let Ok(mut screen) = Screen::new(alloc, size.columns, size.rows) else {
        return (source.into_inner(), Err(Stopped::NoMemory));
    };
    let answer = show_to_end(&mut source, &mut screen, form, output);
    (source.into_inner(), answer.map_err(Stopped::AtFault))
}

/// Writes what updates a screen, as a stream comes: of the size that the stream says. Where one is given, nothing is
/// waited for: what comes is shown as it is.
fn followed<R: Source, W: Sink>(
    alloc: Global,
    source: R,
    size: Option<Size>,
    output: &mut Output<W>,
) -> (R, Result<(), Stopped>)
    requires taken { IfSome size IsTaken }
    requires no_fault { fault_in output.old ≡ None }
{
    let mut front = [0; MOST_FRONT];
    let (recorded, mut source) = match size {
        Some(_) => (None, Begun::new(&[], source)),
        None => begun(source, &mut front),
    };
    let size = screen_size(size, recorded);
    let Ok(mut screen) = Screen::new(alloc, size.columns, size.rows) else {
        return (source.into_inner(), Err(Stopped::NoMemory));
    };
    // (the screen that updates lead to)
    let Ok(mut wanted) = Screen::new(alloc, size.columns, size.rows) else {
        return (source.into_inner(), Err(Stopped::NoMemory));
    };
    let answer = update_to_end(&mut source, &mut screen, &mut wanted, output);
    (source.into_inner(), answer.map_err(stopped_by))
}

/// Why no more was followed, in the words of a program's end.
fn stopped_by(stopped: screen_draw::Stopped) -> Stopped {
    match stopped {
        screen_draw::Stopped::Stuck => Stopped::Stuck,
        screen_draw::Stopped::AtFault(fault) => Stopped::AtFault(fault),
    }
}
