//! Draws what a terminal's screen shows at the end of a file, or of standard input, or all that it showed: a picture, as
//! SVG.
#![tactic(auto)]

mod picture;
mod words;

ghost use Rattle.std.specs.Prelude.{IfSome};
ghost use Rattle.ansi_screen.specs.Size.{IsTaken};

use ansi_screen::Size;
use anstyle_parse::io::{Output, Sink, Source};
use command_line::{
    Input, OUTPUT, Target, answered, asked_of, buffered, given_line, misused, value_of, wrong_size,
};
use each_source::{MOST_FRONT, Stopped};
use picture::{Linked, Named, draw_to_end};
use screen_svg::Drawing;
use shared_options::{SIZE, begun, named_file, named_size, screen_size};
use std::alloc::Global;
use std::process::ExitCode;
use words::{HELP, MORE_FILES, OPTIONS, asks_for_all, drawing, font, title};

/// The name at the front of what the program says of failures.
const PROGRAM: &str = "ansi2svg";

fn main(rt: HostRuntime) -> ExitCode {
    let line = match given_line(&rt, PROGRAM, OPTIONS) {
        Ok(line) => line,
        Err(status) => return status,
    };
    let options = line.options.as_slice();
    if let Some(request) = asked_of(options, OPTIONS) {
        return answered(&rt, PROGRAM, HELP, request);
    }
    let Ok(size) = named_size(value_of(options, SIZE)) else {
        return wrong_size(&rt, PROGRAM);
    };
    let Some(name) = named_file(line.files.as_slice()) else {
        return misused(&rt, MORE_FILES);
    };
    let names = line.files.as_slice();
    let (target, output) = match Target::open(rt, PROGRAM, value_of(options, OUTPUT), names) {
        Ok(opened) => opened,
        Err(status) => return status,
    };
    let input = Input::new(rt, PROGRAM, name);
    let output = Output::new(buffered(output));
    let named = Named {
        title: title(options),
        font: font(options),
    };
    let asked = Asked {
        size,
        is_all: asks_for_all(options),
        drawing: drawing(options),
    };
    let (input, output, ran) = drawn(rt.alloc(), input, asked, named, output);
    let (writer, answer) = output.finish();
    let ran = (writer, ran.and(answer.map_err(Stopped::AtFault)));
    target.ended(input.has_failed(), ran)
}

/// What is asked for: the size of the screen, if one is said, all that it showed or what it shows, and how.
#[derive(Clone, Copy)]
struct Asked {
    size: Option<Size>,
    is_all: bool,
    drawing: Drawing,
}

/// Draws what a screen shows at the end of a stream, or all that it showed: one of this size, or else of the one that the
/// stream says.
fn drawn<R: Source, W: Sink>(
    alloc: Global,
    source: R,
    asked: Asked,
    named: Named<'_>,
    output: Output<W>,
) -> (R, Output<W>, Result<(), Stopped>)
    requires { IfSome asked.size IsTaken }
{
    let Asked {
        size,
        is_all,
        drawing,
    } = asked;
    let mut front = [0; MOST_FRONT];
    let (recorded, mut source) = begun(source, &mut front);
    let size = screen_size(size, recorded);
    let Ok(mut linked) = Linked::new(alloc, size, is_all) else {
        return (source.into_inner(), output, Err(Stopped::NoMemory));
    };
    let (output, answer) = draw_to_end(&mut source, &mut linked, drawing, named, output);
    (
        source.into_inner(),
        output,
        answer.map_err(Stopped::AtFault),
    )
}
