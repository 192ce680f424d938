//! What the programs that filter standard input share: how they write, and how they end.
#![tactic(auto)]

ghost use Rattle.std.specs.Prelude.{◌≡◌, [], false};
ghost use Rattle.std.specs.Process.{exit_status};
ghost use Rattle.anstyle_parse.specs.Io.Buffer.{writer_behind, held_back, is_by_line};
ghost use Rattle.anstyle_parse.specs.Io.Devices.{writer_of, writer_failed};
ghost use Rattle.command_line.specs.Words.{message_of, is_broken_pipe, status_of};

mod beginning;
mod folder;
mod input_files;
mod line;
mod options;
mod output_file;
mod standard;

use anstyle_parse::io::{Buffer, Fault, FromWrite};
pub use folder::{Outputs, file_name, is_folder, outputs_in};
pub use input_files::{Input, file_failed, have_failed, inputs};
pub use line::{Line, Place, given_line, line_of};
pub use options::{OUTPUT, Request, VERSION, answered, asked_of, given_words, has_word, value_of};
pub use output_file::{Destination, Target};
use std::io;
use std::io::{ErrorKind, IsTerminal, Write};
use std::process::ExitCode;

/// The status of a program that failed.
const FAILED: u8 = 1;

/// The status of a program whose output nobody reads any more: 128 and the number of SIGPIPE.
const READER_GONE: u8 = 141;

/// The status of a program whose arguments say nothing that it knows.
const MISUSED: u8 = 2;

/// The output behind a [`Buffer`], as a program writes to it: on a terminal each line is handed
/// on when it ends, and else 8 KiB at a time; a run hands on what is left before each read. The
/// buffer holds nothing, and nothing has failed.
pub fn buffered<W: Write + IsTerminal>(output: W) -> Buffer<FromWrite<W>>
    ensures output { writer_of (writer_behind result) ≡ output }
    ensures empty { held_back result ≡ [] }
    ensures not_failed { writer_failed (writer_behind result) ≡ false }
{
    let is_terminal = output.is_terminal();
    buffered_for(output, is_terminal)
}

/// The same, where it is known whether the output is a terminal: by line exactly on one.
fn buffered_for<W: Write>(output: W, is_terminal: bool) -> Buffer<FromWrite<W>>
    ensures output { writer_of (writer_behind result) ≡ output }
    ensures by_line { is_by_line result ≡ is_terminal }
    ensures empty { held_back result ≡ [] }
    ensures not_failed { writer_failed (writer_behind result) ≡ false }
{
    if is_terminal {
        Buffer::by_line(FromWrite::new(output))
    } else {
        Buffer::new(FromWrite::new(output))
    }
}

/// What is said of a fault, after the program's name.
pub fn message(fault: Fault) -> &'static str
    ensures { result.now ≡ message_of fault }
{
    match fault {
        Fault::Read => "read failed",
        Fault::Write => "write failed",
        Fault::Flush => "flush failed",
    }
}

/// The end of a program whose output failed with this error, if it is known.
fn output_failed(rt: &impl Eprint, program: &str, what: &str, error: Option<io::Error>) -> ExitCode
    ensures { exit_status result ≡ status_of error }
{
    match error {
        Some(error) if is_broken_pipe(error.kind()) => ExitCode::from(READER_GONE),
        _ => reported(rt, program, what, error),
    }
}

/// Whether an error of this kind says that nobody reads the output any more.
fn is_broken_pipe(kind: ErrorKind) -> bool
    ensures { result ≡ is_broken_pipe kind }
{
    matches!(kind, ErrorKind::BrokenPipe)
}

/// Writes a line on standard error, the program's name, what failed and the words of the error,
/// where there is one, and answers status 1. Where that can't be written nothing is done about it.
fn reported(rt: &impl Eprint, program: &str, what: &str, error: Option<io::Error>) -> ExitCode
    ensures { exit_status result ≡ 1 }
{
    match error {
        None => failed(rt, program, what),
        Some(error) => {
            let _ = eprintln!(rt; "{program}: {what}: {error}");
            ExitCode::from(FAILED)
        }
    }
}

/// Writes a line on standard error, the program's name and what failed, and answers status 1.
/// Where that can't be written nothing is done about it.
pub fn failed(rt: &impl Eprint, program: &str, what: &str) -> ExitCode
    ensures { exit_status result ≡ 1 }
{
    let _ = eprintln!(rt; "{program}: {what}");
    ExitCode::from(FAILED)
}

/// Says on standard error what the size of a screen is, for an option that has another text, and answers
/// status 2. Where that can't be written nothing is done about it.
pub fn wrong_size(rt: &impl Eprint, program: &str) -> ExitCode
    ensures { exit_status result ≡ 2 }
{
    let _ = eprintln!(rt;
        "{program}: a size is COLUMNSxROWS, from 2x1 to 1000x1000 (see {program} --help)"
    );
    ExitCode::from(MISUSED)
}

/// Writes the usage line on standard error, and answers status 2. Where that can't be written
/// nothing is done about it.
pub fn misused(rt: &impl Eprint, usage: &str) -> ExitCode
    ensures { exit_status result ≡ 2 }
{
    let _ = eprintln!(rt; "{usage}");
    ExitCode::from(MISUSED)
}
