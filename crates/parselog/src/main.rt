//! Shows which calls a parser of ANSI escape sequences makes of standard input.
#![tactic(auto)]

ghost use Rattle.std.specs.Prelude.{◌≡◌, [], false, OnOk, IfErr};
ghost use Rattle.std.specs.Process.{exit_status};
ghost use Rattle.anstyle_parse.specs.Io.Buffer.{writer_behind, held_back};
ghost use Rattle.anstyle_parse.specs.Io.Devices.{writer_of, writer_error, writer_failed};
ghost use Rattle.parselog.specs.Words.{status_of, status_after};

mod log;
mod run;
#[cfg(test)]
mod tests;
mod words;

use anstyle_parse::io::{Buffer, Fault, FromRead, FromWrite};
use run::{Mode, run};
use std::io::{self, IsTerminal, Write};
use std::process::ExitCode;
use std::rt::Env;
use words::{HELP, Request, USAGE, VERSION, asked_of, is_broken_pipe, message, mode};

/// The status of a program that failed.
const FAILED: u8 = 1;

/// The status of a program whose output nobody reads any more: 128 and the number of SIGPIPE.
const READER_GONE: u8 = 141;

/// The status of a program whose arguments say nothing that it knows.
const MISUSED: u8 = 2;

fn main(rt: HostRuntime) -> ExitCode {
    let Ok((first, more)) = given_words(&rt) else {
        return said(&rt, "parselog: arguments not read", FAILED);
    };
    let first = first.as_ref().map(|word| word.as_str());
    if let Some(request) = asked_of(first) {
        return answered(&rt, request);
    }
    let Some(mode) = mode(first, more) else {
        return said(&rt, USAGE, MISUSED);
    };
    let mut reader = FromRead::new(rt.stdin());
    ended(&rt, run(mode, &mut reader, buffered(rt.stdout())))
}

/// The first word that the program was given, and whether a second came.
fn given_words(rt: &(impl Env + AllocGlobal)) -> io::Result<(Option<String>, bool)> {
    let mut arguments = std::env::args(rt)?;
    let _program = arguments.next();
    let first = arguments.next();
    let more = arguments.next().is_some();
    Ok((first, more))
}

/// Says what a word asks for, on standard output.
fn answered(rt: &(impl Print + Eprint), request: Request) -> ExitCode {
    let text = match request {
        Request::Help => HELP,
        Request::Version => VERSION,
    };
    match rt.print(text) {
        Ok(()) => ExitCode::SUCCESS,
        Err(error) => output_failed(rt, Fault::Write, Some(error)),
    }
}

/// The output behind a buffer, which holds nothing: on a terminal each line is handed on when it
/// ends, and else 8 KiB at a time; a run hands on what is left before each read.
fn buffered<W: Write + IsTerminal>(output: W) -> Buffer<FromWrite<W>>
    ensures output { writer_of (writer_behind result) ≡ output }
    ensures empty { held_back result ≡ [] }
    ensures not_failed { writer_failed (writer_behind result) ≡ false }
{
    let is_terminal = output.is_terminal();
    let output = FromWrite::new(output);
    if is_terminal {
        Buffer::by_line(output)
    } else {
        Buffer::new(output)
    }
}

/// The end of the program after a run. A fault is what it was at the output behind the buffer.
fn ended<W: Write + Drop>(
    rt: &impl Eprint,
    ran: (Buffer<FromWrite<W>>, Result<(), Fault>),
) -> ExitCode
    ensures went_well { OnOk ran.1 (exit_status result ≡ 0) }
    ensures fault { IfErr ran.1
        (λ fault. exit_status result ≡ status_after fault (writer_error (writer_behind ran.0))) }
{
    let (output, answer) = ran;
    match answer {
        Ok(()) => ExitCode::SUCCESS,
        Err(Fault::Read) => said(rt, message(Fault::Read), FAILED),
        Err(fault) => {
            let fault = output.fault_behind(fault);
            output_failed(rt, fault, output.into_inner().error())
        }
    }
}

/// The end of the program after its output failed, with this error, if it is known: where nobody reads
/// it any more nothing is said.
fn output_failed(rt: &impl Eprint, fault: Fault, error: Option<io::Error>) -> ExitCode
    ensures { exit_status result ≡ status_of error }
{
    match error {
        Some(error) if is_broken_pipe(error.kind()) => ExitCode::from(READER_GONE),
        _ => said(rt, message(fault), FAILED),
    }
}

/// Writes a line on standard error, and answers the status. Where that can't be written nothing
/// is done about it.
fn said(rt: &impl Eprint, line: &str, status: u8) -> ExitCode
    ensures { exit_status result ≡ status }
{
    let _ = eprintln!(rt; "{line}");
    ExitCode::from(status)
}
