//! Counts the calls that a parser makes of a file, and sums their numbers: what the parser
//! alone costs (`bench/count.py`). Its arguments are the file, how often it is parsed, and how
//! many bytes `advance_all` is handed at a time; with 0 each byte goes by `advance`, and with no
//! third argument the whole file is one piece.
#![tactic(auto)]

mod count;

use command_line::{failed, misused};
use count::count_of;
use std::process::ExitCode;
use std::rt::Env;
use std::{env, fs, io};

/// The name at the front of what the program says of failures.
const PROGRAM: &str = "count_calls";

/// What the arguments say.
#[derive(Drop)]
struct Words {
    path: String,
    times: u32,
    piece: usize,
}

fn main(rt: HostRuntime) -> ExitCode {
    let Ok(words) = read_words(&rt) else {
        return failed(&rt, PROGRAM, "arguments not read");
    };
    let Some(words) = words else {
        return misused(&rt, "usage: count_calls FILE TIMES [PIECE]");
    };
    let Ok(bytes) = fs::read(&rt, words.path.as_str()) else {
        return failed(&rt, PROGRAM, "read failed");
    };
    for _ in 0..words.times {
        let count = count_of(bytes.as_slice(), words.piece);
        if println!(rt; "calls {} sum {}", count.calls, count.sum).is_err() {
            return failed(&rt, PROGRAM, "write failed");
        }
    }
    ExitCode::SUCCESS
}

/// The arguments, where they are a path, a number and at most one number more.
fn read_words(rt: &(impl Env + AllocGlobal)) -> io::Result<Option<Words>> {
    let mut arguments = env::args(rt)?;
    let _program = arguments.next();
    let (Some(path), Some(times)) = (arguments.next(), arguments.next()) else {
        return Ok(None);
    };
    let piece = match arguments.next() {
        Some(piece) => piece.as_str().parse::<usize>(),
        None => Ok(usize::MAX),
    };
    let (Ok(times), Ok(piece), None) = (times.as_str().parse::<u32>(), piece, arguments.next())
    else {
        return Ok(None);
    };
    Ok(Some(Words { path, times, piece }))
}
