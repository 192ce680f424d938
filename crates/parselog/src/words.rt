//! The words of the program: the modes that its arguments name, what it says of itself, and of faults.
ghost use Rattle.std.specs.Prelude.{◌≡◌, option_copied};
ghost use Rattle.parselog.specs.Words.{mode_of, asked_of, message_of, is_broken_pipe};

use crate::run::Mode;
use anstyle_parse::io::Fault;
use std::io::ErrorKind;

/// What is said for `--version`.
pub const VERSION: &str = "parselog 0.1.0\n";

/// What is said for `--help`.
pub const HELP: &str = "\
usage: parselog [log|canon]

Shows which calls a terminal's parser makes of standard input: its characters, controls
and sequences, which are otherwise not seen.

  log         write a line for each call; so it does with no word
  canon       write the canonical text: bytes that make the same calls
  -h, --help  say this
  --version   say which version it is

Example, what a log of a build hides:
  parselog < build.log | grep -v '^print'
";

/// What is said of words that ask for nothing that the program knows.
pub const USAGE: &str = "usage: parselog [log|canon]";

/// What a word asks for that names no mode.
#[derive(Debug, Clone, Copy, PartialEq, Eq)]
pub enum Request {
    /// To say what the program does.
    Help,
    /// To say which version it is.
    Version,
}

/// What the first word asks for, whatever stands after it: `--help` and `-h`, or `--version`.
pub fn asked_of(first: Option<&str>) -> Option<Request>
    ensures { result ≡ asked_of (option_copied first.entry) }
{
    match first {
        None => None,
        Some(word) => {
            if word == "--help" || word == "-h" {
                Some(Request::Help)
            } else if word == "--version" {
                Some(Request::Version)
            } else {
                None
            }
        }
    }
}

/// The mode that the arguments name: `first` is the first, and `more` says whether a second
/// came. No argument means [`Mode::Log`], as the one argument `log` does, and the one
/// argument `canon` means [`Mode::Canon`]. `None`, for anything else, means the usage line.
pub fn mode(first: Option<&str>, more: bool) -> Option<Mode>
    ensures { result ≡ mode_of (option_copied first.entry) more }
{
    if more {
        return None;
    }
    match first {
        None => Some(Mode::Log),
        Some(word) => {
            if word == "log" {
                Some(Mode::Log)
            } else if word == "canon" {
                Some(Mode::Canon)
            } else {
                None
            }
        }
    }
}

/// What the program says of a fault, as a whole line without its line feed.
pub fn message(fault: Fault) -> &'static str
    ensures { result.now ≡ message_of fault }
{
    match fault {
        Fault::Read => "parselog: read failed",
        Fault::Write => "parselog: write failed",
        Fault::Flush => "parselog: flush failed",
    }
}

/// Whether an error of this kind says that nobody reads the output any more.
pub fn is_broken_pipe(kind: ErrorKind) -> bool
    ensures { result ≡ is_broken_pipe kind }
{
    matches!(kind, ErrorKind::BrokenPipe)
}
