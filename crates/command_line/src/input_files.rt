//! The files that a program reads, and how it says what became of one.
ghost use Rattle.std.specs.Prelude.{◌≡◌, ◌≤◌, None, true, false, length, map, string_bytes, IfOk};
ghost use Rattle.std.specs.List.{list_any};
ghost use Rattle.command_line.specs.Inputs.{input_failed, name_of, names_read};

use crate::beginning::Beginning;
use crate::standard::STANDARD;
use anstyle_parse::io::Source;
use each_source::Stream;
use std::alloc::AllocError;
use std::fmt::Display;
use std::fs::File;
use std::io::Read;
use std::rt::{HostRuntime, Stdin};
use std::{fs, io};

/// A file that a program is to read, or standard input. It is opened when it is first read, and closed at its
/// end. Where it can't be opened or read, that is said on standard error, at once and once.
#[derive(Drop)]
pub struct Input<'a> {
    rt: HostRuntime,
    /// The name at the front of what the program says.
    program: &'a str,
    /// The name of the file, or `-`.
    name: &'a str,
    opened: Opened,
    has_failed: bool,
    beginning: Beginning,
}

/// Where the reading of an input stands.
#[derive(Drop)]
enum Opened {
    NotYet,
    Standard(Stdin),
    File(File),
    /// It is at its end, or has failed.
    Closed,
}

/// The inputs of these names, none of which is opened so far; with no name, standard input.
pub fn inputs<'a>(
    rt: HostRuntime,
    program: &'a str,
    names: &'a [String],
) -> Result<Vec<Input<'a>>, AllocError>
    ensures { IfOk result (λ inputs. map name_of inputs.items ≡ names_read (map string_bytes names.now)) }
{
    let mut inputs = Vec::new(rt.alloc());
    for name in names {
        inputs.push(Input::new(rt, program, name.as_str()))?;
    }
    if names.is_empty() {
        inputs.push(Input::new(rt, program, STANDARD))?;
    }
    Ok(inputs)
}

/// Whether one of the inputs has failed.
pub fn have_failed(inputs: &[Input<'_>]) -> bool
    ensures { result ≡ list_any input_failed inputs.now }
{
    inputs.iter().any(|input| input.has_failed)
}

impl<'a> Input<'a> {
    /// The input of this name, which is not opened so far.
    pub fn new(rt: HostRuntime, program: &'a str, name: &'a str) -> Input<'a>
        ensures name { name_of result ≡ name.now }
        ensures not_failed { input_failed result ≡ false }
    {
        Input {
            rt,
            program,
            name,
            opened: Opened::NotYet,
            has_failed: false,
            beginning: Beginning::new(),
        }
    }

    /// Whether it could not be opened, or a read has failed.
    pub fn has_failed(&self) -> bool
        ensures { result ≡ input_failed self.now }
    {
        self.has_failed
    }

    /// Opens it.
    fn open(&self) -> io::Result<Opened> {
        if self.name == STANDARD {
            Ok(Opened::Standard(self.rt.stdin()))
        } else {
            Ok(Opened::File(fs::open(&self.rt, self.name)?))
        }
    }

    /// Opens it where it is not opened so far, and reads.
    fn read_opened(&mut self, into: &mut [u8]) -> io::Result<usize>
        ensures within { IfOk result (λ count. count ≤ length into.new) }
        ensures same { input_failed self.new ≡ input_failed self.old }
    {
        if matches!(self.opened, Opened::NotYet) {
            self.opened = self.open()?;
        }
        match &mut self.opened {
            Opened::Standard(stdin) => stdin.read(into),
            Opened::File(file) => file.read(into),
            Opened::NotYet | Opened::Closed => Ok(0),
        }
    }

    /// Looks at what was read: where it begins as what the programs don't read, that is said, once.
    fn look(&mut self, piece: &[u8])
        ensures { input_failed self.new ≡ input_failed self.old }
    {
        if let Some(kind) = self.beginning.take(piece) {
            say_of(&self.rt, self.program, self.name, &kind.words());
        }
    }

    /// Says why it failed.
    fn say(&self, error: io::Error) {
        if self.name == STANDARD {
            let program = self.program;
            let _ = eprintln!(&self.rt; "{program}: read failed: {error}");
        } else {
            file_failed(&self.rt, self.program, self.name, error);
        }
    }
}

impl Source for Input<'_> {
    // What a file holds no clause knows.
    ghost remaining = { λ _. None };

    ghost has_failed = { input_failed };

    ghost zero_is_end = { true };

    fn read(&mut self, into: &mut [u8]) -> Option<usize> {
        match self.read_opened(into) {
            Ok(count) => {
                if count == 0 && !into.is_empty() {
                    self.opened = Opened::Closed;
                }
                self.look(&into[..count]);
                Some(count)
            }
            Err(error) => {
                self.say(error);
                self.opened = Opened::Closed;
                self.has_failed = true;
                None
            }
        }
    }
}

impl Stream for Input<'_> {
    /// Says so on standard error.
    fn ended_in_string(&self, begin: u64) {
        let what = format_args!("ends inside a string that begins at byte {begin}");
        say_of(&self.rt, self.program, self.name, &what);
    }
}

/// Says on standard error why a file failed, or a folder.
pub fn file_failed(rt: &HostRuntime, program: &str, name: &str, error: io::Error) {
    let text = format!(in rt.alloc(); "{error}");
    let reason = match &text {
        Ok(text) => without_number(text.as_str()),
        Err(_) => "failed",
    };
    say_of(rt, program, name, &reason);
}

/// Says something of a file on standard error, after the program's name and the file's. Where that can't be written
/// nothing is done about it. A name that could drive a terminal is written as Rattle writes a text.
pub(crate) fn say_of(rt: &HostRuntime, program: &str, name: &str, what: &impl Display) {
    let name = if name == STANDARD {
        "standard input"
    } else {
        name
    };
    let _ = if is_written_quoted(name) {
        eprintln!(rt; "{program}: {name:?}: {what}")
    } else {
        eprintln!(rt; "{program}: {name}: {what}")
    };
}

/// Whether a name could drive a terminal, or shows nothing: it is written as Rattle writes a text.
fn is_written_quoted(name: &str) -> bool {
    name.is_empty() || name.chars().any(|c| c.is_control())
}

/// The words of an error, without its number, which stands after them.
fn without_number(text: &str) -> &str {
    match text.split_once(" (os error ") {
        Some((words, _)) => words,
        None => text,
    }
}
