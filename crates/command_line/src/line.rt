//! The words of a line: which are options, and which name files.
ghost use Rattle.std.specs.Prelude.{◌≡◌, ◌<◌, ◌++◌, ◌∷◌, [], map, string_bytes, OnOk, IfOk};
ghost use Rattle.std.specs.List.{list_all};
ghost use Rattle.command_line.specs.Options.{texts};
ghost use Rattle.command_line.specs.Line.{is_digit, is_number, is_size, is_size_by, may_have_size, is_file, place_behind, place_after, options_said, files_said, options_of, files_of, options_in, files_in, joined, before_value};

use crate::options::{
    OUTPUT, SHORT_OUTPUT, after, given_words, is_one_of, is_valued_one, wants_value,
};
use crate::{FAILED, MISUSED};
use std::alloc::{AllocError, Global};
use std::io::ErrorKind;
use std::process::ExitCode;
use std::rt::Env;

/// The options and the files of a line.
#[derive(Drop)]
pub struct Line {
    /// The options, in their order; `--title TEXT` is here `--title=TEXT`, and `-o FILE` and `-oFILE` are
    /// `--output=FILE`.
    pub options: Vec<String>,
    /// The names of files, in their order; `-` is one of them.
    pub files: Vec<String>,
}

/// What the next word of a line is.
#[derive(Debug, Clone, Copy, PartialEq, Eq)]
pub enum Place {
    /// An option, or the name of a file.
    Words,
    /// The value of the option that stands before it, as after `-o` or `--title`.
    Value,
    /// The same where it is a size, as after `--shown`, which may also stand alone; and else an option, or the name of
    /// a file.
    Size,
    /// The name of a file: it stands after `--`.
    Files,
}

/// The line that the program was given, for these options of its own. Where there is none, that was said on
/// standard error: with status 2 that a word is no UTF-8, and with 1 that there was no memory.
pub fn given_line(
    rt: &(impl Env + AllocGlobal + Eprint),
    program: &str,
    options: &[&str],
) -> Result<Line, ExitCode> {
    match given_words(rt) {
        Ok(words) => match line_of(rt.alloc(), words.as_slice(), options) {
            Ok(line) => Ok(line),
            Err(_) => Err(no_memory(rt, program)),
        },
        Err(error) if error.kind() == ErrorKind::InvalidData => Err(not_text(rt, program)),
        Err(_) => Err(no_memory(rt, program)),
    }
}

/// Says that there was no memory, on standard error, and answers status 1.
fn no_memory(rt: &impl Eprint, program: &str) -> ExitCode {
    let _ = eprintln!(rt; "{program}: out of memory");
    ExitCode::from(FAILED)
}

/// Says that a word is no UTF-8, on standard error, and answers status 2.
fn not_text(rt: &impl Eprint, program: &str) -> ExitCode {
    let _ = eprintln!(rt;
        "{program}: a word is no UTF-8: a file with such a name is given by < (see {program} --help)"
    );
    ExitCode::from(MISUSED)
}

/// The line of these words. An option whose value may stand after it, and that is the last word, stays as it is.
pub fn line_of(alloc: Global, words: &[String], options: &[&str]) -> Result<Line, AllocError>
    ensures options { IfOk result (λ line. map string_bytes line.options.items
        ≡ options_in (texts options.now) Place.Words (map string_bytes words.now)) }
    ensures files { IfOk result (λ line. map string_bytes line.files.items
        ≡ files_in (texts options.now) Place.Words (map string_bytes words.now)) }
{
    let mut line = Line {
        options: Vec::new(alloc),
        files: Vec::new(alloc),
    };
    let mut place = Place::Words;
    let mut before = "";
    for word in words {
        place = line.add(alloc, place, before, word.as_str(), options)?;
        before = word.as_str();
    }
    if place == Place::Value {
        push(&mut line.options, alloc, before)?;
    }
    Ok(line)
}

impl Line {
    /// Takes one word more, which stands at this place, with the word before it, and answers the place of the next.
    fn add(
        &mut self,
        alloc: Global,
        place: Place,
        before: &str,
        word: &str,
        options: &[&str],
    ) -> Result<Place, AllocError>
        ensures place { IfOk result (λ next. next ≡ place_after (texts options.now) place word.now) }
        ensures options { OnOk result (map string_bytes self.new.options.items
            ≡ map string_bytes self.old.options.items
            ++ options_of (texts options.now) place before.now word.now) }
        ensures files { OnOk result (map string_bytes self.new.files.items
            ≡ map string_bytes self.old.files.items ++ files_of (texts options.now) place word.now) }
    {
        match place {
            Place::Files => push(&mut self.files, alloc, word)?,
            Place::Value => push_valued(&mut self.options, alloc, before, word)?,
            Place::Size if is_size(word) => push_valued(&mut self.options, alloc, before, word)?,
            Place::Size | Place::Words => self.add_said(alloc, word, options)?,
        }
        Ok(place.after(word, options))
    }

    /// Takes one word more, which is the value of none.
    fn add_said(&mut self, alloc: Global, word: &str, options: &[&str]) -> Result<(), AllocError>
        ensures options { OnOk result (map string_bytes self.new.options.items
            ≡ map string_bytes self.old.options.items ++ options_said (texts options.now) word.now) }
        ensures files { OnOk result (map string_bytes self.new.files.items
            ≡ map string_bytes self.old.files.items ++ files_said (texts options.now) word.now) }
    {
        if word == "--" || wants_value(word, options) {
            return Ok(());
        }
        match after(word, SHORT_OUTPUT) {
            Some(name) => push_valued(&mut self.options, alloc, SHORT_OUTPUT, name),
            None if is_file(word, options) => push(&mut self.files, alloc, word),
            None => push(&mut self.options, alloc, word),
        }
    }
}

impl Place {
    /// The place of the next word.
    fn after(self, word: &str, options: &[&str]) -> Place
        ensures { result ≡ place_after (texts options.now) self word.now }
    {
        match self {
            Place::Files => Place::Files,
            Place::Value => Place::Words,
            Place::Size if is_size(word) => Place::Words,
            Place::Size | Place::Words => Place::behind(word, options),
        }
    }

    /// The place of the word after one that is no option's value.
    fn behind(word: &str, options: &[&str]) -> Place
        ensures { result ≡ place_behind (texts options.now) word.now }
    {
        if word == "--" {
            Place::Files
        } else if wants_value(word, options) {
            Place::Value
        } else if may_have_size(word, options) {
            Place::Size
        } else {
            Place::Words
        }
    }
}

/// Whether the next word may be the value of this option, where it is a size: it stands for itself too.
fn may_have_size(word: &str, options: &[&str]) -> bool
    ensures { result ≡ may_have_size (texts options.now) word.now }
{
    is_one_of(word, options) && is_valued_one(word, options)
}

/// Whether a word has the form of a size: COLUMNSxROWS, each in decimal, also with an X.
fn is_size(word: &str) -> bool
    ensures { result ≡ is_size word.now }
{
    is_size_by(word, 'x') || is_size_by(word, 'X')
}

/// Whether it has this form with this sign.
fn is_size_by(word: &str, sign: char) -> bool
    requires { sign < 128 }
    ensures { result ≡ is_size_by sign word.now }
{
    match word.split_once(sign) {
        Some((columns, rows)) => is_number(columns.as_bytes()) && is_number(rows.as_bytes()),
        None => false,
    }
}

/// Whether a text is a number in decimal: digits alone, and one at least.
fn is_number(text: &[u8]) -> bool
    ensures { result ≡ is_number text.now }
{
    !text.is_empty() && are_digits(text)
}

/// Whether all bytes are digits.
fn are_digits(bytes: &[u8]) -> bool
    ensures { result ≡ list_all is_digit bytes.now }
{
    bytes.iter().all(|byte| is_digit(*byte))
}

/// Whether a byte is a digit.
fn is_digit(byte: u8) -> bool
    ensures { result ≡ is_digit byte }
{
    b'0' <= byte && byte <= b'9'
}

/// Whether a word is the name of a file: it is no option of the program's own, and does not begin with a dash
/// or is a dash alone.
fn is_file(word: &str, options: &[&str]) -> bool
    ensures { result ≡ is_file (texts options.now) word.now }
{
    !is_one_of(word, options) && (word == "-" || !word.starts_with("-"))
}

/// Adds a copy of a text.
fn push(texts: &mut Vec<String>, alloc: Global, text: &str) -> Result<(), AllocError>
    ensures { OnOk result (map string_bytes texts.new.items ≡ map string_bytes texts.old.items ++ text.now ∷ []) }
{
    let copy = String::from_str(alloc, text)?;
    texts.push(copy)?;
    Ok(())
}

/// Adds an option with its value, which stood after it.
fn push_valued(
    texts: &mut Vec<String>,
    alloc: Global,
    option: &str,
    value: &str,
) -> Result<(), AllocError>
    ensures { OnOk result (map string_bytes texts.new.items
        ≡ map string_bytes texts.old.items ++ joined option.now value.now ∷ []) }
{
    let mut joined = before_value(alloc, option)?;
    joined.push_str(value)?;
    texts.push(joined)?;
    Ok(())
}

/// What stands before the value, where it is joined to the option.
fn before_value(alloc: Global, option: &str) -> Result<String, AllocError>
    ensures { IfOk result (λ text. string_bytes text ≡ before_value option.now) }
{
    if option == SHORT_OUTPUT {
        return String::from_str(alloc, OUTPUT);
    }
    let mut text = String::from_str(alloc, option)?;
    text.push_str("=")?;
    Ok(text)
}
