//! The words that a program is given: its own options, and those that every program has.
ghost use Rattle.std.specs.Prelude.{◌≡◌, map, string_bytes, option_copied};
ghost use Rattle.std.specs.List.{list_any};
ghost use Rattle.std.specs.Process.{exit_status};
ghost use Rattle.command_line.specs.Options.{texts, is_option, is_one_of, is_valued, wants_value, has_word, Asks, Means, AnswersWith, after_option, last_value};

use crate::{MISUSED, message, output_failed};
use anstyle_parse::io::Fault;
use std::io;
use std::process::ExitCode;
use std::rt::Env;

/// The version of the programs and of the library.
pub const VERSION: &str = "0.1.0";

/// What stands before the name of the file that is written to, as [`Line`](crate::Line) has it.
pub const OUTPUT: &str = "--output=";

/// The same option in one letter: the name is the next word.
pub(crate) const SHORT_OUTPUT: &str = "-o";

/// What words ask for that are none of a program's own options.
#[derive(Debug, Clone, Copy, PartialEq, Eq)]
pub enum Request<'a> {
    /// To say what it does, `--help` or `-h`.
    Help,
    /// To say which version it is, `--version`.
    Version,
    /// Nothing so far: this option is the last word, and its value is wanting.
    Unvalued(&'a str),
    /// Nothing that it knows: this word is no option.
    Unknown(&'a str),
}

/// The words that the program was given, without its own name.
pub fn given_words(rt: &(impl Env + AllocGlobal)) -> io::Result<Vec<String>> {
    let words = std::env::args(rt)?.skip(1).collect(rt.alloc())?;
    Ok(words)
}

/// What the words ask for, by the first that is none of the program's own `options`; `None` where
/// all are. An option that ends in `=` stands for each word that begins with it.
pub fn asked_of<'a>(words: &'a [String], options: &[&str]) -> Option<Request<'a>>
    ensures { Asks (texts options.now) (map string_bytes words.now) result }
{
    match words.iter().find(|word| !is_one_of(word.as_str(), options)) {
        None => None,
        Some(word) => Some(meaning(word.as_str(), options)),
    }
}

/// What a word asks for that is none of the program's own options.
fn meaning<'a>(word: &'a str, options: &[&str]) -> Request<'a>
    ensures { Means (texts options.now) word.now result }
{
    if word == "--help" || word == "-h" {
        Request::Help
    } else if word == "--version" {
        Request::Version
    } else if wants_value(word, options) {
        Request::Unvalued(word)
    } else {
        Request::Unknown(word)
    }
}

/// Whether a word is one of the options.
pub(crate) fn is_one_of(word: &str, options: &[&str]) -> bool
    ensures { result ≡ is_one_of (texts options.now) word.now }
{
    options.iter().any(|option| is_option(word, option))
}

/// Whether a word is this option, or begins with it where the option ends in `=`.
fn is_option(word: &str, option: &str) -> bool
    ensures { result ≡ is_option option.now word.now }
{
    if option.ends_with("=") {
        word.starts_with(option)
    } else {
        word == option
    }
}

/// Whether the next word is the value of this one: it is `-o`, or one of the options without its `=`, and none of
/// them as it stands.
pub(crate) fn wants_value(word: &str, options: &[&str]) -> bool
    ensures { result ≡ wants_value (texts options.now) word.now }
{
    word == SHORT_OUTPUT || (is_valued_one(word, options) && !is_one_of(word, options))
}

/// Whether a word is one of the options without its `=`.
pub(crate) fn is_valued_one(word: &str, options: &[&str]) -> bool
    ensures { result ≡ list_any (is_valued word.now) (texts options.now) }
{
    options.iter().any(|option| is_valued(word, option))
}

/// Whether a word is this option without the `=` at its end.
fn is_valued(word: &str, option: &str) -> bool
    ensures { result ≡ is_valued word.now option.now }
{
    match option.strip_suffix('=') {
        Some(name) => name == word,
        None => false,
    }
}

/// Whether one of the words is this one.
pub fn has_word(words: &[String], wanted: &str) -> bool
    ensures { result ≡ has_word wanted.now (map string_bytes words.now) }
{
    words.iter().any(|word| word.as_str() == wanted)
}

/// What follows `option` in the last of the words that begin with it, where one does.
pub fn value_of<'a>(words: &'a [String], option: &str) -> Option<&'a str>
    ensures { option_copied result ≡ last_value option.now (map string_bytes words.now) }
{
    let mut value = None;
    for word in words {
        value = after(word.as_str(), option).or(value);
    }
    value
}

/// What follows the option, where the word begins with it.
pub(crate) fn after<'a>(word: &'a str, option: &str) -> Option<&'a str>
    ensures { option_copied result ≡ after_option option.now word.now }
{
    word.strip_prefix(option)
}

/// The end of a program whose words ask for this: `help` is what it says of itself, with its usage
/// up to the first line that is empty. Standard input is not read. The status is 0, or where standard output does not
/// take the answer 141 or 1, as of [`Target::ended`](crate::Target::ended), and 2 for a word that the program doesn't
/// know or an option without its value, which a line on standard error shows; for the former the usage follows it.
pub fn answered(
    rt: &(impl Print + Eprint),
    program: &str,
    help: &str,
    request: Request<'_>,
) -> ExitCode
    ensures { AnswersWith request.entry (exit_status result) }
{
    let printed = match request {
        Request::Help => rt.print(help),
        Request::Version => println!(rt; "{program} {VERSION}"),
        Request::Unvalued(word) => return unvalued(rt, program, word),
        Request::Unknown(word) => return unknown(rt, program, help, word),
    };
    match printed {
        Ok(()) => ExitCode::SUCCESS,
        Err(error) => output_failed(rt, program, message(Fault::Write), Some(error)),
    }
}

/// Says that an option has no value, on standard error, and how to ask for help, and answers status 2.
fn unvalued(rt: &impl Eprint, program: &str, word: &str) -> ExitCode
    ensures { exit_status result ≡ 2 }
{
    let what = if word == SHORT_OUTPUT || word == "--output" {
        "the name of a file"
    } else {
        "a value"
    };
    let _ = eprintln!(rt; "{program}: {word} wants {what} (see {program} --help)");
    ExitCode::from(MISUSED)
}

/// Says that a word is no option, on standard error, and which words are known, and answers status 2.
fn unknown(rt: &impl Eprint, program: &str, help: &str, word: &str) -> ExitCode
    ensures { exit_status result ≡ 2 }
{
    let usage = usage_of(help);
    let _ = eprintln!(rt; "{program}: unknown option {word:?} (see {program} --help)\n{usage}");
    ExitCode::from(MISUSED)
}

/// The usage at the front of what a program says of itself: all up to the first line that is empty.
fn usage_of(help: &str) -> &str {
    match help.split_once("\n\n") {
        Some((usage, _)) => usage,
        None => help,
    }
}
