//! An output for each file, in a folder: what the outputs are named after, and which files can't be told apart.
ghost use Rattle.std.specs.Prelude.{◌≡◌, map, option_copied, string_bytes, IfErr, IfOk};
ghost use Rattle.std.specs.Process.{exit_status};
ghost use Rattle.command_line.specs.Options.{texts};
ghost use Rattle.command_line.specs.Folder.{are_named, are_outputs, file_name, first_twice, is_among, is_folder, output_path, output_paths, refuses};

use crate::input_files::file_failed;
use crate::standard::STANDARD;
use crate::{FAILED, MISUSED, failed};
use std::alloc::{AllocError, Global};
use std::fmt::Display;
use std::fs;
use std::path::Path;
use std::process::ExitCode;
use std::rt::HostRuntime;

/// What a program writes of files.
#[derive(Debug, Clone, Copy)]
pub struct Outputs<'a> {
    /// The word for one, as `page`.
    pub word: &'a str,
    /// What stands after the name of a file in that of its output, as `.html`.
    pub extension: &'a str,
}

/// Why files have no outputs of their own.
#[derive(Debug, Clone, Copy, PartialEq, Eq)]
enum Unnamed<'a> {
    /// There was no memory for their names.
    NoMemory,
    /// No output can be named after this one.
    File(&'a str),
}

/// Whether what is written to is a folder: its name ends in a slash.
pub fn is_folder(output: &str) -> bool
    ensures { result ≡ is_folder output.now }
{
    output.ends_with("/")
}

/// The last part of the name of a file. `None` for standard input, and for names as `..`.
pub fn file_name(name: &str) -> Option<&str>
    ensures { option_copied result ≡ file_name name.now }
{
    if name == STANDARD {
        None
    } else {
        Path::new(name).file_name()
    }
}

/// The paths of the outputs of these files in a folder, which is made where it is not there. `Err` has the status that
/// the program then ends with, and why was said on standard error: no file is named, or none can be named after one, or
/// two files have one name; or the folder can't be made, or there is no memory.
pub fn outputs_in(
    rt: &HostRuntime,
    program: &str,
    outputs: Outputs<'_>,
    folder: &str,
    names: &[String],
) -> Result<Vec<String>, ExitCode>
    ensures { IfOk result (λ paths. are_outputs folder.now outputs.entry.extension.now
        (map string_bytes paths.items) (map string_bytes names.now)) }
{
    let what = outputs.word;
    if names.is_empty() {
        let why = format_args!("a folder takes a {what} of each file that is named");
        return Err(refused(rt, program, &why));
    }
    let files = match file_names(rt.alloc(), names) {
        Ok(files) => files,
        Err(Unnamed::NoMemory) => return Err(failed(rt, program, "out of memory")),
        Err(Unnamed::File(name)) => {
            let why = format_args!("{name:?}: no {what} in a folder can be named after it");
            return Err(refused(rt, program, &why));
        }
    };
    if let Some(name) = first_twice(files.as_slice()) {
        let why = format_args!(
            "{name:?}: two files of this name would be one {what} in the folder"
        );
        return Err(refused(rt, program, &why));
    }
    if let Err(error) = fs::create_dir_all(rt, folder) {
        file_failed(rt, program, folder, error);
        return Err(ExitCode::from(FAILED));
    }
    match output_paths(rt.alloc(), folder, files.as_slice(), outputs.extension) {
        Ok(paths) => Ok(paths),
        Err(_) => Err(failed(rt, program, "out of memory")),
    }
}

/// Says why files have no outputs, on standard error, and how to ask for help, and answers status 2.
fn refused(rt: &HostRuntime, program: &str, why: &impl Display) -> ExitCode
    ensures { exit_status result ≡ 2 }
{
    let _ = eprintln!(rt; "{program}: {why} (see {program} --help)");
    ExitCode::from(MISUSED)
}

/// What the outputs of these files are named after, each.
fn file_names<'a>(alloc: Global, names: &'a [String]) -> Result<Vec<&'a str>, Unnamed<'a>>
    ensures named { IfOk result (λ files. are_named (texts files.items) (map string_bytes names.now)) }
    ensures refused { IfErr result refuses }
{
    let mut files = Vec::new(alloc);
    for name in names {
        let Some(file) = file_name(name.as_str()) else {
            return Err(Unnamed::File(name.as_str()));
        };
        if files.push(file).is_err() {
            return Err(Unnamed::NoMemory);
        }
    }
    Ok(files)
}

/// The first of which there is another one, if any.
fn first_twice<'a>(files: &[&'a str]) -> Option<&'a str>
    ensures { option_copied result ≡ first_twice (texts files.now) }
{
    for index in 0..files.len() {
        let file = files[index];
        if is_among(file, &files[index + 1..]) {
            return Some(file);
        }
    }
    None
}

/// Whether one is among these.
fn is_among(file: &str, files: &[&str]) -> bool
    ensures { result ≡ is_among file.now (texts files.now) }
{
    files.iter().any(|other| *other == file)
}

/// Where the outputs stand.
fn output_paths(
    alloc: Global,
    folder: &str,
    files: &[&str],
    extension: &str,
) -> Result<Vec<String>, AllocError>
    ensures { IfOk result (λ paths. map string_bytes paths.items
        ≡ output_paths folder.now extension.now (texts files.now)) }
{
    let mut paths = Vec::new(alloc);
    for file in files {
        paths.push(output_path(alloc, folder, file, extension)?)?;
    }
    Ok(paths)
}

/// Where an output stands.
fn output_path(
    alloc: Global,
    folder: &str,
    file: &str,
    extension: &str,
) -> Result<String, AllocError>
    ensures { IfOk result (λ path. string_bytes path ≡ output_path folder.now extension.now file.now) }
{
    let mut path = String::from_str(alloc, folder)?;
    path.push_str(file)?;
    path.push_str(extension)?;
    Ok(path)
}
