//! Where a program writes: standard output, or a file that stands there whole or not at all.
ghost use Rattle.std.specs.Prelude.{◌≡◌, ◌⊎◌, false, IfErr, IsOk};
ghost use Rattle.std.specs.Process.{exit_status};
ghost use Rattle.anstyle_parse.specs.Io.Buffer.{writer_behind, held_back};
ghost use Rattle.anstyle_parse.specs.Io.Devices.{writer_error};
ghost use Rattle.command_line.specs.Outputs.{is_named, is_replacing, fault_status, EndsAs};

use crate::input_files::{file_failed, say_of};
use crate::standard::{STANDARD, fill_closed, read_again};
use crate::{FAILED, failed, message, output_failed};
use anstyle_parse::io::{Buffer, Fault, FromWrite};
use each_source::Stopped;
use std::fs::{File, Metadata, OpenOptions};
use std::io::{ErrorKind, IsTerminal, Write};
use std::os::fd::AsFd;
use std::os::unix::fs::{MetadataExt, OpenOptionsExt, fchown};
use std::path::PathBuf;
use std::process::ExitCode;
use std::rt::{HostRuntime, Stdout};
use std::{fs, io};

/// The names that are tried for a new file beside another.
const MOST_NAMES: u32 = 100;

/// The links that Linux goes through, one after another.
const MOST_LINKS: u32 = 40;

/// What is written to: standard output, or a file.
#[derive(Drop)]
pub enum Destination {
    Standard(Stdout),
    File(File),
}

impl Write for Destination {
    fn write(&mut self, bytes: &[u8]) -> io::Result<usize> {
        match self {
            Destination::Standard(stdout) => stdout.write(bytes),
            Destination::File(file) => file.write(bytes),
        }
    }

    fn flush(&mut self) -> io::Result<()> {
        match self {
            Destination::Standard(stdout) => stdout.flush(),
            Destination::File(file) => file.flush(),
        }
    }
}

impl IsTerminal for Destination {
    fn is_terminal(&self) -> bool {
        match self {
            Destination::Standard(stdout) => stdout.is_terminal(),
            Destination::File(file) => file.is_terminal(),
        }
    }
}

/// What is to become of what is written.
#[derive(Drop)]
pub struct Target<'a> {
    rt: HostRuntime,
    /// The name at the front of what the program says.
    program: &'a str,
    /// The file that is to have it, where it is not standard output.
    name: Option<&'a str>,
    replacing: Option<Replacing>,
}

/// A new file, which is to take the place of another.
#[derive(Drop)]
struct Replacing {
    new: String,
    old: String,
}

impl<'a> Target<'a> {
    /// Opens what is written to: standard output where no file is named, or `-`. Where a file, or none, has the name,
    /// what is written goes to a new file beside it; else, as of a device, it goes there. `read` names the files that
    /// are read, with no name standard input: none of them may be the file that standard output is, if that is written
    /// to. `Err` has the status that the program then ends with, and why was said on standard error.
    pub fn open(
        rt: HostRuntime,
        program: &'a str,
        name: Option<&'a str>,
        read: &[String],
    ) -> Result<(Target<'a>, Destination), ExitCode>
        ensures { IfErr result (λ status. exit_status status ≡ 1) }
    {
        match name {
            Some(name) if name != STANDARD => Target::open_file(rt, program, name),
            _ => Target::open_standard(rt, program, read),
        }
    }

    /// Opens standard output.
    fn open_standard(
        rt: HostRuntime,
        program: &'a str,
        read: &[String],
    ) -> Result<(Target<'a>, Destination), ExitCode>
        ensures { IfErr result (λ status. exit_status status ≡ 1) }
    {
        if let Some(name) = read_again(&rt, read) {
            say_of(&rt, program, name, &"input file is output file");
            return Err(ExitCode::from(FAILED));
        }
        let target = Target {
            rt,
            program,
            name: None,
            replacing: None,
        };
        Ok((target, Destination::Standard(rt.stdout())))
    }

    /// Opens a file.
    fn open_file(
        rt: HostRuntime,
        program: &'a str,
        name: &'a str,
    ) -> Result<(Target<'a>, Destination), ExitCode>
        ensures { IfErr result (λ status. exit_status status ≡ 1) }
    {
        fill_closed(&rt);
        match opened(&rt, name) {
            Ok((file, replacing)) => {
                let target = Target {
                    rt,
                    program,
                    name: Some(name),
                    replacing,
                };
                Ok((target, Destination::File(file)))
            }
            Err(error) => {
                file_failed(&rt, program, name, error);
                Err(ExitCode::from(FAILED))
            }
        }
    }

    /// The end of a program that wrote there. Where all went well and no input `has_failed`, the new file takes its
    /// place; else it is removed, and what stood there stays. Why is said on standard error, where it was not.
    pub fn ended(
        self,
        has_failed: bool,
        ran: (Buffer<FromWrite<Destination>>, Result<(), Stopped>),
    ) -> ExitCode
        ensures { EndsAs (is_named self.entry) (is_replacing self.entry) has_failed (held_back ran.0)
            (writer_error (writer_behind ran.0)) ran.1 (exit_status result) }
    {
        let (output, answer) = ran;
        match answer {
            Err(Stopped::NoMemory) => {
                self.remove();
                failed(&self.rt, self.program, "out of memory")
            }
            Err(Stopped::Stuck) => {
                self.remove();
                self.fault_said(Fault::Write, output.into_inner().error())
            }
            Err(Stopped::AtFault(fault)) => {
                self.remove();
                let fault = output.fault_behind(fault);
                self.fault_said(fault, output.into_inner().error())
            }
            Ok(()) if has_failed => {
                self.remove();
                ExitCode::from(FAILED)
            }
            Ok(()) => self.replaced(output.into_inner().into_inner()),
        }
    }

    /// Says why the output failed, and answers the status. An input that failed has said so itself.
    fn fault_said(&self, fault: Fault, error: Option<io::Error>) -> ExitCode
        ensures { exit_status result ≡ fault_status (is_named self.now) fault error }
    {
        match (fault, self.name, error) {
            (Fault::Read, _, _) => ExitCode::from(FAILED),
            (_, Some(name), Some(error)) => {
                file_failed(&self.rt, self.program, name, error);
                ExitCode::from(FAILED)
            }
            (_, _, error) => output_failed(&self.rt, self.program, message(fault), error),
        }
    }

    /// The new file takes its place.
    fn replaced(&self, destination: Destination) -> ExitCode
        ensures known { (exit_status result ≡ 0) ⊎ (exit_status result ≡ 1) }
        ensures nothing_to_do { is_replacing self.now ≡ false → exit_status result ≡ 0 }
    {
        match self.replace(destination) {
            Ok(()) => ExitCode::SUCCESS,
            Err(error) => {
                self.remove();
                file_failed(&self.rt, self.program, self.name.unwrap_or(STANDARD), error);
                ExitCode::from(FAILED)
            }
        }
    }

    /// The new file takes its place, once what is in it is on the disk.
    fn replace(&self, destination: Destination) -> io::Result<()>
        ensures { is_replacing self.now ≡ false → IsOk result }
    {
        match (&self.replacing, destination) {
            (Some(replacing), Destination::File(file)) => {
                file.sync_all()?;
                fs::rename(&self.rt, replacing.new.as_str(), replacing.old.as_str())
            }
            _ => Ok(()),
        }
    }

    /// Removes the new file. Where that fails nothing is done about it.
    fn remove(&self) {
        if let Some(replacing) = &self.replacing {
            let _ = fs::remove_file(&self.rt, replacing.new.as_str());
        }
    }
}

/// Opens a file to write to: a new one beside it, where there is a file of this name, or none.
fn opened(rt: &HostRuntime, name: &str) -> io::Result<(File, Option<Replacing>)> {
    match fs::metadata(rt, name) {
        Ok(old) if old.is_file() => {
            // (the name may be that of a link: the file behind it is replaced)
            let path = fs::canonicalize(rt, name)?;
            let (file, new) = created(rt, path.as_str(), Some(&old))?;
            Ok((file, Some(new)))
        }
        // (of a pipe, to which /dev/stdout may lead, there is no path but this)
        Ok(_) => Ok((OpenOptions::new().write(true).open(rt, name)?, None)),
        Err(error) if error.kind() == ErrorKind::NotFound => {
            let path = behind_links(rt, name)?;
            let (file, new) = created(rt, path.as_str(), None)?;
            Ok((file, Some(new)))
        }
        Err(error) => Err(error),
    }
}

/// The path that links of this name lead to, where nothing stands so far; the name, where it is none of a link.
fn behind_links(rt: &HostRuntime, name: &str) -> io::Result<PathBuf> {
    let mut path = PathBuf::from_str(rt.alloc(), name)?;
    for _ in 0..MOST_LINKS {
        let Ok(target) = fs::read_link(rt, path.as_str()) else {
            return Ok(path);
        };
        let _ = path.pop();
        path.push(target.as_str())?;
    }
    Ok(path)
}

/// Makes a new file beside one, with the rights of what stands there.
fn created(rt: &HostRuntime, path: &str, old: Option<&Metadata>) -> io::Result<(File, Replacing)> {
    for number in 0..MOST_NAMES {
        let new = format!(in rt.alloc(); "{path}.{number}.new")?;
        match created_as(rt, new.as_str(), old) {
            Ok(file) => {
                let old = String::from_str(rt.alloc(), path)?;
                return Ok((file, Replacing { new, old }));
            }
            Err(error) if error.kind() == ErrorKind::AlreadyExists => {}
            Err(error) => return Err(error),
        }
    }
    Err(io::Error::from(ErrorKind::AlreadyExists))
}

/// Makes a new file of this name, with the rights of an old one. Nobody else may open it before it has them.
fn created_as(rt: &HostRuntime, new: &str, old: Option<&Metadata>) -> io::Result<File> {
    let mut options = OpenOptions::new();
    options.write(true).create_new(true);
    match old {
        None => options.open(rt, new),
        Some(old) => {
            options.mode(0o600);
            let file = options.open(rt, new)?;
            match take_rights(&file, old) {
                Ok(()) => Ok(file),
                Err(error) => {
                    let _ = fs::remove_file(rt, new);
                    Err(error)
                }
            }
        }
    }
}

/// Gives a file the rights of an old one, and, as far as that is allowed, its owner and group.
fn take_rights(file: &File, old: &Metadata) -> io::Result<()> {
    let new = file.metadata()?;
    if (new.uid(), new.gid()) != (old.uid(), old.gid()) {
        let _ = fchown(file.as_fd(), Some(old.uid()), Some(old.gid()));
    }
    file.set_permissions(old.permissions())
}
