//! Standard input, output and error, as the files that they are.

use std::fs;
use std::fs::{Metadata, OpenOptions};
use std::os::fd::{AsRawFd, IntoRawFd, RawFd};
use std::os::unix::fs::MetadataExt;
use std::rt::HostRuntime;

/// The name of standard input, as of standard output.
pub(crate) const STANDARD: &str = "-";

/// The files that stand there.
const INPUT: &str = "/dev/stdin";

const OUTPUT: &str = "/dev/stdout";

/// The file that is always empty.
const NULL: &str = "/dev/null";

/// The descriptor of standard error, the last of the three.
const LAST: RawFd = 2;

/// Which of these files is standard output too, where that is a file; with no name, whether standard input is. What is
/// written there would be read again, with no end.
pub(crate) fn read_again<'a>(rt: &HostRuntime, names: &'a [String]) -> Option<&'a str> {
    let output = match fs::metadata(rt, OUTPUT) {
        Ok(output) if output.is_file() => output,
        _ => return None,
    };
    if names.is_empty() {
        return if is_file(rt, STANDARD, &output) {
            Some(STANDARD)
        } else {
            None
        };
    }
    for name in names {
        if is_file(rt, name.as_str(), &output) {
            return Some(name.as_str());
        }
    }
    None
}

/// Whether the file of this name is that one.
fn is_file(rt: &HostRuntime, name: &str, that: &Metadata) -> bool {
    let path = if name == STANDARD { INPUT } else { name };
    match fs::metadata(rt, path) {
        Ok(this) => (this.dev(), this.ino()) == (that.dev(), that.ino()),
        Err(_) => false,
    }
}

/// Opens `/dev/null` where one of the three is closed: else it would be the next file that is opened, in which would then stand
/// what is said on standard error. It is opened to be written to, so that a closed input still can't be read.
pub(crate) fn fill_closed(rt: &HostRuntime) {
    for _ in 0..=LAST {
        match OpenOptions::new().write(true).open(rt, NULL) {
            Ok(file) if file.as_raw_fd() <= LAST => {
                // (it stays open)
                let _ = file.into_raw_fd();
            }
            _ => return,
        }
    }
}
