//! Streams that fail, sources one after another, the examples, safe text, what is left of characters that drive a
//! terminal, bytes of a kind, and every public item but those of the screen, by its name.
mod driving;
mod each;
mod example_runs;
mod faults;
mod in_pieces;
mod kinds;
mod lines;
mod names;
mod safe_in_pieces;
mod safe_texts;

use anstyle_parse::io::Fault;
use std::process::Abort;

/// These bytes are what was wanted.
fn assert_bytes(rt: &impl Abort, found: &[u8], wanted: &[u8]) {
    assert_eq!(rt; found, wanted);
}

/// This is how a run was to end.
fn assert_answer(rt: &impl Abort, found: Result<(), Fault>, wanted: Result<(), Fault>) {
    assert_eq!(rt; found, wanted);
}

/// There are as many as was wanted.
fn assert_count(rt: &impl Abort, found: u64, wanted: u64) {
    assert_eq!(rt; found, wanted);
}
