//! A stripper of a log in memory, as docs/USING.md shows it.
use ansi_strip::strip;
use anstyle_parse::io::{Fault, FromRead, FromWrite};
use std::alloc::Global;

pub fn plain(alloc: Global, log: &[u8]) -> (Vec<u8>, Result<(), Fault>) {
    let mut reader = FromRead::new(log);
    let (writer, answer) = strip(&mut reader, FromWrite::new(Vec::new(alloc)));
    (writer.into_inner(), answer)
}
