//! The canonical text of a log in memory, as the page of `anstyle_parse::canon` shows it.
use anstyle_parse::canon::CanonWriter;
use anstyle_parse::io::{Fault, FromRead, FromWrite, write_calls};
use std::alloc::Global;

pub fn canonical(alloc: Global, log: &[u8]) -> (Vec<u8>, Result<(), Fault>) {
    let mut reader = FromRead::new(log);
    let writer = FromWrite::new(Vec::new(alloc));
    let (writer, answer) = write_calls::<CanonWriter<_>, _, _>(&mut reader, writer);
    (writer.into_inner(), answer)
}
