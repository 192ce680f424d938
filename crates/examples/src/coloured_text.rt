//! A log in memory as HTML, as the page of the crate `ansi_html` shows it.
use ansi_html::{Scheme, Styling, convert};
use anstyle_parse::io::{Fault, FromRead, FromWrite};
use std::alloc::Global;

pub fn html(alloc: Global, log: &[u8]) -> (Vec<u8>, Result<(), Fault>) {
    let mut reader = FromRead::new(log);
    let writer = FromWrite::new(Vec::new(alloc));
    let styling = Styling::Inline(Scheme::Both);
    let (writer, answer) = convert(styling, b"<pre>", &mut reader, writer, b"</pre>");
    (writer.into_inner(), answer)
}
