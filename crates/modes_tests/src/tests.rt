//! Rows that were worked by hand from the sources that the definitions name, or that xterm 379 answered.
mod modes;

use ansi_modes::Asked;
use anstyle_parse::{Parser, Utf8Parser};
use std::fmt::Debug;
use std::process::Abort;

/// Two values are the same; else both are shown. (It stands in each crate of tests: a function that may end the process
/// is let stand in tests alone, and no other crate sees those.)
fn assert_same<T: PartialEq + Debug>(rt: &impl Abort, value: &T, wanted: &T) {
    assert_eq!(rt; *value, *wanted);
}

/// What was asked for by the bytes.
fn after(bytes: &[u8]) -> Asked {
    let mut asked = Asked::new();
    let mut parser = Parser::<Utf8Parser>::new();
    parser.advance_texts(&mut asked, bytes);
    asked
}
