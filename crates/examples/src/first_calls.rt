//! A few bytes and a performer, as the page of the crate `anstyle_parse` shows them.
use anstyle_parse::{Parser, Perform, Utf8Parser};

pub fn make_first_calls<P: Perform>(performer: &mut P) {
    let mut parser = Parser::<Utf8Parser>::new();
    parser.advance_all(performer, b"\x1B[1;31mhi\x1B[0m");
}
