//! Every public item, by its name, on rows worked by hand.
use crate::{SIZE, begun, named_file, named_size, scheme_of, screen_size};
use ansi_html::Scheme;
use ansi_screen::Size;
use anstyle_parse::io::{FromRead, Source};
use each_source::MOST_FRONT;
use screen_text::NoSize;
use std::alloc::{AllocError, Global};
use std::process::Abort;
use std::test::Fail;

const NINE_BY_TWO: Size = Size {
    columns: 9,
    rows: 2,
};

fn assert_named(rt: &impl Abort, text: Option<&str>, wanted: Result<Option<Size>, NoSize>) {
    assert_eq!(rt; named_size(text), wanted);
}

#[test]
fn sizes(rt: HostRuntime) {
    assert_eq!(rt; SIZE, "--size=");
    assert_named(&rt, None, Ok(None));
    assert_named(&rt, Some("9x2"), Ok(Some(NINE_BY_TWO)));
    assert_named(&rt, Some("1x1"), Err(NoSize));
    assert_eq!(rt; screen_size(None, Some(NINE_BY_TWO)), NINE_BY_TWO);
    assert_eq!(rt; screen_size(None, None), Size::of_a_terminal());
}

/// The words as a program is given them.
fn strings(alloc: Global, words: &[&str]) -> Result<Vec<String>, AllocError> {
    let mut strings = Vec::new(alloc);
    for word in words {
        strings.push(String::from_str(alloc, word)?)?;
    }
    Ok(strings)
}

#[test]
fn words(rt: HostRuntime) -> Result<(), Fail> {
    let both = strings(rt.alloc(), &["--dark", "a", "--light"])?;
    assert_eq!(rt; scheme_of(both.as_slice()), Scheme::Light);
    assert_eq!(rt; scheme_of(&[]), Scheme::Both);
    let one = strings(rt.alloc(), &["a"])?;
    assert_eq!(rt; named_file(one.as_slice()), Some("a"));
    assert_eq!(rt; named_file(both.as_slice()), None);
    assert_eq!(rt; named_file(&[]), Some("-"));
    Ok(())
}

#[test]
fn a_recording(rt: HostRuntime) {
    let mut front = [0; MOST_FRONT];
    let reader = FromRead::new(b"[ COLUMNS=\"9\" LINES=\"2\"]\nab".as_slice());
    let (size, mut rest) = begun(reader, &mut front);
    assert_eq!(rt; size, Some(NINE_BY_TWO));
    let mut piece = [0; 3];
    assert_eq!(rt; rest.read(&mut piece), Some(2));
}
