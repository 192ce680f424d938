//! The words of the program, one by one.
use super::check;
use crate::run::Mode;
use crate::words::{Request, asked_of, message, mode};
use anstyle_parse::canon::Fault;

#[test]
fn modes(rt: HostRuntime) {
    let rows: [(Option<&str>, bool, Option<Mode>); 11] = [
        (None, false, Some(Mode::Log)),
        (Some("log"), false, Some(Mode::Log)),
        (Some("canon"), false, Some(Mode::Canon)),
        (None, true, None),
        (Some("log"), true, None),
        (Some("canon"), true, None),
        (Some(""), false, None),
        (Some("Log"), false, None),
        (Some("logs"), false, None),
        (Some("cano"), false, None),
        (Some("other"), false, None),
    ];
    for (first, more, want) in rows {
        check(
            &rt,
            mode(first, more) == want,
            first.unwrap_or("no word"),
            more as usize,
        );
    }
}

#[test]
fn requests(rt: HostRuntime) {
    let rows: [(Option<&str>, Option<Request>); 9] = [
        (Some("--help"), Some(Request::Help)),
        (Some("-h"), Some(Request::Help)),
        (Some("--version"), Some(Request::Version)),
        (None, None),
        (Some("log"), None),
        (Some("--Help"), None),
        (Some("--helpme"), None),
        (Some("-V"), None),
        (Some(""), None),
    ];
    for (first, want) in rows {
        check(&rt, asked_of(first) == want, first.unwrap_or("no word"), 1);
    }
}

#[test]
fn messages(rt: HostRuntime) {
    let rows = [
        (Fault::Read, "parselog: read failed"),
        (Fault::Write, "parselog: write failed"),
        (Fault::Flush, "parselog: flush failed"),
    ];
    for (fault, line) in rows {
        check(&rt, message(fault) == line, line, 1);
    }
}
