//! What Debug writes of faults, of the ends of a run, and of an accumulator's answers.
use anstyle_parse::Taken;
use anstyle_parse::io::{Fault, Stop};
use arrayvec::ArrayString;
use std::fmt::{Debug, Write};

fn shown(value: &impl Debug) -> ArrayString<32> {
    let mut text = ArrayString::new();
    let _ = write!(text, "{value:?}");
    text
}

#[test]
fn names_of_variants(rt: HostRuntime) {
    for (fault, name) in [
        (Fault::Read, "Read"),
        (Fault::Write, "Write"),
        (Fault::Flush, "Flush"),
    ] {
        assert!(rt; shown(&fault).as_str() == name, "{name}");
    }
    for (stop, name) in [
        (Stop::AtEnd, "AtEnd"),
        (Stop::AtFault, "AtFault"),
        (Stop::AtRead, "AtRead"),
    ] {
        assert!(rt; shown(&stop).as_str() == name, "{name}");
    }
    for (taken, name) in [
        (Taken::More, "More"),
        (Taken::Char('a'), "Char('a')"),
        (Taken::Broken('b'), "Broken('b')"),
    ] {
        assert!(rt; shown(&taken).as_str() == name, "{name}");
    }
}
