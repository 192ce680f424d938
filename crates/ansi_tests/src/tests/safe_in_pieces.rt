//! Safe text in pieces, and every public item that it stands on by its name.
use super::in_pieces::assert_text;
use super::{assert_answer, assert_bytes};
use ansi_style::Style;
use anstyle_parse::Perform;
use anstyle_parse::canon::{Fault, Output, Sink};
use safe_pieces::laws::{clones, safe_joined, states};
use safe_pieces::{END_ROOM, LEAST_ROOM, SafeState};
use safe_text::{Held, MarkedStanding, MarkingWriter, SafeWriter, Standing, is_unseen};
use std::process::Abort;
use std::test::Fail;
use stream_state::{LentBytes, put_at_start};

/// The bytes of a stream one by one, and then its end, in the least room: its text is this.
fn assert_safe(rt: &(impl Abort + AllocGlobal), stream: &[u8], wanted: &str) -> Result<(), Fail> {
    let mut state = SafeState::new();
    let mut room = [0; LEAST_ROOM];
    Ok(assert_text(rt, &mut state, &mut room, stream, wanted.as_bytes())?)
}

#[test]
fn byte_by_byte(rt: HostRuntime) -> Result<(), Fail> {
    let stream = "a\u{202E}<\x1B[1mU+\u{1F468}\u{200D}\u{1F469}\r\n\u{200D}\r".as_bytes();
    let wanted = "a<U+202E><U+003C>U+\u{1F468}\u{200D}\u{1F469}\n<U+200D><U+000D>";
    assert_safe(&rt, stream, wanted)
}

/// A log in pieces of one byte: a byte of no character, a stamp that BEL ends, and half of a character at the end.
#[test]
fn as_a_log(rt: HostRuntime) -> Result<(), Fail> {
    let stream = b"M\xFCller\x1B_t=17\x07$\xC3\xFF<\xE2\x82";
    assert_safe(&rt, stream, "M\u{FFFD}ller$\u{FFFD}\u{FFFD}<\u{FFFD}")
}

/// Hidden text is marked: its line ends, it is shown again, and the stream ends in it.
#[test]
fn hidden_text(rt: HostRuntime) -> Result<(), Fail> {
    let stream = b"a\x1B[8mb\r\nc\x1B[28md<\x1B[8mU\x1B[me\r\x1B[8m\xE2\x82";
    let wanted =
        "a<U+hidden>b<U+shown>\n<U+hidden>c<U+shown>d<<U+hidden>U<U+shown>e<U+000D><U+hidden>\u{FFFD}<U+shown>";
    assert_safe(&rt, stream, wanted)
}

/// A state of safe text takes nothing in too little room.
fn assert_room(rt: &impl Abort) {
    let mut state = SafeState::new();
    let mut room = [0; 64];
    assert!(rt; state.feed(b"a", &mut room[..LEAST_ROOM - 1]) == None);
    assert!(rt; state.end(&mut room[..END_ROOM - 1]) == None);
}

fn assert_put_at_start(rt: &impl Abort) {
    let mut room = [0; 64];
    assert_eq!(rt; put_at_start(&mut room, b"ab"), 2);
    assert_eq!(rt; room[1], b'b');
}

/// Lent bytes take so many of these.
fn assert_taken(rt: &impl Abort, held: &mut LentBytes<'_>, bytes: &[u8], taken: Option<usize>) {
    assert_eq!(rt; held.write(bytes), taken);
}

/// Lent bytes take no more than they have room for.
fn assert_lent(rt: &impl Abort) {
    let mut lent = [0; 8];
    let mut held = LentBytes::new(7, &mut lent);
    assert_taken(rt, &mut held, b"12345678", Some(7));
    assert_taken(rt, &mut held, b"9", None);
    assert_bytes(rt, held.bytes(), b"1234567");
}

/// A run went well and wrote this.
fn assert_held(rt: &impl Abort, held: &LentBytes<'_>, answer: Result<(), Fault>, wanted: &[u8]) {
    assert_bytes(rt, held.bytes(), wanted);
    assert_answer(rt, answer, Ok(()));
}

/// What was printed last is this.
fn assert_before(rt: &impl Abort, standing: Standing, wanted: char) {
    assert!(rt; standing.before == wanted);
}

#[test]
fn names_of_pieces(rt: HostRuntime) {
    assert_room(&rt);
    assert_put_at_start(&rt);
    assert_lent(&rt);
    let mut more = [0; 16];
    let standing = Standing {
        before: 'a',
        held: Held::Less,
    };
    let mut writer = SafeWriter::resume(standing, Output::new(LentBytes::new(16, &mut more)));
    writer.take('b');
    assert_before(&rt, writer.standing(), 'b');
    writer.mark(true);
    assert_before(&rt, writer.standing(), '>');
    let (held, answer) = writer.suspend().finish();
    assert_held(&rt, &held, answer, b"<b<U+hidden>");
    states();
    safe_joined();
    clones();
}

#[test]
fn names_of_marked_pieces(rt: HostRuntime) {
    let mut memory = [0; 16];
    let mut style = Style::default();
    style.hidden = true;
    assert!(rt; is_unseen(&style));
    let standing = MarkedStanding {
        text: Standing {
            before: 'a',
            held: Held::LessU,
        },
        style,
        is_open: false,
    };
    let output = Output::new(LentBytes::new(16, &mut memory));
    let mut writer = MarkingWriter::resume(standing, output);
    writer.print('b');
    let stands = writer.standing();
    assert!(rt; stands.text.before == 'b' && stands.style == style && stands.is_open);
    let (held, answer) = writer.suspend().finish();
    assert_held(&rt, &held, answer, b"<U<U+hidden>b");
}
