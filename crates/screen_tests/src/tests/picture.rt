//! Pictures of what a screen shows, and of all that it showed, written out by hand after the definitions of SVG and of XML.
use super::{Put, assert_same, fed};
use screen_pieces::laws::pictures_are_read;
use screen_pieces::{PictureBytes, RESERVED_PICTURE, Terminal};
use std::alloc::{AllocError, AllocGlobal, Global};
use std::process::Abort;
use std::test::Fail;

/// For dark pages, of all that the screen showed, with the cursor, in a window.
const ALL: PictureBytes = PictureBytes {
    scheme: 2,
    shown: 1,
    cursor: 1,
    window: 1,
    reserved: [0; RESERVED_PICTURE],
};

/// How many bytes the picture has.
const LENGTH: usize = 877;

const PICTURE: [u8; LENGTH] =
    *b"<svg xmlns=\"http://www.w3.org/2000/svg\" viewBox=\"0 -30 40 70\" width=\"40\" height=\"70\" \
    font-family=\"F\" font-size=\"16.61\" xml:space=\"preserve\">\
    <title>t&lt;</title><style>svg{color-scheme:dark;color:#ffffff}.page{color:#1e1e1e}.bar{color:#3b3b3b}\
    text,path,rect,circle{fill:currentColor}text{white-space:pre}a{color:inherit}.shape{fill:none}.cursor{fill:none;stroke:currentColor}\
    circle{fill-opacity:.15}.name{text-anchor:middle}</style><rect x=\"0\" y=\"0\" width=\"40\" height=\"40\" class=\"page\"></rect>\
    <rect x=\"0\" y=\"-30\" width=\"40\" height=\"30\" class=\"bar\"></rect><circle cx=\"20\" cy=\"-15\" r=\"6\"></circle>\
    <circle cx=\"40\" cy=\"-15\" r=\"6\"></circle><circle cx=\"60\" cy=\"-15\" r=\"6\"></circle>\
    <text x=\"20\" y=\"-10\" class=\"name\">t&lt;</text><text x=\"0\" y=\"15\" textLength=\"10\">a</text>\
    <text x=\"0\" y=\"35\" textLength=\"10\">b</text><rect x=\"10\" y=\"20\" width=\"10\" height=\"20\" class=\"cursor\"></rect></svg>";

/// A screen of four columns and one row, which a row has left.
fn scrolled(alloc: Global) -> Result<Terminal, AllocError> {
    Ok(fed(Terminal::with_history(alloc, 4, 1, 1, true)?, b"a\r\nb"))
}

/// All that it showed, in just so much room.
fn drawn(terminal: &Terminal, alloc: Global) -> Put<LENGTH> {
    let mut room = [0; LENGTH];
    let answer = terminal.svg(alloc, ALL, "t<", "F", &mut room);
    (answer, room)
}

/// The picture, for which a byte less is no room.
fn assert_picture(rt: &(impl Abort + AllocGlobal), terminal: Terminal) {
    assert_same(rt, &drawn(&terminal, rt.alloc()), &(Ok(LENGTH), PICTURE));
    let refused = terminal.svg(rt.alloc(), ALL, "t<", "F", &mut [0; LENGTH - 1]);
    assert_same(rt, &refused, &Err(LENGTH));
    drop(terminal);
}

#[test]
fn picture(rt: HostRuntime) -> Result<(), Fail> {
    let terminal = scrolled(rt.alloc())?;
    assert_picture(&rt, terminal);
    Ok(())
}

// The names of the laws.
#[test]
fn laws(_rt: HostRuntime) {
    pictures_are_read();
}
