//! The calls that select the style and the link of a character.
ghost use Rattle.std.specs.Prelude.{◌≡◌, ◌∷◌, []};
ghost use Rattle.ansi_style.specs.Codes.{selection, codes_of};
ghost use Rattle.ansi_html.specs.ShownLinks.{link_in};
ghost use Rattle.screen_html.specs.Links.{link_at};
ghost use Rattle.screen_html.specs.Paid.{purse_of, purse_with};
ghost use Rattle.screen_calls.specs.Calls.{style_calls, link_calls};

use ansi_html::Link;
use ansi_style::Style;
use anstyle_parse::io::Output;
use anstyle_parse::{Parser, PerformText, Utf8Parser};
use screen_html::{LinkTable, begin_link};
use stream_state::LentBytes;

/// More bytes than the sequence of a style has.
const MOST_CODES: usize = 256;

/// Gives on the sequence that leads from any style to this one (SGR).
#[inline(never)]
fn give_style<P: PerformText>(performer: &mut P, style: Style)
    ensures { P.receives performer.old (selection (codes_of style) ∷ []) performer.new }
{
    let mut room = [0; MOST_CODES];
    let mut output = Output::new(LentBytes::new(MOST_CODES, &mut room));
    style.write_codes(&mut output);
    let (codes, _answer) = output.finish();
    let mut parser = Parser::<Utf8Parser>::new();
    parser.advance_all(performer, codes.bytes());
}

/// Selects a style, where another one is selected.
pub(crate) fn select_style<P: PerformText>(performer: &mut P, selected: &mut Style, style: Style)
    ensures received { P.receives performer.old (style_calls selected.old style) performer.new }
    ensures selected { selected.new ≡ style }
{
    let is_other = !selected.is_same(&style);
    *selected = style;
    if is_other {
        give_style(performer, style);
    }
}

/// Selects the link of a number, where that of the last character is another, and what is spare pays for it: else none.
pub(crate) fn select_link<P: PerformText>(
    performer: &mut P,
    links: &LinkTable,
    number: u32,
    last: &mut Link,
    spare: &mut usize,
)
    ensures received { P.receives performer.old
        (link_calls (link_in last.old) (link_at number links.now.places) (link_in last.new)) performer.new }
    ensures paid { purse_of last.new spare.new
        ≡ purse_with (purse_of last.old spare.old) (link_at number links.now.places) }
{
    let is_other = last.uri() != links.link(number).uri();
    begin_link(links, number, last, spare);
    if is_other {
        html_urls::begin_link(performer, last.uri());
    }
}

/// Ends the link of the last character, where it has one.
pub(crate) fn end_link<P: PerformText>(performer: &mut P, last: &Link)
    ensures { P.receives performer.old (link_calls (link_in last.now) [] []) performer.new }
{
    if last.uri() != b"".as_slice() {
        html_urls::begin_link(performer, b"");
    }
}
