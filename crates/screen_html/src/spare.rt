//! What is spare to begin links with.
ghost use Rattle.std.specs.Prelude.{◌≡◌, false, length, if◌then◌else◌, Some, None};
ghost use Rattle.ansi_html.specs.Affordable.{link_cost, is_paid, left_of};
ghost use Rattle.ansi_html.specs.Html.{escaped};
ghost use Rattle.screen_html.specs.Links.{credited, link_at};
ghost use Rattle.screen_html.specs.Paid.{purse_of, purse_with};
ghost use Rattle.screen_html.specs.Shown.{line_ended};

use crate::table::LinkTable;
use ansi_html::Link;

/// What a line feed earns, in bytes of HTML.
pub(crate) const FEED_EARNS: usize = 100;

/// The most that is kept of what was earned.
const MAX_SPARE: usize = 1_000_000;

/// What is spare after so many bytes were earned.
pub(crate) fn credited(earned: usize, spare: usize) -> usize
    ensures { result ≡ credited earned spare }
{
    if earned < MAX_SPARE && spare < MAX_SPARE - earned {
        spare + earned
    } else {
        MAX_SPARE
    }
}

/// What is spare after a link began: it earns what it costs.
pub(crate) fn credited_link(link: &[u8], spare: usize) -> usize
    ensures { result ≡ credited (link_cost link.now) spare }
{
    match left_of(MAX_SPARE, link) {
        Some(left) => credited(MAX_SPARE - left, spare),
        None => MAX_SPARE,
    }
}

/// What is left of it after a link was paid; none where it can't be.
fn left_of(spare: usize, link: &[u8]) -> Option<usize>
    ensures { result ≡ (if is_paid spare link.now then Some (left_of spare link.now) else None) }
{
    let mut left = spare;
    for byte in link {
        let cost = escaped_length(*byte);
        if left < cost {
            return None;
        }
        left -= cost;
    }
    Some(left)
}

/// The bytes that a byte has in the HTML.
fn escaped_length(byte: u8) -> usize
    ensures { result ≡ length (escaped byte) }
{
    match byte {
        b'&' | b'\'' | b'\r' => 5,
        b'<' | b'>' => 4,
        b'"' => 6,
        _ => 1,
    }
}

/// Text of the link of a number follows. Unless it is that of the last text, it is paid with what is spare; where it
/// can't be, the text has none. `last` becomes the link that the text has.
pub fn begin_link(links: &LinkTable, number: u32, last: &mut Link, spare: &mut usize)
    ensures { purse_of last.new spare.new
        ≡ purse_with (purse_of last.old spare.old) (link_at number links.now.places) }
{
    let link = links.link(number);
    if last.uri() != link.uri() {
        match left_of(*spare, link.uri()) {
            Some(left) => {
                *spare = left;
                last.assign(link);
            }
            None => last.assign(links.none()),
        }
    }
}

/// A line feed follows, which is in no link, and earns.
pub fn end_line(links: &LinkTable, last: &mut Link, spare: &mut usize)
    ensures { purse_of last.new spare.new ≡ line_ended false (purse_of last.old spare.old) }
{
    last.assign(links.none());
    *spare = credited(FEED_EARNS, *spare);
}
