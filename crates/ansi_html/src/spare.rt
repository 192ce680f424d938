//! What is spare for links that go on over line feeds.
ghost use Rattle.std.specs.Prelude.{◌≡◌, length, if◌then◌else◌, Some, None};
ghost use Rattle.ansi_html.specs.Html.{escaped};
ghost use Rattle.ansi_html.specs.Affordable.{earned, is_paid, left_of};

/// What a byte of text earns, in bytes of HTML.
const BYTE_EARNS: usize = 25;

/// A line feed earns as much as so many bytes.
pub(crate) const FEED_COUNTS: usize = 4;

/// The most that is kept of what was earned.
const MAX_SPARE: usize = 1_000_000;

/// What is spare after so many bytes of text.
#[inline(always)]
pub(crate) fn earned(count: usize, spare: usize) -> usize
    ensures { result ≡ earned count spare }
{
    if count < MAX_SPARE / BYTE_EARNS && spare < MAX_SPARE - BYTE_EARNS * count {
        spare + BYTE_EARNS * count
    } else {
        MAX_SPARE
    }
}

/// What is left of it after a link has paid to go on; none where it can't.
pub(crate) fn left_of(spare: usize, link: &[u8]) -> Option<usize>
    ensures { result ≡ (if is_paid spare link.now then Some (left_of spare link.now) else None) }
{
    let mut left = spare;
    for byte in link {
        let cost = escaped_length(*byte);
        if left < cost {
            return None;
        }
        left -= cost;
    }
    Some(left)
}

/// The bytes that a byte has in the HTML.
fn escaped_length(byte: u8) -> usize
    ensures { result ≡ length (escaped byte) }
{
    match byte {
        b'&' | b'\'' | b'\r' => 5,
        b'<' | b'>' => 4,
        b'"' => 6,
        _ => 1,
    }
}
