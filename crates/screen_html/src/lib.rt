//! What a terminal showed as HTML: the lines of all that left its screen and of what still shows, in their colours.
//!
//! ```
//! let mut log = FromRead::new(log);
//! let writer = FromWrite::new(Vec::new(alloc));
//! let screen = Scrollable::new(alloc, 80, 24)?;
//! let links = LinkMemory::new(alloc)?;
//! let styling = Styling::Inline(Scheme::Both);
//! let (page, ran) = convert_shown(
//!     screen, links, styling, b"<pre>", &mut log, writer, b"</pre>",
//! );
//! // of 1 0 % CR ESC [ 1 m d o n e LF: <pre><span style="font-weight:bold;">done</span>, a line feed, </pre>
//! ```
#![tactic(auto)]

ghost use Rattle.std.specs.Prelude.{◌≡◌, ◌≢◌, ◌≤◌, ◌+◌, ◌*◌, ◌++◌, [], ℕ, false, List, OnOk, IsTrue, length, map};
ghost use Rattle.std.specs.List.{AllByRecursion};
ghost use Rattle.std.specs.Str.{IsUtf8};
ghost use Rattle.anstyle_parse.specs.Stream.Arguments.{parts_of};
ghost use Rattle.anstyle_parse.specs.Stream.Call.{Call};
ghost use Rattle.anstyle_parse.specs.Stream.Calls.{AreCalls};
ghost use Rattle.anstyle_parse.specs.Io.Run.{RunsToEnding};
ghost use Rattle.ansi_style.specs.declared.style.Style.{Style};
ghost use Rattle.ansi_html.specs.declared.scheme.Scheme.{Scheme};
ghost use Rattle.ansi_html.specs.Css.{selects_both, colors_css};
ghost use Rattle.ansi_html.specs.Links.{IsLink, is_link_command, link_of, SaysLink};
ghost use Rattle.ansi_html.specs.Styled.{all_shown};
ghost use Rattle.ansi_html.specs.Reader.{byte_of, href_of, read, drawn};
ghost use Rattle.ansi_html.specs.Grammar.{AreReadable, IsFragment};
ghost use Rattle.ansi_screen.specs.After.{new_state};
ghost use Rattle.screen_text.specs.Shown.{shown_text};
ghost use Rattle.screen_html.specs.Shown.{shown_styled, left_html, ending_html, shown_html, begun_cost};

mod alike;
mod blocks;
pub mod laws;
mod page;
mod rows;
mod runs;
mod spare;
mod table;

use ansi_html::Styling;
use ansi_screen::Scrollable;
use anstyle_parse::io::{Fault, Output, Sink, Source, write_calls_by};
pub use blocks::BlockRows;
pub use page::PageRows;
pub use rows::HtmlRows;
use screen_text::ShownWriter;
pub use spare::{begin_link, end_line};
pub use table::{LinkMemory, LinkTable};

/// Writes what a screen showed of all bytes that the reader gives as HTML: the lines of
/// [`screen_text::write_shown`], each character in the style of its cell, said as `styling` has it. `head` is
/// written before it and `tail` after it, as they are.
///
/// Text that is not plain stands in a `span`, and text of a link (OSC 8) in an `a`, one for each run of equal style and
/// link in a line; a space that was passed over has the background of its cell. `& < > " '` are written as character
/// references. Nothing else is written, so no input brings in markup. The fragment wants of its page what that of
/// [`ansi_html::convert`] wants. A cell has the link that was in force as it was printed, where it is one that is
/// shown there: until OSC 8 ends it or begins another, or RIS. Of a stream the last 1,024 links that began are kept:
/// a row that leaves later, or still shows, has the others no more. A link is begun anew in each line, and is left out
/// where it has more bytes than are spare: those of the link that each OSC 8 began, once, and 100 for each line feed,
/// up to 1,000,000. The cursor is not shown.
///
/// The stream may begin on any screen ([`Scrollable::of`](ansi_screen::Scrollable::of)). The bytes are read in pieces of
/// at most 4096 and go to a new parser; no memory is taken. The writer is
/// always handed back. The answer is that of [`write_calls_by`], and where a write of the head failed,
/// `Err(Fault::Write)`: then nothing is read.
pub fn convert_shown<R: Source, W: Sink>(
    screen: Scrollable,
    memory: LinkMemory,
    styling: Styling,
    head: &[u8],
    reader: &mut R,
    writer: W,
    tail: &[u8],
) -> (W, Result<(), Fault>)
    // What is written is the head, the HTML of what the screen showed, and the tail.
    ensures runs { RunsToEnding R.Source W.Sink
        (λ calls. head.now ++ left_html styling screen calls)
        (λ calls. ending_html styling screen calls ++ tail.now)
        reader.old reader.new writer result }

    // With Ok nothing of it is held back.
    ensures handed_on { OnOk result.1 (W.holds_nothing result.0) }

    // Reading the HTML gives each cell's characters with the declarations of its style or its classes, and its link,
    ensures read_back { (calls : List Call)
        → read (shown_html styling screen calls) ≡ all_shown styling (shown_styled screen calls) }

    // so that its bytes are exactly those of the text that the screen showed.
    ensures text { (calls : List Call)
        → map byte_of (read (shown_html styling screen calls)) ≡ shown_text screen calls }

    // Its lines are those of that text.
    ensures lines { (columns rows : ℕ) (bytes : List ℕ) (calls : List Call) → AreCalls bytes calls
        → drawn (shown_html styling (new_state columns rows) calls) ≡ shown_text (new_state columns rows) calls }

    // Text is read: the colours of a style that has not selected both have WCAG's 4.5:1.
    ensures contrast { (scheme : Scheme) (style : Style) → selects_both style ≡ false
        → AreReadable scheme (colors_css scheme style) }

    // A link's URI begins with https://, http:// or mailto:, and is visible ASCII.
    ensures links { (calls : List Call) → AllByRecursion IsLink (map href_of (read (shown_html styling screen calls))) }

    // It is the whole URI that a command says, all after its second `;`, and none that was cut.
    ensures whole_links { (text : List ℕ) → IsTrue (is_link_command (parts_of text)) → link_of (parts_of text) ≢ []
        → SaysLink text (link_of (parts_of text)) }

    // No markup comes in: it is text, spans of it, and links of both, with declarations or classes from a
    // fixed vocabulary.
    ensures grammar { (columns rows : ℕ) (bytes : List ℕ) (calls : List Call) → AreCalls bytes calls
        → IsFragment styling (shown_html styling (new_state columns rows) calls) }

    // It is UTF-8, whatever was read.
    ensures utf8 { (columns rows : ℕ) (bytes : List ℕ) (calls : List Call) → AreCalls bytes calls
        → IsUtf8 (shown_html styling (new_state columns rows) calls) }

    // It has at most 452 bytes for each byte of the text, those of the links that begin, each once, and 111 more.
    ensures bound { (calls : List Call) → length (shown_html styling screen calls)
        ≤ 452 * length (shown_text screen calls) + (begun_cost calls + 111) }

    // It has at most 6527 bytes for each byte of the text, and 11 more: each can stand in a link of its own.
    ensures text_bound { (calls : List Call)
        → length (shown_html styling screen calls) ≤ 6527 * length (shown_text screen calls) + 11 }
{
    let mut output = Output::new(writer);
    output.put(head);
    let rows = HtmlRows::new(styling, memory, output);
    write_calls_by(ShownWriter::new(screen, rows), reader, tail)
}
