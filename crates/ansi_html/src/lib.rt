//! From a terminal's colours to HTML: the text of a stream, escaped, in spans and links that give
//! each part its style and its URI. No input brings in markup.
//!
//! ```
//! let mut reader = FromRead::new(log);
//! let writer = FromWrite::new(Vec::new(alloc));
//! let styling = Styling::Inline(Scheme::Both);
//! let (writer, answer) = convert(styling, b"<pre>", &mut reader, writer, b"</pre>");
//! // of ESC [ 1 m < h i: <pre><span style="font-weight:bold;">&lt;hi</span></pre>
//! ```
#![tactic(auto)]

ghost use Rattle.std.specs.Prelude.{◌≡◌, ◌≢◌, ◌≤◌, ◌+◌, ◌*◌, ◌++◌, [], ℕ, Bool, false, List, OnOk, IsTrue, length, map};
ghost use Rattle.std.specs.List.{AllByRecursion, Contains};
ghost use Rattle.std.specs.Str.{IsUtf8};
ghost use Rattle.anstyle_parse.specs.Stream.Arguments.{parts_of};
ghost use Rattle.anstyle_parse.specs.Stream.Call.{Call};
ghost use Rattle.anstyle_parse.specs.Stream.Calls.{AreCalls};
ghost use Rattle.anstyle_parse.specs.Io.Output.{Adds};
ghost use Rattle.anstyle_parse.specs.Io.Run.{RunsToEnding};
ghost use Rattle.ansi_strip.specs.Strip.{stripped};
ghost use Rattle.ansi_style.specs.declared.style.Style.{Style};
ghost use Rattle.ansi_html.specs.declared.scheme.Scheme.{Scheme};
ghost use Rattle.ansi_html.specs.Css.{selects_both, colors_css};
ghost use Rattle.ansi_html.specs.Links.{IsLink, is_link_command, link_of, SaysLink};
ghost use Rattle.ansi_html.specs.Html.{no_element, html_text, html_ending, html, html_of_a_byte, html_of_an_end, escaped_text, value_of};
ghost use Rattle.ansi_html.specs.Reader.{no_attributes, byte_of, href_of, under, seen, read, normalized, drawn, ends_in_return, shown_from};
ghost use Rattle.ansi_html.specs.Lines.{lined_text, lined_ending, lined_html, AreLines, lined_html_of_a_byte};
ghost use Rattle.ansi_html.specs.Affordable.{affordable, HasShortLinks};
ghost use Rattle.ansi_html.specs.Grammar.{AreReadable, IsFragment};
ghost use Rattle.ansi_html.specs.declared.class.Class.{Class};
ghost use Rattle.ansi_html.specs.Classes.{class_name, classes_of};
ghost use Rattle.ansi_html.specs.Stylesheet.{vocabulary, stylesheet, applied, snapped};

mod block;
mod blocks;
mod chunks;
mod class;
pub mod contrast;
mod css;
mod declarations;
mod digits;
mod inside;
pub mod laws;
mod line;
mod lines;
mod link;
mod nearest;
mod palette;
mod performer;
mod scheme;
mod spare;
mod standing;
mod styled;
mod stylesheet;
mod tag;
mod uri;
mod verbatim;

use anstyle_parse::io::{Fault, Output, Sink, Source, write_calls_by};
pub use block::{LINES_A_BLOCK, put_block_begin, put_block_end};
pub use blocks::BlocksWriter;
pub use declarations::{has_ground, put_declarations, put_ground};
pub use lines::LinesWriter;
pub use link::{Link, is_link_command};
pub use performer::{HtmlWriter, put_character, put_escaped};
pub use scheme::{Scheme, Styling};
pub use standing::{Element, Standing};
pub use styled::StyledWriter;
use stylesheet::put_all;
pub use verbatim::verbatim_length;

/// Writes the text of all bytes that the reader gives as HTML, in the styles that the stream
/// selects, said as `styling` has it: a fragment for a `<pre>`. `head` is written before it and `tail`
/// after it, as they are, such as the two ends of a page.
///
/// The text is the stripped text: each printed character in UTF-8, tab, line feed and carriage
/// return. `& < > " '` and a carriage return are written as character references, and text that is
/// not plain stands in `<span style="…">…</span>`, one for each run of equal style and link. Where it has a link
/// (OSC 8) that stands in `<a rel="nofollow noreferrer" href="…" style="…">…</a>`, one for each run of equal link. By
/// classes the attribute is `class`. A link is shown where its URI begins with `https://`, `http://` or `mailto:`,
/// has the bytes 21 to 7E only, and was not cut. Since a carriage return that comes by a reference ends
/// no line, `<br>` stands before the text after it, unless that is a line feed. Nothing else is written,
/// so no input brings in markup.
///
/// The page has to be UTF-8, and to have a newline of its own right after `<pre>`, since a browser
/// drops the one that stands there. For [`Scheme::Both`] it has a `color-scheme`, or it is light. For
/// [`Styling::Classes`] it has the stylesheet.
///
/// The bytes are read in pieces of at most 4096; no memory is taken. The writer is always
/// handed back. The answer is
///
/// - `Ok(())` where a read gave 0, and the flush that followed went well;
/// - `Err(Fault::Flush)` where that flush failed;
/// - `Err(Fault::Read)` where a read failed, or 2^64 - 1 reads all gave bytes: the HTML of the
///   bytes read by then is written, its last element is closed and the tail is written, as far as
///   the writer takes these, and the writer is flushed once, whatever that answers;
/// - `Err(Fault::Write)` where a write failed: what is written is a proper prefix of head,
///   HTML and tail, and nothing was read or written after the fault.
pub fn convert<R: Source, W: Sink>(
    styling: Styling,
    head: &[u8],
    reader: &mut R,
    writer: W,
    tail: &[u8],
) -> (W, Result<(), Fault>)
    // What is written is the head, the HTML of the calls of what was read, and the tail.
    ensures runs { RunsToEnding R.Source W.Sink
        (λ calls. head.now ++ html_text styling calls) (λ calls. html_ending calls ++ tail.now)
        reader.old reader.new writer result }

    // With Ok nothing of it is held back.
    ensures handed_on { OnOk result.1 (W.holds_nothing result.0) }

    // The headline: reading the HTML gives exactly the bytes of the stripped text, each with the
    // declarations of the style or its classes, and the URI of the link that the stream has selected there.
    ensures read_back { (calls : List Call) → read (html styling calls) ≡ shown_from styling no_element calls }
    ensures text { (calls : List Call) → map byte_of (read (html styling calls)) ≡ stripped calls }

    // Its lines are those of the text: 0D with or without 0A after it ends one, as 0A does. (A 0D at
    // the very end does not.)
    ensures lines { (bytes : List ℕ) (calls : List Call) → AreCalls bytes calls
        → ends_in_return (stripped calls) ≡ false
        → drawn (html styling calls) ≡ normalized (stripped calls) }

    // Text is read: the colours of a style have WCAG's 4.5:1 with the page, or with the ground
    // that the stream has selected alone. Where it has selected both colours, it may differ.
    ensures contrast { (scheme : Scheme) (style : Style) → selects_both style ≡ false
        → AreReadable scheme (colors_css scheme style) }

    // A link's URI begins with https://, http:// or mailto:, and is visible ASCII.
    ensures links { (calls : List Call) → AllByRecursion IsLink (map href_of (read (html styling calls))) }

    // It is the whole URI that a command says, all after its second `;`, and none that was cut.
    ensures whole_links { (text : List ℕ) → IsTrue (is_link_command (parts_of text)) → link_of (parts_of text) ≢ []
        → SaysLink text (link_of (parts_of text)) }

    // No markup comes in: it is text with line breaks, spans of it, and links of both, with such
    // colours and URIs, and with declarations or classes from a fixed vocabulary.
    ensures grammar { (bytes : List ℕ) (calls : List Call) → AreCalls bytes calls
        → IsFragment styling (html styling calls) }

    // It is UTF-8, whatever was read.
    ensures utf8 { (bytes : List ℕ) (calls : List Call) → AreCalls bytes calls
        → IsUtf8 (html styling calls) }

    // It has at most 74 bytes for each byte that was read, or 35 by classes, and 11 more.
    ensures bound { (bytes : List ℕ) (calls : List Call) → AreCalls bytes calls
        → length (html styling calls) ≤ html_of_a_byte styling * length bytes + html_of_an_end }
{
    let mut output = Output::new(writer);
    output.put(head);
    write_calls_by(HtmlWriter::new(styling, output), reader, tail)
}

/// Writes the same in lines that can be linked to: each line of the text, with the line feed at its end, is one
/// element, `<span id="L…">…</span>`, and what a style or a link goes on over stands in each of its lines anew. First
/// in it stands `<a href="#L…" data-line="…"></a>`, a link of no text to the line itself: a stylesheet may draw the
/// number there, which is then no part of the text and is not copied with it. Lines are numbered from 1; after 2^64 - 1
/// of them the number stays. A link pays for standing in the next line: each byte of text earns 25 bytes of HTML for
/// it, and each line feed 100; where these are fewer than the link has, it ends with its line. What is read, written
/// and answered otherwise is as for [`convert`].
pub fn convert_lines<R: Source, W: Sink>(
    styling: Styling,
    head: &[u8],
    reader: &mut R,
    writer: W,
    tail: &[u8],
) -> (W, Result<(), Fault>)
    // What is written is the head, the HTML in lines of the calls of what was read, and the tail.
    ensures runs { RunsToEnding R.Source W.Sink
        (λ calls. head.now ++ lined_text styling calls) (λ calls. lined_ending calls ++ tail.now)
        reader.old reader.new writer result }

    // With Ok nothing of it is held back.
    ensures handed_on { OnOk result.1 (W.holds_nothing result.0) }

    // A reader sees what it sees of the HTML that `convert` writes: text, line breaks, styles and links. A link that
    // can't pay to go on over a line feed ends there,
    ensures same { (calls : List Call) → seen (lined_html styling calls) ≡ seen (html styling (affordable calls)) }

    // and one of up to a hundred bytes in the HTML always can.
    ensures short_links { (calls : List Call) → HasShortLinks calls → affordable calls ≡ calls }

    // So a reader reads the bytes of the stripped text, each with its style and its link.
    ensures read_back { (calls : List Call)
        → read (lined_html styling calls) ≡ shown_from styling no_element (affordable calls) }
    ensures text { (calls : List Call) → map byte_of (read (lined_html styling calls)) ≡ stripped calls }

    // Each line is one element, with its number, in which nothing stands but what may stand in the HTML that
    // `convert` writes.
    ensures numbered { (bytes : List ℕ) (calls : List Call) → AreCalls bytes calls
        → AreLines styling 0 (lined_html styling calls) }

    // It is UTF-8, whatever was read.
    ensures utf8 { (bytes : List ℕ) (calls : List Call) → AreCalls bytes calls
        → IsUtf8 (lined_html styling calls) }

    // It has at most 577 bytes for each byte that was read, or 421 by classes, and 18 more.
    ensures bound { (bytes : List ℕ) (calls : List Call) → AreCalls bytes calls
        → length (lined_html styling calls) ≤ lined_html_of_a_byte styling * length bytes + 18 }
{
    let mut output = Output::new(writer);
    output.put(head);
    write_calls_by(LinesWriter::new(styling, output), reader, tail)
}

/// Writes the stylesheet for HTML by [`Styling::Classes`], for the pages of `scheme`: for each class that a style can
/// have a rule. Together they declare what [`Styling::Inline`] does of the style, its colours snapped to the 256 and,
/// where both are selected, not dim.
pub fn put_stylesheet<W: Sink>(output: &mut Output<W>, scheme: Scheme)
    ensures added { Adds W.Sink (stylesheet scheme) output.old output.new }

    // Each class of a style has its rule, and no two classes have one name.
    ensures rules { (linked : Bool) (style : Style) → AllByRecursion (Contains vocabulary) (classes_of linked style) }
    ensures names { (one other : Class) → Contains vocabulary one → Contains vocabulary other
        → class_name one ≡ class_name other → one ≡ other }

    // The rules that count for the names of a style's classes declare, in their order, what its attribute
    // `style` would: of the style with its colours snapped to the 256, and not dim where it has selected both.
    ensures cascade { (linked : Bool) (style : Style) →
        applied scheme (map class_name (classes_of linked style))
        ≡ value_of (Styling.Inline scheme) linked (snapped style) }
{
    put_all(output, scheme);
}

/// Writes a text as HTML, such as a title for the head of a page: `& < > " '` and carriage returns as
/// character references, and each other byte as it is.
pub fn put_text<W: Sink>(output: &mut Output<W>, text: &str)
    ensures added { Adds W.Sink (escaped_text text.now) output.old output.new }

    // No markup comes in: reading the HTML gives exactly the bytes of the text, in no element.
    ensures read_back { read (escaped_text text.now) ≡ map (under no_attributes) text.now }
{
    put_escaped(output, text.as_bytes());
}
