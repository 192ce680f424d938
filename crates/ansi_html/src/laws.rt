//! Laws of how colours are written. Each is the contract of a function that does nothing.
ghost use Rattle.std.specs.Prelude.{◌≡◌, ◌↔◌, ◌≤◌, ◌+◌, ◌*◌, length, ℕ, Bool, true, false, List, IsTrue, map};
ghost use Rattle.std.specs.Str.{IsUtf8};
ghost use Rattle.anstyle_parse.specs.Stream.Call.{Call};
ghost use Rattle.anstyle_parse.specs.Stream.Calls.{AreCalls};
ghost use Rattle.anstyle_parse.specs.Machine.AsRead.{as_read_whole};
ghost use Rattle.ansi_strip.specs.Strip.{stripped};
ghost use Rattle.ansi_html.specs.Html.{no_element, html, html_of_a_byte, html_of_an_end};
ghost use Rattle.ansi_html.specs.Lines.{lined_html, lined_html_of_a_byte};
ghost use Rattle.ansi_html.specs.Blocks.{blocked_html, calls_seen, AreBlocksOf, AreBlocks, block_of_a_byte, block_tags};
ghost use Rattle.ansi_html.specs.Reader.{byte_of, seen, read, shown_from};

use crate::scheme::{Scheme, Styling};
use anstyle_parse::laws::log_bounds;

/// `==` of schemes and of stylings is equality.
pub fn equality()
    ensures schemes { (a b : Scheme) → (IsTrue (⟦<Scheme as PartialEq>⟧.eq a b) ↔ (a ≡ b)) }
    ensures stylings { (a b : Styling) → (IsTrue (⟦<Styling as PartialEq>⟧.eq a b) ↔ (a ≡ b)) }
{}

/// A clone of a scheme or a styling is the same.
pub fn clones()
    ensures schemes { (scheme clone : Scheme) → ⟦<Scheme as Clone>⟧.is_clone scheme clone → clone ≡ scheme }
    ensures stylings { (styling clone : Styling) → ⟦<Styling as Clone>⟧.is_clone styling clone → clone ≡ styling }
{}

/// Of HTML in blocks, with numbers of lines or without, a reader sees what it sees of the HTML that
/// [`convert`](crate::convert) writes: text, line breaks, styles and links. So it reads the bytes of the stripped text,
/// each with its style and its link. With numbers a link goes on over a line feed where it can pay for it, as in the
/// HTML that [`convert_lines`](crate::convert_lines) writes.
pub fn blocks()
    ensures same { (numbered : Bool) (styling : Styling) (calls : List Call)
        → seen (blocked_html numbered styling calls) ≡ seen (html styling (calls_seen numbered calls)) }
    ensures read_back { (numbered : Bool) (styling : Styling) (calls : List Call)
        → read (blocked_html numbered styling calls) ≡ shown_from styling no_element (calls_seen numbered calls) }
    ensures text { (numbered : Bool) (styling : Styling) (calls : List Call)
        → map byte_of (read (blocked_html numbered styling calls)) ≡ stripped calls }

    // Of numbered lines its blocks are the HTML that `convert_lines` writes, in parts: each line is one element, with
    // its number, and nothing else is written but the tags of blocks.
    ensures lines { (styling : Styling) (calls : List Call)
        → AreBlocksOf (lined_html styling calls) (blocked_html true styling calls) }

    // A block ends where a line ends: in each stand 500 whole lines, with their line feeds, and in the last one what is
    // left, which is some and at most as many. No markup comes in: of text each block is a fragment, as what `convert`
    // writes is one, and of numbered lines each line in it is an element with its number, as `convert_lines` writes
    // them.
    ensures grammar { (numbered : Bool) (styling : Styling) (bytes : List ℕ) (calls : List Call)
        → AreCalls bytes calls → AreBlocks numbered styling 0 (blocked_html numbered styling calls) }

    // It is UTF-8, whatever was read.
    ensures utf8 { (numbered : Bool) (styling : Styling) (bytes : List ℕ) (calls : List Call) → AreCalls bytes calls
        → IsUtf8 (blocked_html numbered styling calls) }

    // Of text it has at most 88 bytes for each byte that was read, or 49 by classes, and 41 more;
    ensures bound { (styling : Styling) (bytes : List ℕ) (calls : List Call) → AreCalls bytes calls
        → length (blocked_html false styling calls) ≤ (html_of_a_byte styling + block_of_a_byte) * length bytes + 41 }

    // and of numbered lines 607, or 451, and 25 more.
    ensures lines_bound { (styling : Styling) (bytes : List ℕ) (calls : List Call) → AreCalls bytes calls
        → length (blocked_html true styling calls) ≤ (lined_html_of_a_byte styling + block_tags) * length bytes + 25 }
{}

/// What `ansi2html` and the library write of a log is the HTML of what is read of it, to its end
/// ([`Parser::advance_log`](anstyle_parse::Parser::advance_log), `end_log`). It has at most 74 bytes for each byte of
/// the log, or 35 by classes, and 11 more.
pub fn log_length()
    ensures { (styling : Styling) (log : List ℕ) (calls : List Call) → AreCalls (as_read_whole log) calls
        → length (html styling calls) ≤ html_of_a_byte styling * length log + html_of_an_end }
{
    log_bounds();
}
