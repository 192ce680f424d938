//! Laws of states and of the HTML of pieces. Each is the contract of a function that does nothing.
ghost use Rattle.std.specs.Prelude.{◌≡◌, ◌≤◌, ◌+◌, ◌*◌, ◌++◌, [], ℕ, List, length};
ghost use Rattle.anstyle_parse.specs.Stream.Call.{Call};
ghost use Rattle.anstyle_parse.specs.Stream.Calls.{AreCalls};
ghost use Rattle.anstyle_parse.specs.Machine.AsRead.{as_read_whole};
ghost use Rattle.ansi_html.specs.declared.scheme.Scheme.TheVariants.{Both};
ghost use Rattle.ansi_html.specs.declared.scheme.Styling.{Styling};
ghost use Rattle.ansi_html.specs.declared.scheme.Styling.TheVariants.{Inline};
ghost use Rattle.ansi_html.specs.Html.{html, html_of_a_byte, html_of_an_end};
ghost use Rattle.html_pieces.specs.State.{IsZero, styling_in, StandsFor};
ghost use Rattle.html_pieces.specs.Feed.{IsHtmlOf, IsEndOf};

use crate::state::HtmlState;
use ansi_html::laws::log_length;

/// A state of zero bytes begins a stream, for light and dark pages.
pub fn states()
    ensures begins { (state : HtmlState) → IsZero state → StandsFor state [] }
    ensures styling { (state : HtmlState) → IsZero state → styling_in state ≡ Inline Both }
{}

/// The HTML of pieces, one after another, and then what ends it, is the HTML of what is read of the whole
/// stream, as of a log, however it is cut. It has at most 74 bytes for each byte of the stream, or 35 by classes, and
/// 11 more.
pub fn html_joined()
    ensures pieces { (styling : Styling) (before bytes more html rest : List ℕ) → IsHtmlOf styling before bytes html
        → IsHtmlOf styling (before ++ bytes) more rest
        → IsHtmlOf styling before (bytes ++ more) (html ++ rest) }
    ensures whole { (styling : Styling) (bytes text end : List ℕ) → IsHtmlOf styling [] bytes text
        → IsEndOf styling bytes end
        → (calls : List Call) × AreCalls (as_read_whole bytes) calls × (text ++ end ≡ html styling calls) }
    ensures length { (styling : Styling) (bytes text end : List ℕ) → IsHtmlOf styling [] bytes text
        → IsEndOf styling bytes end
        → length (text ++ end) ≤ html_of_a_byte styling * length bytes + html_of_an_end }
{
    log_length();
}

/// A clone of a state is the same.
pub fn clones()
    ensures { (state clone : HtmlState) → ⟦<HtmlState as Clone>⟧.is_clone state clone → clone ≡ state }
{}
