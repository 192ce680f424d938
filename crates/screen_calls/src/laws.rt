//! Laws of what a screen showed as calls. Each is the contract of a function that does nothing.
ghost use Rattle.std.specs.Prelude.{◌≡◌, ◌≤◌, ◌+◌, ◌*◌, ℕ, Bool, true, false, List, length, map};
ghost use Rattle.std.specs.List.{AllByRecursion, flat_map};
ghost use Rattle.std.specs.Str.{IsUtf8};
ghost use Rattle.anstyle_parse.specs.Stream.Call.{Call};
ghost use Rattle.anstyle_parse.specs.Stream.Calls.{AreCalls};
ghost use Rattle.anstyle_parse.specs.Laws.Lawful.{AreMade};
ghost use Rattle.ansi_html.specs.declared.scheme.Styling.{Styling};
ghost use Rattle.ansi_html.specs.Blocks.{blocked_html, AreBlocks, block_of_a_byte, block_tags};
ghost use Rattle.ansi_html.specs.Grammar.{IsFragment};
ghost use Rattle.ansi_html.specs.Html.{html, html_of_a_byte, html_of_an_end};
ghost use Rattle.ansi_html.specs.Lines.{lined_html, AreLines, lined_html_of_a_byte};
ghost use Rattle.ansi_html.specs.Links.{IsLink};
ghost use Rattle.ansi_html.specs.Reader.{byte_of, href_of, read};
ghost use Rattle.ansi_strip.specs.Strip.{stripped};
ghost use Rattle.ansi_style.specs.Style.{plain};
ghost use Rattle.ansi_screen.specs.declared.size.Size.{Size};
ghost use Rattle.ansi_screen.specs.After.{State, new_state};
ghost use Rattle.ansi_screen.specs.Size.{IsTaken};
ghost use Rattle.screen_text.specs.Shown.{shown_text};
ghost use Rattle.screen_calls.specs.Calls.{shown_calls};
ghost use Rattle.screen_calls.specs.Laws.{printed, shown_in_row, shown_rows, AreColored, converted, shown_by, most_shown};

/// What is left of the calls by stripping is the text that the screen showed, as `screen_text` writes it: so each
/// converter that keeps the text of a stream keeps that.
pub fn same_text()
    ensures { (screen : State) (calls : List Call) → stripped (shown_calls screen calls) ≡ shown_text screen calls }
{}

/// The calls print each character of the rows that were shown, in order, in the style of its cell, where the colours of
/// the cells are such as SGR can select, as they are on each screen that a stream leads to
/// (`ansi_screen::laws::contents`).
pub fn same_styles()
    ensures { (screen : State) (calls : List Call) → AllByRecursion AreColored (shown_rows screen calls)
        → printed plain (shown_calls screen calls) ≡ flat_map shown_in_row (shown_rows screen calls) }
{}

/// The calls are those of a stream: some bytes make them. So all that is said of the calls of a stream holds of what is
/// converted of them, as by `ansi_html`, `html_urls` and `safe_text`; and they stay such calls where hidden text is left
/// out, and where addresses become links.
pub fn stream()
    ensures shown { (size : Size) (bytes : List ℕ) (calls : List Call) → IsTaken size → AreCalls bytes calls
        → AreMade (shown_calls (new_state size.columns size.rows) calls) }
    ensures converted { (no_hidden has_urls : Bool) (calls : List Call) → AreMade calls
        → AreMade (converted no_hidden has_urls calls) }
{}

/// So in the HTML that is made of what a screen showed no markup comes in: it stands in the grammar of that which
/// `ansi_html::convert` writes, and in lines and in blocks in that of these. It is UTF-8.
pub fn html_of_shown()
    ensures grammar { (size : Size) (no_hidden has_urls : Bool) (styling : Styling) (bytes : List ℕ)
        (calls : List Call) → IsTaken size → AreCalls bytes calls
        → IsFragment styling (html styling (shown_by size no_hidden has_urls calls)) }
    ensures numbered { (size : Size) (no_hidden has_urls : Bool) (styling : Styling) (bytes : List ℕ)
        (calls : List Call) → IsTaken size → AreCalls bytes calls
        → AreLines styling 0 (lined_html styling (shown_by size no_hidden has_urls calls)) }
    ensures blocks { (size : Size) (no_hidden has_urls has_numbers : Bool) (styling : Styling) (bytes : List ℕ)
        (calls : List Call) → IsTaken size → AreCalls bytes calls
        → AreBlocks has_numbers styling 0
        (blocked_html has_numbers styling (shown_by size no_hidden has_urls calls)) }
    ensures utf8 { (size : Size) (no_hidden has_urls : Bool) (styling : Styling) (bytes : List ℕ)
        (calls : List Call) → IsTaken size → AreCalls bytes calls
        → IsUtf8 (html styling (shown_by size no_hidden has_urls calls)) }
    ensures lines_utf8 { (size : Size) (no_hidden has_urls : Bool) (styling : Styling) (bytes : List ℕ)
        (calls : List Call) → IsTaken size → AreCalls bytes calls
        → IsUtf8 (lined_html styling (shown_by size no_hidden has_urls calls)) }
    ensures blocks_utf8 { (size : Size) (no_hidden has_urls has_numbers : Bool) (styling : Styling) (bytes : List ℕ)
        (calls : List Call) → IsTaken size → AreCalls bytes calls
        → IsUtf8 (blocked_html has_numbers styling (shown_by size no_hidden has_urls calls)) }
{}

/// A reader sees links to `https://`, `http://` and `mailto:` alone in it, and reads the text that the screen showed, with
/// links for addresses or without.
pub fn read_of_shown()
    ensures links { (size : Size) (no_hidden has_urls : Bool) (styling : Styling) (calls : List Call)
        → AllByRecursion IsLink (map href_of (read (html styling (shown_by size no_hidden has_urls calls)))) }
    ensures lines_links { (size : Size) (no_hidden has_urls : Bool) (styling : Styling) (calls : List Call)
        → AllByRecursion IsLink
        (map href_of (read (lined_html styling (shown_by size no_hidden has_urls calls)))) }
    ensures blocks_links { (size : Size) (no_hidden has_urls has_numbers : Bool) (styling : Styling)
        (calls : List Call) → AllByRecursion IsLink
        (map href_of (read (blocked_html has_numbers styling (shown_by size no_hidden has_urls calls)))) }
    ensures text { (size : Size) (has_urls : Bool) (styling : Styling) (calls : List Call)
        → map byte_of (read (html styling (shown_by size false has_urls calls)))
        ≡ shown_text (new_state size.columns size.rows) calls }
    ensures lines_text { (size : Size) (has_urls : Bool) (styling : Styling) (calls : List Call)
        → map byte_of (read (lined_html styling (shown_by size false has_urls calls)))
        ≡ shown_text (new_state size.columns size.rows) calls }
    ensures blocks_text { (size : Size) (has_urls has_numbers : Bool) (styling : Styling) (calls : List Call)
        → map byte_of (read (blocked_html has_numbers styling (shown_by size false has_urls calls)))
        ≡ shown_text (new_state size.columns size.rows) calls }
{}

/// The HTML of what a screen showed has a bound beside the text that it showed and the links that the stream begins, each
/// once, with hidden text or without.
pub fn length_of_shown()
    ensures bound { (size : Size) (no_hidden : Bool) (styling : Styling) (calls : List Call)
        → length (html styling (shown_by size no_hidden false calls))
        ≤ html_of_a_byte styling * most_shown size calls + html_of_an_end }
    ensures lines_bound { (size : Size) (no_hidden : Bool) (styling : Styling) (calls : List Call)
        → length (lined_html styling (shown_by size no_hidden false calls))
        ≤ lined_html_of_a_byte styling * most_shown size calls + 18 }
    ensures blocks_bound { (size : Size) (no_hidden : Bool) (styling : Styling) (calls : List Call)
        → length (blocked_html false styling (shown_by size no_hidden false calls))
        ≤ (html_of_a_byte styling + block_of_a_byte) * most_shown size calls + 41 }
    ensures numbered_bound { (size : Size) (no_hidden : Bool) (styling : Styling) (calls : List Call)
        → length (blocked_html true styling (shown_by size no_hidden false calls))
        ≤ (lined_html_of_a_byte styling + block_tags) * most_shown size calls + 25 }
{}
