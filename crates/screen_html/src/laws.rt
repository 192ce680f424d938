//! Laws of links, of pages and of plain text. Each is the contract of a function that does nothing.
ghost use Rattle.std.specs.Prelude.{◌≡◌, ◌<◌, ◌≤◌, ◌+◌, ◌*◌, ℕ, false, List, [], ◌∷◌, ◌++◌, length, map};
ghost use Rattle.std.specs.List.{AllByRecursion};
ghost use Rattle.std.specs.Str.{IsUtf8};
ghost use Rattle.anstyle_parse.specs.Stream.Call.{Call};
ghost use Rattle.anstyle_parse.specs.Stream.Calls.{AreCalls};
ghost use Rattle.ansi_html.specs.declared.scheme.Styling.{Styling};
ghost use Rattle.ansi_html.specs.Blocks.{AreBlocksOf, AreBlocksOfFragments};
ghost use Rattle.ansi_html.specs.Grammar.{IsFragment};
ghost use Rattle.ansi_html.specs.Html.{html};
ghost use Rattle.ansi_html.specs.Links.{IsLink, link_of};
ghost use Rattle.ansi_html.specs.Reader.{byte_of, href_of, seen, read, drawn};
ghost use Rattle.ansi_html.specs.Styled.{all_shown};
ghost use Rattle.ansi_screen.specs.After.{State, new_state, after_all};
ghost use Rattle.ansi_screen.specs.Leaving.{all_left};
ghost use Rattle.ansi_screen.specs.Text.{goes_on};
ghost use Rattle.ansi_screen.specs.declared.cell.Cell.{Cell};
ghost use Rattle.screen_text.specs.Laws.{ArePlain, LastIsNotEmpty, lines_bytes};
ghost use Rattle.screen_text.specs.Shown.{given_all, shown_text};
ghost use Rattle.screen_html.specs.Links.{Kept, Table, most_kept, no_links, numbered, AreLinkCommands, feed_earns, link_at};
ghost use Rattle.screen_html.specs.Paid.{links_cost};
ghost use Rattle.screen_html.specs.Shown.{Linking, no_linking, cells_styled, row_styled, row_linking, command_linking, begun_cost, line_end, shown_styled, shown_html};
ghost use Rattle.screen_html.specs.Blocks.{shown_blocked};
ghost use Rattle.screen_html.specs.Page.{lines_styled, lines_html, lines_text, page_html, page_text, all_links};

/// Which link a number has: that of the command which got it since the last reset, where fewer than 1,024 links began
/// after it (`kept`), and else none (`lost`), whatever the table had before that reset.
pub fn last_links()
    ensures kept { (before : List Kept) (earlier later : List (List (List ℕ))) (parts : List (List ℕ))
        → length before ≡ most_kept → AreLinkCommands (earlier ++ parts ∷ later) → length later < most_kept
        → link_at (length earlier + 1) (numbered 1 (earlier ++ parts ∷ later) before) ≡ link_of parts }
    ensures lost { (before : List Kept) (earlier later : List (List (List ℕ))) (parts : List (List ℕ))
        → length before ≡ most_kept → AreLinkCommands (earlier ++ parts ∷ later) → most_kept ≤ length later
        → link_at (length earlier + 1) (numbered 1 (earlier ++ parts ∷ later) before) ≡ [] }
{}

/// The HTML of any rows ([`PageRows`](crate::PageRows)), as of those that a screen shows or of those that left it:
/// reading it gives each cell's characters with the declarations of its style or its classes, and its link
/// (`read_back`), and so their text (`text`). With the links of a stream, each begins with https://, http:// or mailto:
/// (`links`), and it has at most 452 bytes for each byte of the text, those of the links that the stream begins, each
/// once, and 111 more (`bound`); and at most 6527 for each byte of the text, and 11 more (`text_bound`). Of what shows
/// from a new screen on, its lines are those of the text, no markup comes in (`grammar`), and it is UTF-8. Where no row
/// has left and the main screen shows, it is all that `convert_shown` writes (`whole`).
pub fn page()
    ensures read_back { (styling : Styling) (links : Table) (rows : List (List Cell))
        → read (lines_html styling links rows) ≡ all_shown styling (lines_styled links rows) }
    ensures text { (styling : Styling) (links : Table) (rows : List (List Cell))
        → map byte_of (read (lines_html styling links rows)) ≡ lines_text rows }
    ensures links { (styling : Styling) (s : State) (calls : List Call) (rows : List (List Cell))
        → AllByRecursion IsLink (map href_of (read (lines_html styling (all_links calls s no_links) rows))) }
    ensures bound { (styling : Styling) (s : State) (calls : List Call) (rows : List (List Cell))
        → length (lines_html styling (all_links calls s no_links) rows)
        ≤ 452 * length (lines_text rows) + (begun_cost calls + 111) }
    ensures text_bound { (styling : Styling) (s : State) (calls : List Call) (rows : List (List Cell))
        → length (lines_html styling (all_links calls s no_links) rows) ≤ 6527 * length (lines_text rows) + 11 }
    ensures lines { (styling : Styling) (columns rows : ℕ) (bytes : List ℕ) (calls : List Call) → AreCalls bytes calls
        → drawn (page_html styling (all_links calls (new_state columns rows) no_links)
        (after_all calls (new_state columns rows)).display)
        ≡ page_text (after_all calls (new_state columns rows)).display }
    ensures grammar { (styling : Styling) (columns rows : ℕ) (bytes : List ℕ) (calls : List Call) → AreCalls bytes calls
        → IsFragment styling (page_html styling (all_links calls (new_state columns rows) no_links)
        (after_all calls (new_state columns rows)).display) }
    ensures utf8 { (styling : Styling) (columns rows : ℕ) (bytes : List ℕ) (calls : List Call) → AreCalls bytes calls
        → IsUtf8 (page_html styling (all_links calls (new_state columns rows) no_links)
        (after_all calls (new_state columns rows)).display) }
    ensures whole { (styling : Styling) (s : State) (calls : List Call) → all_left (given_all calls) s ≡ []
        → (after_all (given_all calls) s).display.is_alternate ≡ false → shown_html styling s calls
        ≡ page_html styling (all_links (given_all calls) s no_links) (after_all (given_all calls) s).display }
{}

/// Which links are left out: none of a row where they cost no more than is spare (`kept`). 100 bytes are spare at the
/// start (`start`), and after a row that ends a line (`fed`), whatever commands come then (`told`): so a row after a
/// line's end keeps its links where these have 100 bytes in all.
pub fn paid_links()
    ensures kept { (at : Linking) (row : List Cell) → links_cost at.last (cells_styled at.places row) ≤ at.spare
        → row_styled at row ≡ cells_styled at.places row ++ line_end row }
    ensures start { feed_earns ≤ no_linking.spare }
    ensures fed { (at : Linking) (row : List Cell) → goes_on row ≡ false → feed_earns ≤ (row_linking at row).spare }
    ensures told { (at : Linking) (number : ℕ) (parts : List (List ℕ)) → feed_earns ≤ at.spare
        → feed_earns ≤ (command_linking at number parts).spare }
{}

/// Plain text needs no screen: of lines of characters of one column or two, each with a line feed, of which the last is
/// not empty, however long and however many, the HTML on a screen of any size is that of `ansi_html::convert`, byte for
/// byte.
pub fn plain_text()
    ensures { (styling : Styling) (columns rows : ℕ) (lines : List (List ℕ)) (calls : List Call) → 2 ≤ columns
        → 1 ≤ rows → ArePlain lines → LastIsNotEmpty lines → AreCalls (lines_bytes lines) calls
        → shown_html styling (new_state columns rows) calls ≡ html styling calls }
{}

/// Of what a screen showed as HTML in blocks of lines ([`BlockRows`](crate::BlockRows)) nothing but their tags tells it
/// from the HTML that [`convert_shown`](crate::convert_shown) writes (`parts`). So a reader sees the same of it
/// (`same`): each cell's characters with the declarations of its style or its classes, and its link (`read_back`), and
/// the text that the screen showed (`text`).
pub fn blocks()
    ensures parts { (styling : Styling) (screen : State) (calls : List Call)
        → AreBlocksOf (shown_html styling screen calls) (shown_blocked styling screen calls) }
    ensures same { (styling : Styling) (screen : State) (calls : List Call)
        → seen (shown_blocked styling screen calls) ≡ seen (shown_html styling screen calls) }
    ensures read_back { (styling : Styling) (screen : State) (calls : List Call)
        → read (shown_blocked styling screen calls) ≡ all_shown styling (shown_styled screen calls) }
    ensures text { (styling : Styling) (screen : State) (calls : List Call)
        → map byte_of (read (shown_blocked styling screen calls)) ≡ shown_text screen calls }

    // No markup comes in: each block is a fragment, as what `convert_shown` writes is one.
    ensures grammar { (styling : Styling) (columns rows : ℕ) (bytes : List ℕ) (calls : List Call) → AreCalls bytes calls
        → AreBlocksOfFragments styling (shown_blocked styling (new_state columns rows) calls) }

    // It is UTF-8, whatever was read.
    ensures utf8 { (styling : Styling) (columns rows : ℕ) (bytes : List ℕ) (calls : List Call) → AreCalls bytes calls
        → IsUtf8 (shown_blocked styling (new_state columns rows) calls) }
{}
