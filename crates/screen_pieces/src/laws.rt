//! Laws of the rows that leave a screen, of lines, of pictures, of copies, of what changes, and of what is told.
ghost use Rattle.std.specs.Prelude.{◌≡◌, ◌≤◌, ◌+◌, ◌*◌, ℕ, Bool, List, length, map};
ghost use Rattle.std.specs.Str.{IsUtf8};
ghost use Rattle.anstyle_parse.specs.Stream.Call.{Call};
ghost use Rattle.ansi_answers.specs.declared.color.Theme.{Theme};
ghost use Rattle.ansi_html.specs.Grammar.{IsFragment};
ghost use Rattle.ansi_html.specs.Links.{IsLink};
ghost use Rattle.ansi_html.specs.Reader.{href_of, read, drawn};
ghost use Rattle.ansi_screen.specs.After.{State, new_state};
ghost use Rattle.ansi_screen.specs.Damage.{KeepsColumns};
ghost use Rattle.ansi_screen.specs.Display.{most_columns, most_rows, row_cells};
ghost use Rattle.ansi_screen.specs.Leaving.{all_left};
ghost use Rattle.screen_answers.specs.Kept.{all_kept};
ghost use Rattle.screen_pieces.specs.declared.terminal.Terminal.{Terminal};
ghost use Rattle.std.specs.List.{AllByRecursion};
ghost use Rattle.screen_pieces.specs.History.{HasCells};
ghost use Rattle.screen_pieces.specs.Page.{styling_numbered};
ghost use Rattle.screen_pieces.specs.declared.picture.PictureBytes.{PictureBytes as APicture};
ghost use Rattle.screen_pieces.specs.Picture.{scheme_numbered, font_told, rows_drawn, picture_of, svg_of};
ghost use Rattle.screen_svg.specs.Characters.{text_of, IsXmlText};
ghost use Rattle.screen_svg.specs.Grammar.{IsPicture};
ghost use Rattle.screen_svg.specs.Picture.{rows_in};
ghost use Rattle.screen_svg.specs.Xml.{read as read_xml};
ghost use Rattle.screen_pieces.specs.Rows.{lines_of, html_of_lines};
ghost use Rattle.screen_pieces.specs.Terminal.{display_of, StandsAfter, IsCopy, Tells, TakesAnswers, HasTheme, Feeds, CanHaveChanged};

/// Rows are whole: each that leaves a screen, whatever calls a new one has received, has a cell in each column; and so has
/// each that is kept.
pub fn rows_are_whole()
    ensures left { (columns rows : ℕ) (calls : List Call)
        → 2 ≤ columns → columns ≤ most_columns → 1 ≤ rows → rows ≤ most_rows
        → AllByRecursion (HasCells columns) (all_left calls (new_state columns rows)) }
    ensures kept { (columns rows : ℕ) (keeps_erased : Bool) (calls : List Call)
        → 2 ≤ columns → columns ≤ most_columns → 1 ≤ rows → rows ≤ most_rows
        → AllByRecursion (HasCells columns) (all_kept keeps_erased calls (new_state columns rows)) }
{}

/// The HTML of lines, of the rows of any number and in any styling, after any bytes from a new screen on: its lines are
/// those of the text (`same`), no markup comes in (`grammar`), its links begin with https://, http:// or mailto:, and it
/// is UTF-8.
pub fn lines_are_fragments()
    ensures same { (columns rows which styling : ℕ) (bytes : List ℕ) (terminal : Terminal)
        → StandsAfter (new_state columns rows) bytes terminal
        → drawn (html_of_lines which styling terminal) ≡ lines_of which terminal }
    ensures grammar { (columns rows which styling : ℕ) (bytes : List ℕ) (terminal : Terminal)
        → StandsAfter (new_state columns rows) bytes terminal
        → IsFragment (styling_numbered styling) (html_of_lines which styling terminal) }
    ensures links { (columns rows which styling : ℕ) (bytes : List ℕ) (terminal : Terminal)
        → StandsAfter (new_state columns rows) bytes terminal
        → AllByRecursion IsLink (map href_of (read (html_of_lines which styling terminal))) }
    ensures utf8 { (columns rows which styling : ℕ) (bytes : List ℕ) (terminal : Terminal)
        → StandsAfter (new_state columns rows) bytes terminal → IsUtf8 (html_of_lines which styling terminal) }
{}

/// The picture of a screen, drawn in any way, after any bytes from a new one on: a reader of XML reads exactly the tags and
/// the text that were meant, so that no markup comes in, of the stream, of the title or of the fonts (`read_back`). They
/// stand in the grammar of pictures, without script, whose links begin with https://, http:// or mailto: (`grammar`), and
/// have characters that XML may have, in UTF-8 (`characters`). There are at most 7,700 bytes for each cell, 12 for each of
/// the title as it is written, 6 for each of the fonts, and 1,960 more (`bound`).
pub fn pictures_are_read()
    ensures read_back { (columns rows : ℕ) (bytes title font : List ℕ) (how : APicture) (terminal : Terminal)
        → StandsAfter (new_state columns rows) bytes terminal
        → read_xml (svg_of how title font terminal) ≡ picture_of how title font terminal }
    ensures grammar { (columns rows : ℕ) (bytes title font : List ℕ) (how : APicture) (terminal : Terminal)
        → StandsAfter (new_state columns rows) bytes terminal
        → IsPicture (scheme_numbered how.scheme) (read_xml (svg_of how title font terminal)) }
    ensures characters { (columns rows : ℕ) (bytes title font : List ℕ) (how : APicture) (terminal : Terminal)
        → StandsAfter (new_state columns rows) bytes terminal → IsXmlText (svg_of how title font terminal) }
    ensures bound { (columns rows : ℕ) (bytes title font : List ℕ) (how : APicture) (terminal : Terminal)
        → StandsAfter (new_state columns rows) bytes terminal → length (svg_of how title font terminal)
        ≤ 7700 * (rows_in (rows_drawn how terminal) * (display_of terminal).width)
        + (12 * length (text_of title) + (6 * length (text_of (font_told font)) + 1960)) }
{}

/// What has changed is told: where a screen has forgotten what can have changed, and has then been fed a piece, each
/// cell of a row outside of the columns that it tells is the one that it had when it forgot.
pub fn changes_are_told()
    ensures { (columns rows : ℕ) (bytes piece : List ℕ) (old forgotten new : Terminal) (row left right : ℕ)
        → StandsAfter (new_state columns rows) bytes old → IsCopy old forgotten → Feeds piece forgotten new
        → CanHaveChanged row left right new
        → KeepsColumns left right (row_cells row (display_of old)) (row_cells row (display_of new)) }
{}

/// A copy stands where the screen stands that it copies: after any bytes after which that one stands.
pub fn copies_stand()
    ensures { (first : State) (bytes : List ℕ) (terminal copy : Terminal) → IsCopy terminal copy
        → StandsAfter first bytes terminal → StandsAfter first bytes copy }
{}

/// Who is told of what was asked for, who takes answers, and who tells the terminal's own colours leaves the screen where
/// it stands.
pub fn telling_stays()
    ensures told { (first : State) (bytes : List ℕ) (old new : Terminal) → Tells old new
        → StandsAfter first bytes old → StandsAfter first bytes new }
    ensures answers { (first : State) (bytes : List ℕ) (old new : Terminal) → TakesAnswers old new
        → StandsAfter first bytes old → StandsAfter first bytes new }
    ensures theme { (first : State) (bytes : List ℕ) (theme : Theme) (old new : Terminal) → HasTheme theme old new
        → StandsAfter first bytes old → StandsAfter first bytes new }
{}
