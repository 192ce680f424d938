//! Laws of pictures. Each is the contract of a function that does nothing.
ghost use Rattle.std.specs.Prelude.{◌≡◌, ◌≤◌, ◌+◌, ◌*◌, ℕ, List, length};
ghost use Rattle.std.specs.List.{flat_map, AllByRecursion};
ghost use Rattle.anstyle_parse.specs.Stream.Call.{Call};
ghost use Rattle.ansi_screen.specs.After.{State, after_all};
ghost use Rattle.ansi_screen.specs.declared.cell.Cell.{Cell};
ghost use Rattle.screen_html.specs.Links.{no_links};
ghost use Rattle.screen_html.specs.Page.{all_links};
ghost use Rattle.screen_svg.specs.declared.drawing.Drawing.{Drawing as ADrawing};
ghost use Rattle.screen_svg.specs.declared.drawing.Extent.{Extent as AnExtent};
ghost use Rattle.screen_svg.specs.Characters.{text_of, IsXmlText};
ghost use Rattle.screen_svg.specs.Xml.{read};
ghost use Rattle.screen_svg.specs.Runs.{run_cells, runs_of};
ghost use Rattle.screen_svg.specs.Picture.{rows_in, picture, svg};
ghost use Rattle.screen_svg.specs.Reading.{texts, picture_texts, StandFrom, IsRun};
ghost use Rattle.screen_svg.specs.Grammar.{IsPicture};

/// What is read of the picture of a screen, of whichever of its rows, with the links of the stream that led there: a reader
/// of XML reads exactly the tags and the text that were meant (`read_back`), so that no markup comes in; these stand in the
/// grammar of a fixed vocabulary, and each link begins with https://, http:// or mailto: (`grammar`). The texts by their
/// places are those of the runs of its rows, each with the declarations of its style and with its link (`texts`). All of it
/// has characters that XML may have, in UTF-8 (`characters`). It has at most 7,700 bytes for each cell, 12 for each of its
/// title as it is written, 6 for each of its fonts, and 1,960 more (`bound`).
pub fn pictures()
    ensures read_back { (drawing : ADrawing) (title font : List ℕ) (extent : AnExtent) (s : State) (calls : List Call)
        → read (svg drawing title font (all_links calls s no_links) extent (after_all calls s))
        ≡ picture drawing title font (all_links calls s no_links) extent (after_all calls s) }
    ensures grammar { (drawing : ADrawing) (title font : List ℕ) (extent : AnExtent) (s : State) (calls : List Call)
        → IsPicture drawing.scheme
        (read (svg drawing title font (all_links calls s no_links) extent (after_all calls s))) }
    ensures texts { (drawing : ADrawing) (title font : List ℕ) (extent : AnExtent) (s : State) (calls : List Call)
        → texts (read (svg drawing title font (all_links calls s no_links) extent (after_all calls s)))
        ≡ picture_texts drawing title (all_links calls s no_links) extent (after_all calls s) }
    ensures bound { (drawing : ADrawing) (title font : List ℕ) (extent : AnExtent) (s : State) (calls : List Call)
        → length (svg drawing title font (all_links calls s no_links) extent (after_all calls s))
        ≤ 7700 * (rows_in extent * (after_all calls s).display.width)
        + (12 * length (text_of title) + (6 * length (text_of font) + 1960)) }
    ensures characters { (drawing : ADrawing) (title font : List ℕ) (extent : AnExtent) (s : State) (calls : List Call)
        → IsXmlText (svg drawing title font (all_links calls s no_links) extent (after_all calls s)) }
{}

/// How a row is divided into runs: its cells are those of the runs, one after another (`cells`); each run begins at the
/// column where it stands (`columns`); and the cells of a run of several have one style and one link, and one column and
/// one byte of text or one shape each (`alike`), so that the first character of its text stands in its first column, and so
/// on.
pub fn runs()
    ensures cells { (row : List Cell) → flat_map run_cells (runs_of row) ≡ row }
    ensures columns { (row : List Cell) → StandFrom 0 (runs_of row) }
    ensures alike { (row : List Cell) → AllByRecursion IsRun (runs_of row) }
{}
