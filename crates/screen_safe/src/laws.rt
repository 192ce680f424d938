//! Laws of what a screen showed as safe text. Each is the contract of a function that does nothing.
ghost use Rattle.std.specs.Prelude.{◌≡◌, ◌++◌, ℕ, List, IsTrue};
ghost use Rattle.std.specs.List.{AllByRecursion};
ghost use Rattle.std.specs.Str.{chars, encode_utf8_all};
ghost use Rattle.anstyle_parse.specs.Stream.Call.{Call};
ghost use Rattle.anstyle_parse.specs.Stream.Calls.{AreCalls};
ghost use Rattle.ansi_screen.specs.After.{State, new_state};
ghost use Rattle.safe_text.specs.Classes.{is_of_safe_text};
ghost use Rattle.safe_text.specs.Marks.{without_marks};
ghost use Rattle.safe_text.specs.Reading.{read_back, with_line_feeds};
ghost use Rattle.screen_text.specs.Shown.{shown_text};
ghost use Rattle.screen_safe.specs.Shown.{shown_characters, shown_marked, safe_left, safe_ending, safe_shown};

/// What is written as rows leave, and then at the end, is the safe text of all characters that the screen showed; and
/// these are the characters of [`screen_text::write_shown`]'s text.
pub fn whole()
    ensures joined { (screen : State) (calls : List Call)
        → safe_left screen calls ++ safe_ending screen calls ≡ safe_shown screen calls }
    ensures text { (screen : State) (calls : List Call)
        → encode_utf8_all (shown_characters screen calls) ≡ shown_text screen calls }
{}

/// Each character of it is of the class of safe text: it shows or is blank, or it is one of the five joiners.
pub fn of_the_class()
    ensures { (columns rows : ℕ) (bytes : List ℕ) (calls : List Call) → AreCalls bytes calls
        → AllByRecursion (λ c. IsTrue (is_of_safe_text c)) (chars (safe_shown (new_state columns rows) calls)) }
{}

/// Nothing is lost unseen: read back, it gives exactly the characters that the screen showed, with marks where hidden
/// text begins and ends.
pub fn read_back()
    ensures names { (columns rows : ℕ) (bytes : List ℕ) (calls : List Call) → AreCalls bytes calls
        → read_back (chars (safe_shown (new_state columns rows) calls))
        ≡ with_line_feeds (shown_marked (new_state columns rows) calls) }
    ensures characters { (columns rows : ℕ) (bytes : List ℕ) (calls : List Call) → AreCalls bytes calls
        → without_marks (shown_marked (new_state columns rows) calls)
        ≡ shown_characters (new_state columns rows) calls }
{}
