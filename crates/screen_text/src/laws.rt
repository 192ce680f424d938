//! Laws of what a screen showed. Each is the contract of a function that does nothing.
ghost use Rattle.std.specs.Prelude.{◌≡◌, ◌≢◌, ◌<◌, ◌≤◌, ◌+◌, ◌-◌, ◌*◌, ℕ, List, [], ◌∷◌, ◌++◌, length, encode_utf8};
ghost use Rattle.std.specs.List.{AllByRecursion, flat_map};
ghost use Rattle.anstyle_parse.specs.Stream.Call.{Call};
ghost use Rattle.anstyle_parse.specs.Stream.Calls.{AreCalls};
ghost use Rattle.anstyle_parse.specs.Stream.Items.{EachIs};
ghost use Rattle.ansi_strip.specs.Strip.{IsClean, stripped};
ghost use Rattle.ansi_screen.specs.Display.{Display};
ghost use Rattle.ansi_screen.specs.After.{State, new_state, after_all, Shows};
ghost use Rattle.ansi_screen.specs.Reachable.{IsScreen};
ghost use Rattle.ansi_screen.specs.Laws.{carriage_return, line_feed, erase_rest, printing, text_columns, lines_text, FitsIn};
ghost use Rattle.ansi_screen.specs.Text.{text_of};
ghost use Rattle.ansi_screen.specs.declared.size.Size.{Size};
ghost use Rattle.ansi_screen.specs.Size.{IsTaken};
ghost use Rattle.screen_text.specs.declared.recording.ShownSize.TheVariants.{Recorded};
ghost use Rattle.screen_text.specs.Recording.{most_front, of_a_log, size_for, without_line, SaysSize, is_of_line, IsAtLineEnd};
ghost use Rattle.screen_text.specs.Shown.{given_all, shown_text};
ghost use Rattle.screen_text.specs.Laws.{most_cell_bytes, erase_line, IsEnded, IsPlain, ArePlain, LastIsNotEmpty, HasEmptyEnd, HasNoBlankEnd, lines_bytes, recorded_bytes, empty_lines};

/// What a new screen showed of any bytes is clean text: UTF-8 with no C0 control but line feeds, and so
/// without escapes; `ansi_strip` leaves it as it is (`ansi_strip::laws::clean_text`).
pub fn clean()
    ensures { (columns rows : ℕ) (bytes : List ℕ) (calls : List Call) → AreCalls bytes calls
        → IsClean (shown_text (new_state columns rows) calls) }
{}

/// What a screen showed of any calls is empty or ends with a line feed.
pub fn lines()
    ensures { (screen : State) (calls : List Call) → IsEnded (shown_text screen calls) }
{}

/// Plain text comes through: lines of characters of one column or two, each with a line feed, however long
/// and however many, are what a new screen of any size showed of their bytes in UTF-8, byte for byte; this is what
/// `ansi_strip` leaves of them too. A recording of them, with CR LF, shows the same (`recorded`). Of empty
/// lines at the end those that still show are left out, at most one less than the screen has rows (`empty`); a
/// last line without its line feed gets one (`unended`).
pub fn plain_text()
    ensures same { (columns rows : ℕ) (lines : List (List ℕ)) (calls : List Call) → 2 ≤ columns → 1 ≤ rows
        → ArePlain lines → LastIsNotEmpty lines → AreCalls (lines_bytes lines) calls
        → shown_text (new_state columns rows) calls ≡ lines_bytes lines }
    ensures stripped { (columns rows : ℕ) (lines : List (List ℕ)) (calls : List Call) → 2 ≤ columns → 1 ≤ rows
        → ArePlain lines → LastIsNotEmpty lines → AreCalls (lines_bytes lines) calls
        → shown_text (new_state columns rows) calls ≡ stripped calls }
    ensures recorded { (columns rows : ℕ) (lines : List (List ℕ)) (calls : List Call) → 2 ≤ columns → 1 ≤ rows
        → ArePlain lines → LastIsNotEmpty lines → AreCalls (recorded_bytes lines) calls
        → shown_text (new_state columns rows) calls ≡ lines_bytes lines }
    ensures empty { (columns rows : ℕ) (lines : List (List ℕ)) (n : ℕ) (calls : List Call) → 2 ≤ columns → 1 ≤ rows
        → ArePlain lines → LastIsNotEmpty lines → AreCalls (lines_bytes (lines ++ empty_lines n)) calls
        → shown_text (new_state columns rows) calls ≡ lines_bytes (lines ++ empty_lines (n - (rows - 1))) }
    ensures unended { (columns rows : ℕ) (lines : List (List ℕ)) (line : List ℕ) (calls : List Call)
        → 2 ≤ columns → 1 ≤ rows → ArePlain lines → AllByRecursion IsPlain line → line ≢ []
        → AreCalls (lines_bytes lines ++ flat_map encode_utf8 line) calls
        → shown_text (new_state columns rows) calls ≡ lines_bytes (lines ++ line ∷ []) }
{}

/// Plain text that has room comes through a screen, as `ansi2screen` writes it: lines with CR LF between them, of
/// characters of one column each, that end with no space, of which the last is not empty, no longer than the rows of a
/// new screen and no more than these, are its text, each with a line feed (`ansi_screen::laws::plain_text`).
pub fn plain_screen()
    ensures { (columns rows : ℕ) (lines : List (List ℕ)) (new : State) → length lines ≤ rows
        → AllByRecursion (FitsIn columns) lines → AllByRecursion HasNoBlankEnd lines → LastIsNotEmpty lines
        → Shows (new_state columns rows) (lines_text lines) new → text_of new.display ≡ lines_bytes lines }
{}

/// A text that was shown is shown as it is: on a screen of any size, what is shown of the text that a screen showed of
/// any bytes is that text, byte for byte, unless its last line is empty (`plain_text` says what is left of such lines).
pub fn shown_twice()
    ensures { (columns rows width height : ℕ) (bytes text : List ℕ) (calls again : List Call)
        → IsScreen (new_state columns rows).display → 2 ≤ width → 1 ≤ height
        → AreCalls bytes calls → text ≡ shown_text (new_state columns rows) calls → (HasEmptyEnd text → ⊥)
        → AreCalls text again → shown_text (new_state width height) again ≡ text }
{}

/// A carriage return before a line feed changes nothing: a stream that was recorded on a terminal shows what the
/// same does without them.
pub fn returned()
    ensures { (screen : State) (earlier later : List Call)
        → shown_text screen (earlier ++ carriage_return ∷ line_feed ∷ later)
        ≡ shown_text screen (earlier ++ line_feed ∷ later) }
{}

/// A row that is written anew, as by a progress bar: what was printed before, from the cursor on and with
/// room in the row, is never written, whatever came earlier and comes later. After it comes a carriage return,
/// a text that has room too, and EL (`text`, where it may be empty), or EL of the whole line and a
/// carriage return (`line`). Each screen that a stream leads to is one (`ansi_screen::laws::reachable`).
pub fn rewritten()
    ensures text { (screen : State) (earlier later : List Call) (before text : List ℕ) (there : Display)
        → there ≡ (after_all (given_all earlier) screen).display → IsScreen there
        → there.cursor.column + text_columns before ≤ there.width → text_columns text ≤ there.width
        → shown_text screen (earlier ++ (printing before ++ carriage_return ∷ (printing text ++ erase_rest ∷ later)))
        ≡ shown_text screen (earlier ++ carriage_return ∷ (printing text ++ erase_rest ∷ later)) }
    ensures line { (screen : State) (earlier later : List Call) (before : List ℕ) (there : Display)
        → there ≡ (after_all (given_all earlier) screen).display → IsScreen there
        → there.cursor.column + text_columns before ≤ there.width
        → shown_text screen (earlier ++ (printing before ++ erase_line ∷ carriage_return ∷ later))
        ≡ shown_text screen (earlier ++ erase_line ∷ carriage_return ∷ later) }
{}

/// Bound: a byte writes at most a screen of rows, and the end of the stream another; a row has at most 12 bytes for
/// each column, and a line feed. One byte writes so much where all rows are full of characters with two marks, of
/// four bytes each: the final byte of SU, ED and RIS, and on a screen of one row a line feed too. Where the alternate
/// screen shows, the end writes two, and the call that brought it forward none.
pub fn bound()
    ensures { (columns rows : ℕ) (bytes : List ℕ) (calls : List Call) → AreCalls bytes calls
        → length (shown_text (new_state columns rows) calls)
        ≤ (length bytes + 1) * rows * (most_cell_bytes * columns + 1) }
{}

/// The size of a recording is the one that its first line says, as script(1) writes it: ` COLUMNS="120" LINES="40"]` at
/// its end, where a screen can have that size and the line has at most 4,096 bytes. Where it says none, it is that of a
/// log.
pub fn recorded_size()
    ensures said { (line rest : List ℕ) (size : Size) → EachIs is_of_line line → IsAtLineEnd rest
        → length line ≤ most_front → SaysSize line size → IsTaken size → size_for Recorded (line ++ rest) ≡ size }
    ensures unsaid { (line rest : List ℕ) → EachIs is_of_line line → IsAtLineEnd rest → length line ≤ most_front
        → ((size : Size) → SaysSize line size → IsTaken size → ⊥) → size_for Recorded (line ++ rest) ≡ of_a_log }
{}

/// What the terminal of a recording was given is the recording without that line, which script(1) writes itself; of any
/// other stream it is all.
pub fn without_line()
    ensures left_out { (line rest : List ℕ) (size : Size) → EachIs is_of_line line → length line < most_front
        → SaysSize line size → IsTaken size → without_line (line ++ 0x0A ∷ rest) ≡ rest }
    ensures kept { (line rest : List ℕ) → EachIs is_of_line line → IsAtLineEnd rest → length line ≤ most_front
        → ((size : Size) → SaysSize line size → IsTaken size → ⊥) → without_line (line ++ rest) ≡ line ++ rest }
{}
