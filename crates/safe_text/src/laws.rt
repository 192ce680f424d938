//! Laws of safe text. Each is the contract of a function that does nothing.
ghost use Rattle.std.specs.Prelude.{◌≡◌, ◌≤◌, ◌+◌, ◌*◌, ◌++◌, ℕ, List, length, IsTrue, IsUtf8};
ghost use Rattle.std.specs.List.{AllByRecursion};
ghost use Rattle.std.specs.Str.{chars};
ghost use Rattle.anstyle_parse.specs.Stream.Call.{Call};
ghost use Rattle.anstyle_parse.specs.Stream.Calls.{AreCalls};
ghost use Rattle.ansi_strip.specs.Strip.{IsClean};
ghost use Rattle.safe_text.specs.Classes.{is_of_safe_text};
ghost use Rattle.safe_text.specs.Safe.{characters, safe, IsSafe};
ghost use Rattle.safe_text.specs.Reading.{read_back, with_line_feeds, told, told_with_line_feeds};
ghost use Rattle.safe_text.specs.Decided.{decided, undecided};
ghost use Rattle.safe_text.specs.Marks.{marked, safe_marked, decided_marked, undecided_marked, without_marks, told_by, NeverHides};
ghost use Rattle.ansi_style.specs.Style.{plain};

use ansi_strip::laws::{clean_text, stripped_twice};
use anstyle_parse::laws::{bounds, calls_are_lawful, calls_of_bytes};

/// What is decided of calls, and then what waits at their end, is their safe text: also with marks.
pub fn whole()
    ensures plain { (calls : List Call) → decided calls ++ undecided calls ≡ safe calls }
    ensures marked { (calls : List Call) → decided_marked calls ++ undecided_marked calls ≡ safe_marked calls }
{}

/// Each character of safe text is of the class: it shows or is blank, or it is one of the five joiners. A control, a
/// character that turns the order of text, a tag or another that shows nothing is none of it, whatever the bytes are.
pub fn of_the_class()
    ensures plain { (bytes : List ℕ) (calls : List Call) → AreCalls bytes calls
        → AllByRecursion (λ c. IsTrue (is_of_safe_text c)) (chars (safe calls)) }
    ensures marked { (bytes : List ℕ) (calls : List Call) → AreCalls bytes calls
        → AllByRecursion (λ c. IsTrue (is_of_safe_text c)) (chars (safe_marked calls)) }
{
    calls_are_lawful();
}

/// Safe text is UTF-8, whatever the bytes are.
pub fn safe_utf8()
    ensures plain { (bytes : List ℕ) (calls : List Call) → AreCalls bytes calls → IsUtf8 (safe calls) }
    ensures marked { (bytes : List ℕ) (calls : List Call) → AreCalls bytes calls → IsUtf8 (safe_marked calls) }
{
    calls_are_lawful();
}

/// Nothing is lost unseen: read back, safe text gives exactly the characters that were there, with each end of a line
/// as a line feed.
///
/// So two streams have one safe text only if they have the same characters and lines.
pub fn read_back()
    ensures names { (bytes : List ℕ) (calls : List Call) → AreCalls bytes calls
        → read_back (chars (safe calls)) ≡ with_line_feeds (characters calls) }
    ensures only { (bytes others : List ℕ) (calls more : List Call) → AreCalls bytes calls → AreCalls others more
        → safe calls ≡ safe more
        → with_line_feeds (characters calls) ≡ with_line_feeds (characters more) }

    // Where hidden text is marked, its marks too: so nothing of a stream looks as one.
    ensures marks { (bytes : List ℕ) (calls : List Call) → AreCalls bytes calls
        → read_back (chars (safe_marked calls)) ≡ with_line_feeds (marked calls) }
    ensures only_marks { (bytes others : List ℕ) (calls more : List Call) → AreCalls bytes calls → AreCalls others more
        → safe_marked calls ≡ safe_marked more → with_line_feeds (marked calls) ≡ with_line_feeds (marked more) }
{
    calls_are_lawful();
}

/// Hidden text stands between its marks, and nothing else does. Without the marks, what is marked are the characters of
/// the calls; and where no call hides text, there are no marks.
pub fn marks()
    // Read back, each character stands between the marks if it is printed where the style that is selected is not seen,
    // and only then: so a text that is not marked, all that is, and a mark that comes late are not safe text.
    ensures hidden { (bytes : List ℕ) (calls : List Call) → AreCalls bytes calls
        → told (read_back (chars (safe_marked calls))) ≡ told_with_line_feeds (told_by plain calls) }
    ensures characters { (bytes : List ℕ) (calls : List Call) → AreCalls bytes calls
        → without_marks (marked calls) ≡ characters calls }
    ensures none { (calls : List Call) → NeverHides calls → marked calls ≡ characters calls }
{
    calls_are_lawful();
}

/// Text in which nothing is forbidden is left as it is, byte for byte.
pub fn safe_stays()
    ensures plain { (text : List ℕ) (calls : List Call) → IsClean text → IsSafe text → AreCalls text calls
        → safe calls ≡ text }
    ensures marked { (text : List ℕ) (calls : List Call) → IsClean text → IsSafe text → AreCalls text calls
        → safe_marked calls ≡ text }
{
    calls_are_lawful();
    calls_of_bytes();
    clean_text();
    stripped_twice();
}

/// Safe text is at most ten times as long as the bytes: at worst each is a character of one byte that is written
/// visibly, or ends one of more. With marks it is at most twice that, and ten bytes more.
pub fn safe_length()
    ensures plain { (bytes : List ℕ) (calls : List Call) → AreCalls bytes calls
        → length (safe calls) ≤ 10 * length bytes }
    ensures marked { (bytes : List ℕ) (calls : List Call) → AreCalls bytes calls
        → length (safe_marked calls) ≤ 20 * length bytes + 10 }
{
    bounds();
}
