//! Comparing screens: what bytes can tell of them.
ghost use Rattle.std.specs.Prelude.{◌≡◌, ◌≤◌, true, length, take};
ghost use Rattle.std.specs.Bool.{beq};
ghost use Rattle.ansi_screen.specs.Print.{draws};
ghost use Rattle.screen_draw.specs.Alike.{are_same_marks, are_same_parts, are_alike, all_two, are_same_sets, are_same_places, has_same_frame, has_same_margins, has_same_modes, looks_same, is_plain, lacks_print, is_steady};
ghost use Rattle.screen_draw.specs.Buffers.{cells_of};
ghost use Rattle.screen_draw.specs.Changed.{AreCompared};

use crate::buffer::Buffer;
use crate::cells::is_erased;
use crate::changed::Compared;
use ansi_screen::{Cell, Charsets, Marks, Part, Place, Screen};

/// Whether the marks are the same.
fn are_same_marks(a: &Marks, b: &Marks) -> bool
    ensures { result ≡ are_same_marks a.now b.now }
{
    match (*a, *b) {
        (Marks::Unmarked, Marks::Unmarked) => true,
        (Marks::One(first), Marks::One(other)) => first == other,
        (Marks::Two(first, second), Marks::Two(other, last)) => first == other && second == last,
        _ => false,
    }
}

/// Whether the parts are the same.
#[inline(always)]
fn are_same_parts(a: Part, b: Part) -> bool
    ensures { result ≡ are_same_parts a b }
{
    a == b
}

/// Whether the cells have the same character, marks, style and part.
#[tactic(auto, unfolding(crate::specs::Alike::are_alike))]
#[inline(always)]
pub(crate) fn are_alike(a: &Cell, b: &Cell) -> bool
    ensures { result ≡ are_alike a.now b.now }
{
    a.character == b.character
        && are_same_parts(a.part, b.part)
        && are_same_marks(&a.marks, &b.marks)
        && a.style.is_same(&b.style)
}

/// Whether all cells are alike, each to the one of its place.
pub(crate) fn are_all_alike(a: &[Cell], b: &[Cell]) -> bool
    ensures { result ≡ all_two are_alike a.now b.now }
{
    if a.len() != b.len() {
        return false;
    }
    for place in 0..a.len() {
        if !are_alike(&a[place], &b[place]) {
            return false;
        }
    }
    true
}

/// How many cells are alike, from the first on, each to the one of its place.
pub(crate) fn alike_front(a: &[Cell], b: &[Cell]) -> usize
    requires { length a.now ≡ length b.now }
    ensures front { all_two are_alike (take result a.now) (take result b.now) ≡ true }
    ensures within { result ≤ length a.now }
{
    for place in 0..a.len() {
        if !are_alike(&a[place], &b[place]) {
            return place;
        }
    }
    a.len()
}

/// Whether all cells of a buffer are alike, each to the one of its place, in two screens of one size.
fn are_buffers_alike(buffer: Buffer, a: &Screen, b: &Screen) -> bool
    requires columns { a.now.display.width ≡ b.now.display.width }
    requires rows { a.now.display.height ≡ b.now.display.height }
    ensures { result ≡ all_two are_alike (cells_of buffer a.now.display) (cells_of buffer b.now.display) }
{
    // (for the proof: the sizes are within their limits)
    let _ = b.rows();
    for row in 0..a.rows() {
        if !are_all_alike(buffer.row(a, row), buffer.row(b, row)) {
            return false;
        }
    }
    true
}

/// Whether tabs stop in the same columns.
fn are_same_stops(a: &[bool], b: &[bool]) -> bool
    ensures { result ≡ all_two beq a.now b.now }
{
    if a.len() != b.len() {
        return false;
    }
    for column in 0..a.len() {
        if a[column] != b[column] {
            return false;
        }
    }
    true
}

/// Whether the character sets are the same.
fn are_same_sets(a: Charsets, b: Charsets) -> bool
    ensures { result ≡ are_same_sets a b }
{
    a.g0_draws == b.g0_draws && a.g1_draws == b.g1_draws && a.uses_g1 == b.uses_g1
}

/// Whether the places are the same, with their styles, origin modes and sets.
#[tactic(auto, unfolding(crate::specs::Alike::are_same_places))]
fn are_same_places(a: Place, b: Place) -> bool
    ensures { result ≡ are_same_places a b }
{
    a.row == b.row
        && a.column == b.column
        && a.style.is_same(&b.style)
        && a.is_relative == b.is_relative
        && are_same_sets(a.charsets, b.charsets)
}

/// Whether both, which have one size, have the same screen below an alternate one, saved places and tabs.
#[tactic(auto, unfolding(crate::specs::Alike::has_same_frame))]
fn has_same_frame(a: &Screen, b: &Screen) -> bool
    requires columns { a.now.display.width ≡ b.now.display.width }
    requires rows { a.now.display.height ≡ b.now.display.height }
    ensures { result ≡ has_same_frame a.now.display b.now.display }
{
    a.is_alternate() == b.is_alternate()
        && (!a.is_alternate() || are_buffers_alike(Buffer::Hidden, a, b))
        && are_same_places(a.saved(), b.saved())
        && are_same_places(a.hidden_saved(), b.hidden_saved())
        && are_same_stops(a.stops(), b.stops())
}

/// Whether the same rows scroll.
pub(crate) fn has_same_margins(a: &Screen, b: &Screen) -> bool
    ensures { result ≡ has_same_margins a.now.display b.now.display }
{
    a.margins().0 == b.margins().0 && a.margins().1 == b.margins().1
}

/// Whether DECAWM, IRM and DECTCEM are the same.
fn has_same_modes(a: &Screen, b: &Screen) -> bool
    ensures { result ≡ has_same_modes a.now.display b.now.display }
{
    a.wraps() == b.wraps()
        && a.inserts() == b.inserts()
        && a.is_cursor_visible() == b.is_cursor_visible()
}

/// Whether two screens of one size are the same in all that is drawn; links, for one, are not.
#[tactic(auto, unfolding(crate::specs::Alike::looks_same))]
pub(crate) fn looks_same(a: &Screen, b: &Screen) -> bool
    requires columns { a.now.display.width ≡ b.now.display.width }
    requires rows { a.now.display.height ≡ b.now.display.height }
    ensures { result ≡ looks_same a.now.display b.now.display }
{
    has_same_frame(a, b)
        && has_same_margins(a, b)
        && has_same_modes(a, b)
        && are_same_places(a.cursor(), b.cursor())
        && are_buffers_alike(Buffer::Shown, a, b)
}

/// Whether the set that is used is the line drawing set.
fn draws(sets: Charsets) -> bool
    ensures { result ≡ draws sets }
{
    if sets.uses_g1 {
        sets.g1_draws
    } else {
        sets.g0_draws
    }
}

/// Whether characters are printed as they are, in their places.
#[tactic(auto, unfolding(crate::specs::Alike::is_plain))]
fn is_plain(screen: &Screen) -> bool
    ensures { result ≡ is_plain screen.now.display }
{
    !screen.cursor().is_relative && !screen.inserts() && !draws(screen.cursor().charsets)
}

/// Whether a wrap is pending after a cell where nothing is printed.
#[tactic(auto, unfolding(crate::specs::Alike::lacks_print))]
pub(crate) fn lacks_print(screen: &Screen) -> bool
    ensures { result ≡ lacks_print screen.now.display }
{
    let columns = screen.columns();
    let cursor = screen.cursor();
    cursor.column == columns && is_erased(screen.row(cursor.row)[columns - 1])
}

/// Whether both have the same frame, which is not asked where it can not have changed.
fn keeps_frame(a: &Screen, b: &Screen, compared: Compared) -> bool
    requires { AreCompared compared a.now b.now }
    ensures { result ≡ has_same_frame a.now.display b.now.display }
{
    !compared.has_frame(b) || has_same_frame(a, b)
}

/// Whether only cells, the cursor with its style, margins, DECAWM and DECTCEM can differ, where no more can
/// have changed.
#[tactic(auto, unfolding(crate::specs::Alike::is_steady))]
pub(crate) fn is_steady(a: &Screen, b: &Screen, compared: Compared) -> bool
    requires { AreCompared compared a.now b.now }
    ensures { result ≡ is_steady a.now.display b.now.display }
{
    is_plain(a)
        && is_plain(b)
        && !lacks_print(a)
        && are_same_sets(a.cursor().charsets, b.cursor().charsets)
        && keeps_frame(a, b, compared)
}
