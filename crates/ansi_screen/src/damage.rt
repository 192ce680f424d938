//! Damage: which columns of each row can have changed since it was forgotten.
ghost use Rattle.std.specs.Prelude.{◌≡◌, ◌++◌, ◌-◌, ◌+◌, ◌<◌, ◌≤◌, take, drop, replicate, length, slice_set, IfOk, ℕ, false, true, min};
ghost use Rattle.ansi_screen.specs.Damage.{no_span, AreEmptyBeside};
ghost use Rattle.ansi_screen.specs.Display.{most_columns};

use crate::covered::Covered;
use crate::grid::Grid;
use crate::place::Place;
use crate::size::MAX_COLUMNS;
use std::alloc::{AllocError, Global};
use std::marker::Model;
use std::snapshot::Snapshot;

/// The columns from `left` up to `right` were written; none, where `right` is not greater than `left`.
#[derive(Clone, Copy)]
pub(crate) struct Span {
    pub(crate) left: u16,
    pub(crate) right: u16,
}

const NONE: Span = Span {
    left: MAX_COLUMNS as u16,
    right: 0,
};

const WHOLE: Span = Span {
    left: 0,
    right: MAX_COLUMNS as u16,
};

impl Span {
    ghost use Rattle.std.specs.Prelude.{◌≡◌};
    ghost use Rattle.ansi_screen.specs.Damage.{joined};

    /// The columns from `left` up to `right` too.
    #[inline]
    fn join(&mut self, left: u16, right: u16)
        ensures { self.new ≡ joined left right self.old }
    {
        if left < self.left {
            self.left = left;
        }
        if self.right < right {
            self.right = right;
        }
    }
}

/// A picture of a display, of when its damage was forgotten. It is there for clauses alone, and takes no memory.
/// [`Damage::forget`] makes it, and nothing else can: so whoever has a new one has noted nothing since.
#[derive(Drop)]
pub(crate) struct Shown {
    cells: Snapshot<Grid>,
    hidden: Snapshot<Covered>,
    tabs: Snapshot<Vec<bool>>,
    /// What is saved on the screen that shows and on the hidden one.
    saved: Snapshot<Place>,
    hidden_saved: Snapshot<Place>,
    top: Snapshot<usize>,
    bottom: Snapshot<usize>,
    is_alternate: Snapshot<bool>,
}

/// Damage: the columns of each row that were written, and whether the frame can have changed: what is saved, margins,
/// tabs, and the alternate screen with what it covers.
#[derive(Drop)]
pub(crate) struct Damage {
    spans: Vec<Span>,
    /// The span of each other row than those from `first` up to `past` is empty.
    first: usize,
    past: usize,
    /// All columns of all rows were written, whatever the spans are.
    are_all: bool,
    is_framed: bool,
}

impl Model for Damage {
    ghost use Rattle.std.specs.Prelude.{length, replicate, if◌then◌else◌};
    ghost use Rattle.ansi_screen.specs.Damage.{Noted, whole_span, AreEmptyBeside};

    ghost Value = { Noted };

    ghost view = { λ d. record {
      spans = if d.are_all then replicate (length d.spans.items) whole_span else d.spans.items;
      is_framed = d.is_framed;
    } };

    ghost invariant = { λ d. AreEmptyBeside d.first d.past d.spans.items };
}

/// No columns of any row, where none were written but in rows from `first` up to `past`.
fn empty(spans: &mut [Span], first: usize, past: usize)
    requires { AreEmptyBeside first past spans.old }
    ensures { spans.new ≡ replicate (length spans.old) no_span }
{
    for row in first..past {
        spans[row] = NONE;
    }
}

impl Damage {
    ghost use Rattle.ansi_screen.specs.Damage.{no_span, whole_span, span_at, joined, IsOutside, AreEmptyBeside};

    /// All of so many rows.
    pub(crate) fn all(alloc: Global, rows: usize) -> Result<Damage, AllocError>
        ensures { IfOk result (λ damage. damage ≡ record { spans = replicate rows whole_span; is_framed = true }) }
    {
        Ok(Damage {
            spans: Vec::from_elem(alloc, NONE, rows)?,
            first: rows,
            past: 0,
            are_all: true,
            is_framed: true,
        })
    }

    /// Forgets all damage, and answers the picture of these from which on it is noted: cells, covered ones, stops, what
    /// is saved on both screens, margins, and whether the alternate one shows. This takes time for each row of which
    /// something was noted, and for the rows between them.
    pub(crate) fn forget(
        &mut self,
        cells: &Grid,
        hidden: &Covered,
        tabs: &Vec<bool>,
        saved: (Place, Place),
        margins: (usize, usize),
        is_alternate: bool,
    ) -> Shown
        ensures nothing { self.new ≡ record { spans = replicate (length self.old.spans) no_span; is_framed = false } }
        ensures cells { result.cells.value ≡ cells.now }
        ensures hidden { result.hidden.value ≡ hidden.now }
        ensures tabs { result.tabs.value ≡ tabs.now }
        ensures saved { result.saved.value ≡ saved.0 }
        ensures hidden_saved { result.hidden_saved.value ≡ saved.1 }
        ensures top { result.top.value ≡ margins.0 }
        ensures bottom { result.bottom.value ≡ margins.1 }
        ensures is_alternate { result.is_alternate.value ≡ is_alternate }
    {
        empty(self.spans.as_mut_slice(), self.first, self.past);
        self.first = self.spans.len();
        self.past = 0;
        self.are_all = false;
        self.is_framed = false;
        Shown {
            cells: Snapshot::of(cells),
            hidden: Snapshot::of(hidden),
            tabs: Snapshot::of(tabs),
            saved: Snapshot::of(&saved.0),
            hidden_saved: Snapshot::of(&saved.1),
            top: Snapshot::of(&margins.0),
            bottom: Snapshot::of(&margins.1),
            is_alternate: Snapshot::of(&is_alternate),
        }
    }

    /// The columns of a row from `left` up to `right` too. Mostly all of the screen is noted already, or some of the
    /// row.
    #[inline]
    pub(crate) fn note(&mut self, row: usize, left: usize, right: usize)
        requires row { row < length self.old.spans }
        requires left { left < most_columns }
        requires right { right ≤ most_columns }
        ensures { self.new ≡ record self.old {
          spans = slice_set self.old.spans row (joined left right (span_at self.old.spans row));
        } }
    {
        if self.are_all {
            return;
        }
        let (left, right) = (left as u16, right as u16);
        let is_first = left < self.spans[row].left;
        self.spans[row].join(left, right);
        if is_first {
            self.first = self.first.min(row);
            self.past = self.past.max(row + 1);
        }
    }

    /// All columns of the rows from `first` up to `past` too.
    pub(crate) fn note_rows(&mut self, first: usize, past: usize)
        requires order { first ≤ past }
        requires within { past ≤ length self.old.spans }
        ensures { self.new ≡ record self.old {
          spans = take first self.old.spans
              ++ (replicate (past - first) whole_span ++ drop past self.old.spans);
        } }
    {
        if past - first == self.spans.len() {
            self.are_all = true;
        } else if !self.are_all {
            self.spans.as_mut_slice()[first..past].fill(WHOLE);
            self.first = self.first.min(first);
            self.past = self.past.max(past);
        }
    }

    /// The frame too.
    pub(crate) fn note_frame(&mut self)
        ensures { self.new ≡ record self.old { is_framed = true } }
    {
        self.is_framed = true;
    }

    /// All of it.
    pub(crate) fn note_all(&mut self)
        ensures { self.new ≡ record { spans = replicate (length self.old.spans) whole_span; is_framed = true } }
    {
        self.are_all = true;
        self.is_framed = true;
    }

    /// Rows outside which nothing is noted: from the first answer up to the second.
    pub(crate) fn rows(&self) -> (usize, usize)
        ensures order { result.0 ≤ result.1 }
        ensures within { result.1 ≤ length self.now.spans }
        ensures others { AreEmptyBeside result.0 result.1 self.now.spans }
    {
        if self.are_all {
            (0, self.spans.len())
        } else {
            (self.first.min(self.past), self.past)
        }
    }

    /// The columns of a row of so many that were written, and those beside them: from the first answer up to the
    /// second.
    pub(crate) fn columns(&self, row: usize, width: usize) -> (usize, usize)
        requires { row < length self.now.spans }
        ensures order { result.0 ≤ result.1 }
        ensures within { result.1 ≤ width }
        ensures before { (column : ℕ) → column < result.0 → IsOutside (span_at self.now.spans row) column }
        ensures after { (column : ℕ) → column < width → result.1 ≤ column
            → IsOutside (span_at self.now.spans row) column }
    {
        if self.are_all {
            return (0, width);
        }
        let span = self.spans[row];
        let (left, right) = (usize::from(span.left), usize::from(span.right));
        let past = if right < width { right + 1 } else { width };
        (left.saturating_sub(1).min(past), past)
    }

    /// Whether the frame can have changed.
    pub(crate) fn is_framed(&self) -> bool
        ensures { result ≡ self.now.is_framed }
    {
        self.is_framed
    }
}
