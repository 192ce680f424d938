//! The titles of a window and of its icon.
ghost use Rattle.std.specs.Prelude.{◌≡◌, ◌≤◌, [], length, map};
ghost use Rattle.ansi_modes.specs.Text.{text_of};
ghost use Rattle.ansi_modes.specs.Titles.{no_titles, both_titles, max_saved, is_of_window, is_of_icon, chosen, last_saved, saving, unsaved};

use crate::text::Text;
use arrayvec::ArrayVec;
use std::marker::Model;

/// So many pairs of titles are saved; where one more comes, the oldest goes.
const MAX_SAVED: usize = 10;

/// The titles of a window and of its icon.
#[derive(Drop)]
pub struct Titles {
    pub window: Text,
    pub icon: Text,
}

/// Whether titles of this kind are those of the window.
fn is_of_window(kind: u16) -> bool
    ensures { result ≡ is_of_window kind }
{
    kind == 0 || kind == 2
}

/// Whether they are those of the icon.
fn is_of_icon(kind: u16) -> bool
    ensures { result ≡ is_of_icon kind }
{
    kind == 0 || kind == 1
}

impl Titles {
    /// None.
    pub(crate) fn new() -> Titles
        ensures { result ≡ no_titles }
    {
        Titles {
            window: Text::new(),
            icon: Text::new(),
        }
    }

    /// Others that are the same.
    pub(crate) fn copy(&self) -> Titles
        ensures { result ≡ self.now }
    {
        Titles {
            window: self.window.copy(),
            icon: self.icon.copy(),
        }
    }

    /// Those of a kind become the text of the parts of a command.
    #[tactic(auto, unfolding(crate::specs::Titles::chosen))]
    pub(crate) fn read(&mut self, kind: u16, parts: &[&[u8]])
        ensures { self.new ≡ chosen kind (both_titles (text_of (map (λ part. part.now) parts.now))) self.old }
    {
        if !is_of_window(kind) {
            if is_of_icon(kind) {
                self.icon.read(parts);
            }
            return;
        }
        self.window.read(parts);
        if is_of_icon(kind) {
            self.icon = self.window.copy();
        }
    }

    /// Those of a kind are as others are.
    #[tactic(auto, unfolding(crate::specs::Titles::chosen))]
    pub(crate) fn choose(&mut self, kind: u16, new: &Titles)
        ensures { self.new ≡ chosen kind new.now self.old }
    {
        if is_of_window(kind) {
            self.window = new.window.copy();
        }
        if is_of_icon(kind) {
            self.icon = new.icon.copy();
        }
    }
}

impl Default for Titles {
    ghost is_default = { λ titles. titles ≡ no_titles };

    fn default() -> Titles {
        Titles::new()
    }
}

/// The titles that were saved, a pair each time.
#[derive(Drop)]
pub struct SavedTitles {
    stack: ArrayVec<Titles, MAX_SAVED>,
}

impl Model for SavedTitles {
    ghost use Rattle.std.specs.Prelude.{List};
    ghost use Rattle.ansi_modes.specs.declared.titles.Titles.{Titles};

    ghost Value = { List Titles };

    ghost view = { λ saved. saved.stack.items };
}

impl SavedTitles {
    /// None were.
    pub(crate) fn new() -> SavedTitles
        ensures { result ≡ [] }
    {
        SavedTitles {
            stack: ArrayVec::new(),
        }
    }

    /// Others that are the same.
    pub(crate) fn copy(&self) -> SavedTitles
        ensures { result ≡ self.now }
    {
        let mut stack = ArrayVec::new();
        let saved = self.stack.as_slice();
        for titles in saved {
            stack.push(titles.copy());
        }
        SavedTitles { stack }
    }

    /// How many pairs there are.
    pub fn len(&self) -> usize
        ensures count { result ≡ length self.now }
        ensures bound { result ≤ max_saved }
    {
        self.stack.len()
    }

    /// A pair is saved: a title that is not meant as it was saved before.
    #[tactic(auto, unfolding(crate::specs::Titles::saving))]
    pub(crate) fn save(&mut self, kind: u16, titles: &Titles)
        ensures { self.new ≡ saving kind titles.now self.old }
    {
        let mut pair = match self.stack.as_slice() {
            [.., last] => last.copy(),
            [] => titles.copy(),
        };
        pair.choose(kind, titles);
        if self.stack.is_full() {
            self.stack.remove(0);
        }
        self.stack.push(pair);
    }

    /// The pair that was saved last leaves.
    pub(crate) fn take(&mut self) -> Option<Titles>
        ensures taken { result ≡ last_saved self.old }
        ensures left { self.new ≡ unsaved self.old }
    {
        self.stack.pop()
    }
}
