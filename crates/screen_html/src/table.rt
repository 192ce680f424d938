//! The links of a stream by their numbers.
ghost use Rattle.std.specs.Prelude.{◌≡◌, ◌<◌, ◌≤◌, ◌%◌, ℕ, [], length, map, IfOk, vec_capacity};
ghost use Rattle.ansi_html.specs.ShownLinks.{link_in};
ghost use Rattle.screen_html.specs.Places.{kept_in, all_kept};

use crate::spare::{FEED_EARNS, credited_link};
use ansi_html::{Link, is_link_command};
use std::alloc::{AllocError, Global};
use std::marker::Model;

/// How many links are kept.
const MOST_KEPT: usize = 1024;

/// A number, and its link.
#[derive(Drop)]
pub(crate) struct Place {
    number: u32,
    link: Link,
}

/// Memory for the last 1,024 links that begin in a stream, of about 1 MiB. It has none yet.
#[derive(Drop)]
pub struct LinkMemory {
    table: LinkTable,
}

impl Model for LinkMemory {
    ghost use Rattle.std.specs.Prelude.{◌≡◌};
    ghost use Rattle.screen_html.specs.Links.{Table, no_links};

    ghost Value = { Table };

    ghost view = { λ memory. memory.table };

    ghost invariant = { λ memory. memory.table ≡ no_links };
}

impl LinkMemory {
    ghost use Rattle.screen_html.specs.Links.{no_links};

    /// Takes it. `Err` means that memory is wanting.
    pub fn new(alloc: Global) -> Result<LinkMemory, AllocError> {
        Ok(LinkMemory {
            table: LinkTable::new(alloc)?,
        })
    }

    /// A table that has no link.
    pub(crate) fn into_table(self) -> LinkTable
        ensures { result ≡ no_links }
    {
        self.table
    }
}

/// The links of a stream by the numbers that a screen gives them: the last 1,024 that began; and how many bytes of HTML
/// are spare to begin links with.
#[derive(Drop)]
pub struct LinkTable {
    /// A link's place is its number modulo `MOST_KEPT`. Those past the last place that had a link keep none: there is
    /// memory for them, which is not written.
    places: Vec<Place>,
    none: Link,
    spare: usize,
}

impl Model for LinkTable {
    ghost use Rattle.std.specs.Prelude.{◌≡◌, ◌≤◌, [], length, vec_capacity};
    ghost use Rattle.ansi_html.specs.ShownLinks.{link_in};
    ghost use Rattle.screen_html.specs.Links.{Table, table, most_kept};
    ghost use Rattle.screen_html.specs.Places.{all_kept};

    ghost Value = { Table };

    ghost view = { λ links. table (all_kept links.places.items) links.spare };

    ghost invariant = { λ links. (length links.places.items ≤ most_kept) × (most_kept ≤ vec_capacity links.places)
        × (link_in links.none ≡ []) };
}

impl LinkTable {
    ghost use Rattle.screen_html.specs.Links.{table, no_links, link_at, table_after};

    /// One that has no link yet; what a line feed earns is spare. `Err` means that memory is wanting.
    pub fn new(alloc: Global) -> Result<LinkTable, AllocError>
        ensures { IfOk result (λ table. table ≡ no_links) }
    {
        Ok(LinkTable {
            places: Vec::with_capacity(alloc, MOST_KEPT)?,
            none: Link::none(),
            spare: FEED_EARNS,
        })
    }

    /// Forgets all links, and what was spare but for what a line feed earns.
    pub fn clear(&mut self)
        ensures { self.new ≡ no_links }
    {
        self.places.clear();
        self.spare = FEED_EARNS;
    }

    /// Another one that keeps the same links. `Err` means that memory is wanting.
    pub fn copy(&self, alloc: Global) -> Result<LinkTable, AllocError>
        ensures { IfOk result (λ copy. copy ≡ self.now) }
    {
        let mut places = Vec::with_capacity(alloc, MOST_KEPT)?;
        put_copies(self.places.as_slice(), &mut places);
        Ok(LinkTable {
            places,
            none: Link::none(),
            spare: self.spare,
        })
    }

    /// What is spare to begin links with, in bytes of HTML.
    pub fn spare(&self) -> usize
        ensures { result ≡ self.now.spare }
    {
        self.spare
    }

    /// So much is left of it.
    pub fn set_spare(&mut self, spare: usize)
        ensures { self.new ≡ table self.old.places spare }
    {
        self.spare = spare;
    }

    /// No link.
    pub(crate) fn none(&self) -> &Link
        ensures { link_in result.now ≡ [] }
    {
        &self.none
    }

    /// The link of a number; none where it is no more kept.
    #[tactic(auto, unfolding(crate::specs::Links::link_at))]
    pub fn link(&self, number: u32) -> &Link
        ensures { link_in result.now ≡ link_at number self.now.places }
    {
        let places = self.places.as_slice();
        let place = number as usize % MOST_KEPT;
        if place < places.len() && places[place].number == number {
            &places[place].link
        } else {
            &self.none
        }
    }

    /// Keeps the link of a command, after which the one of this number is in force. It earns what beginning it costs.
    #[tactic(auto, unfolding(crate::specs::Links::links_after, crate::specs::Links::spare_after))]
    pub fn take_command(&mut self, number: u32, parts: &[&[u8]])
        ensures { self.new ≡ table_after number (map (λ part. part.now) parts.now) self.old }
    {
        if is_link_command(parts) && number != 0 {
            let place = number as usize % MOST_KEPT;
            reach(&mut self.places, place);
            let place = &mut self.places.as_mut_slice()[place];
            place.number = number;
            place.link.select(parts);
            self.spare = credited_link(place.link.uri(), self.spare);
        }
    }
}

/// Writes copies of places.
fn put_copies(places: &[Place], copies: &mut Vec<Place>)
    requires few { length places.now ≤ 1024 }
    requires none { copies.old.items ≡ [] }
    requires room { 1024 ≤ vec_capacity copies.old }
    ensures kept { map kept_in copies.new.items ≡ map kept_in places.now }
    ensures room { 1024 ≤ vec_capacity copies.new }
{
    for place in places {
        let mut link = Link::none();
        link.assign(&place.link);
        copies.push_reserved(Place {
            number: place.number,
            link,
        });
    }
}

/// Writes the places up to this one, where they are not yet written: they keep no link.
fn reach(places: &mut Vec<Place>, place: usize)
    requires place { place < 1024 }
    requires few { length places.old.items ≤ 1024 }
    requires room { 1024 ≤ vec_capacity places.old }
    ensures there { place < length places.new.items }
    ensures kept { all_kept places.new.items ≡ all_kept places.old.items }
    ensures few { length places.new.items ≤ 1024 }
    ensures room { 1024 ≤ vec_capacity places.new }
{
    'places: while places.len() <= place {
        places.push_reserved(Place {
            number: 0,
            link: Link::none(),
        });
    }
}
