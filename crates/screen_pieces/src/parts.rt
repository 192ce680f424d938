//! What decides on a screen beside what shows, as plain records: the cursor's place and those that are saved, margins, tab
//! stops and hidden rows.
ghost use Rattle.std.specs.Prelude.{◌≡◌, ◌<◌, ◌≤◌, ◌⊎◌, ◌==◌, None, length, take, drop, map, replicate, IfSome, IfNone};
ghost use Rattle.std.specs.Bool.{OnTrue, OnFalse};
ghost use Rattle.ansi_style.specs.Bytes.{is_set};
ghost use Rattle.screen_pieces.specs.Parts.{place_in, place_numbered, HasPlace, HasStops, HasHiddenRow, LacksHidden};

use crate::cell::{CellBytes, put_cells};
use crate::style::StyleRecord;
use crate::terminal::Terminal;
use ansi_screen::{Place, Screen};
use ansi_style::bytes::{StyleBytes, flag};

/// How many bytes of a place are kept for later: they are 0.
pub const RESERVED_PLACE: usize = 2;

/// A place of the cursor, and what DECSC saves with it: each byte after the style is 1 where it is so, else 0.
#[repr(C)]
#[derive(Clone, Copy)]
pub struct PlaceBytes {
    pub row: usize,
    pub column: usize,
    /// The style of what comes next.
    pub style: StyleRecord,
    /// Lines are counted from the upper margin (DECOM). `row` counts from the screen's first row.
    pub has_origin: u8,
    /// The last column was printed, and a wrap is pending: the column is the number of columns.
    pub wrap_pending: u8,
    /// G0, and G1, is the line drawing set; else letters.
    pub g0_draws: u8,
    pub g1_draws: u8,
    /// G1 is used, as from SO to SI; else G0.
    pub uses_g1: u8,
    pub reserved: [u8; RESERVED_PLACE],
}

impl PlaceBytes {
    /// The bytes of a place on a screen of so many columns.
    fn of(place: Place, columns: usize) -> PlaceBytes
        ensures place { place_in result ≡ place }
        ensures pending { is_set result.wrap_pending ≡ (result.column == columns) }
        ensures style { result.style.reserved ≡ replicate 8 0 }
        ensures reserved { result.reserved ≡ replicate 2 0 }
    {
        PlaceBytes {
            row: place.row,
            column: place.column,
            style: StyleRecord::of(StyleBytes::of(place.style)),
            has_origin: flag(place.is_relative),
            wrap_pending: flag(place.column == columns),
            g0_draws: flag(place.charsets.g0_draws),
            g1_draws: flag(place.charsets.g1_draws),
            uses_g1: flag(place.charsets.uses_g1),
            reserved: [0; RESERVED_PLACE],
        }
    }
}

/// Writes a byte for each of what is or is not to the front of the room.
fn put_flags(flags: &[bool], room: &mut [u8])
    requires { length flags.now ≤ length room.old }
    ensures written { map is_set (take (length flags.now) room.new) ≡ flags.now }
    ensures rest { drop (length flags.now) room.new ≡ drop (length flags.now) room.old }
{
    for (place, is) in flags.iter().enumerate() {
        room[place] = flag(*is);
    }
}

/// For each column of a screen, whether a tab stops there.
fn stops(screen: &Screen) -> &[bool]
    ensures stops { result.now ≡ screen.now.display.tabs }
    ensures columns { length result.now ≡ screen.now.display.width }
{
    screen.stops()
}

impl Terminal {
    ghost use Rattle.screen_pieces.specs.Terminal.{display_of};

    /// The place of a number: 0 the cursor's, 1 what DECSC saved on the screen that shows, and where nothing was, the top
    /// left, plain; 2 where the cursor goes back to once the main screen shows again, while the alternate one does (1049).
    /// `None` of any other number, and of 2 where the main screen shows.
    pub fn place(&self, which: u8) -> Option<PlaceBytes>
        ensures none { IfNone result (place_numbered which (display_of self.now) ≡ None) }
        ensures place { IfSome result (λ bytes. HasPlace which bytes self.now) }
    {
        let screen = self.screen();
        let place = match which {
            0 => screen.cursor(),
            1 => screen.saved(),
            2 if screen.is_alternate() => screen.hidden_saved(),
            _ => return None,
        };
        Some(PlaceBytes::of(place, screen.columns()))
    }

    /// The margins (DECSTBM), counted from 0: the row of the upper one, and the row after the lower one.
    pub fn margins(&self) -> (usize, usize)
        ensures top { result.0 ≡ (display_of self.now).top }
        ensures bottom { result.1 ≡ (display_of self.now).bottom }
    {
        self.screen().margins()
    }

    /// Writes a byte for each column to the front of the room, 1 where a tab stops there and else 0; false where the room
    /// has fewer bytes than the screen columns, and nothing is written.
    pub fn put_stops(&self, room: &mut [u8]) -> bool
        ensures stops { OnTrue result (HasStops room.old room.new self.now) }
        ensures refused { OnFalse result (room.new ≡ room.old) }
        ensures lacking { OnFalse result (length room.old < (display_of self.now).width) }
    {
        if room.len() < self.screen().columns() {
            return false;
        }
        put_flags(stops(self.screen()), room);
        true
    }

    /// As [`Terminal::put_row`], of a row of the main screen while the alternate one shows; false also where the main one
    /// does.
    pub fn put_hidden_row(&self, row: usize, room: &mut [CellBytes]) -> bool
        ensures row { OnTrue result (HasHiddenRow row room.old room.new self.now) }
        ensures refused { OnFalse result (room.new ≡ room.old) }
        ensures lacking { OnFalse result
            (LacksHidden row (display_of self.now) ⊎ (length room.old < (display_of self.now).width)) }
    {
        let screen = self.screen();
        if !screen.is_alternate() || screen.rows() <= row || room.len() < screen.columns() {
            return false;
        }
        put_cells(screen.hidden_row(row), room);
        true
    }
}
