//! Rows that left the screen, for C.
ghost use Rattle.std.specs.Prelude.{◌≡◌, ◌==◌, ◌<◌, ◌⊎◌, None, length};
ghost use Rattle.std.specs.Bool.{OnTrue, OnFalse};
ghost use Rattle.screen_pieces.specs.History.{kept_row, text_of_kept, LacksKept};
ghost use Rattle.screen_pieces.specs.Keeping.{FeedsKeeping};
ghost use Rattle.screen_pieces.specs.Terminal.{HasKeptRow, history_of};
ghost use Rattle.ansi_screen_c.specs.Calls.{OpensWith, Holds, Both, IsNoneOr, ReadsKept, IsRefusedKept};

use crate::handle::Handle;
use crate::{boxed, told};
use screen_pieces::CellBytes;
use std::alloc::Global;

/// How many words of options are kept for later: they are 0.
pub const RESERVED_OPTIONS: usize = 6;

/// What a screen keeps beside what it shows.
#[repr(C)]
#[derive(Clone, Copy)]
pub struct Options {
    /// So many of the last rows that left it.
    pub history: usize,
    /// 0 where rows that ED and RIS take away count among them; any other number, where these are kept nowhere.
    pub drops_erased: usize,
    pub reserved: [usize; RESERVED_OPTIONS],
}

/// As [`ansi_screen_open`](crate::ansi_screen_open), with options.
#[unsafe(no_mangle)]
pub extern "C" fn ansi_screen_open_with(
    alloc: Global,
    screen: &mut Handle,
    columns: usize,
    rows: usize,
    options: &Options,
) -> bool
    ensures opened { OnTrue result (OpensWith columns rows options.now.history (options.now.drops_erased == 0)
        screen.new.value) }
    ensures none { OnFalse result (screen.new.value ≡ None) }
{
    drop(screen.take(alloc));
    let keeps_erased = options.drops_erased == 0;
    match boxed(alloc, columns, rows, options.history, keeps_erased) {
        None => false,
        Some(held) => {
            screen.put(held);
            true
        }
    }
}

/// Takes bytes from the front of the piece, as many as surely make no row leave that finds no room beside those that left
/// after the first `seen`, and writes how many these are. It answers false, with the number 0, where no screen is held.
#[unsafe(no_mangle)]
pub extern "C" fn ansi_screen_feed_keeping(
    alloc: Global,
    screen: &mut Handle,
    piece: &[u8],
    seen: usize,
    taken: &mut usize,
) -> bool
    ensures fed { OnTrue result (Both (FeedsKeeping piece.now seen taken.new) screen.old.value screen.new.value) }
    ensures refused { OnFalse result ((screen.old.value ≡ None) × (screen.new.value ≡ None)) }
    ensures none { OnFalse result (taken.new ≡ 0) }
{
    match screen.take(alloc) {
        None => {
            *taken = 0;
            false
        }
        Some(mut held) => {
            *taken = held.feed_keeping(piece, seen);
            screen.put(held);
            true
        }
    }
}

/// Writes how many of the rows that left the screen are kept, and how many have left in all. It answers false, and
/// writes nothing, where no screen is held.
#[unsafe(no_mangle)]
pub extern "C" fn ansi_screen_history(
    alloc: Global,
    screen: &mut Handle,
    kept: &mut usize,
    left: &mut usize,
) -> bool
    ensures counts { OnTrue result (Holds (λ terminal. (kept.new ≡ length (history_of terminal).rows)
        × (left.new ≡ (history_of terminal).left)) screen.old.value) }
    ensures same { screen.new.value ≡ screen.old.value }
    ensures refused { OnFalse result ((kept.new ≡ kept.old) × (left.new ≡ left.old)) }
    ensures none { OnFalse result (screen.old.value ≡ None) }
{
    match screen.take(alloc) {
        None => false,
        Some(held) => {
            let counts = held.history_counts();
            screen.put(held);
            (*kept, *left) = counts;
            true
        }
    }
}

/// As [`ansi_screen_row`](crate::ansi_screen_row), of a row that left: of those that are kept the oldest is the first,
/// 0.
#[unsafe(no_mangle)]
pub extern "C" fn ansi_screen_history_row(
    alloc: Global,
    screen: &mut Handle,
    number: usize,
    room: &mut [CellBytes],
) -> bool
    ensures row { OnTrue result (Holds (λ terminal. HasKeptRow number room.old room.new (history_of terminal))
        screen.old.value) }
    ensures kept { screen.new.value ≡ screen.old.value }
    ensures refused { OnFalse result (room.new ≡ room.old) }
    ensures lacking { OnFalse result (IsNoneOr (λ terminal. LacksKept number (history_of terminal)
        ⊎ (length room.old < length (kept_row number (history_of terminal)))) screen.old.value) }
{
    match screen.take(alloc) {
        None => false,
        Some(held) => {
            let written = held.put_history_row(number, room);
            screen.put(held);
            written
        }
    }
}

/// As [`ansi_screen_row_text`](crate::text::ansi_screen_row_text), of a row that left.
#[unsafe(no_mangle)]
pub extern "C" fn ansi_screen_history_text(
    alloc: Global,
    screen: &mut Handle,
    number: usize,
    room: &mut [u8],
    written: &mut usize,
) -> bool
    ensures text { OnTrue result (Holds (ReadsKept (text_of_kept number) room.old room.new written.new)
        screen.old.value) }
    ensures kept { screen.new.value ≡ screen.old.value }
    ensures refused { OnFalse result (IsRefusedKept (LacksKept number) (text_of_kept number) room.old written.new
        screen.old.value) }
{
    match screen.take(alloc) {
        None => {
            *written = 0;
            false
        }
        Some(held) => {
            let answer = held.history_text(number, room);
            screen.put(held);
            told(answer, written)
        }
    }
}
