//! What a screen showed of a log that comes in pieces, for C. `include/ansi_shown.h` declares these functions, and says
//! what their caller owes.
ghost use Rattle.std.specs.Prelude.{◌≡◌, None, Some, IfSome};
ghost use Rattle.std.specs.Bool.{OnTrue, OnFalse};
ghost use Rattle.shown_pieces.specs.Log.{Feeds, Ends, Refuses};
ghost use Rattle.ansi_screen_c.specs.ShownCalls.{IsOpened, BothLogs, BothOrNone, ReadsLog, LacksRoomOfLog};

use crate::shown_handle::ShownHandle;
use crate::told;
use anstyle_parse::io::Sink;
use shown_pieces::{How, Memory, ShownLog, form_at, screen_at};
use std::alloc::Global;

/// How many bytes of options are kept for later: they are 0.
pub const RESERVED_SHOWN: usize = 2;

/// How a log is written, and by which screen. A number that is not 0 asks for what it names.
#[repr(C)]
#[derive(Clone, Copy)]
pub struct ShownOptions {
    /// The size of the screen; 0 and 0, where it is that which the recording says.
    pub columns: usize,
    pub rows: usize,
    /// The number of a form, and of a styling.
    pub form: u8,
    pub styling: u8,
    /// Of HTML: lines that can be linked to; addresses as links.
    pub lines: u8,
    pub urls: u8,
    /// Hidden text is left out.
    pub no_hidden: u8,
    /// The log itself is written, and no screen shows it.
    pub no_screen: u8,
    pub reserved: [u8; RESERVED_SHOWN],
}

/// A new log, of which nothing has come, by these options.
fn log_by(alloc: Global, options: &ShownOptions) -> Option<ShownLog>
    ensures { IfSome result (λ log. IsOpened ⟦<Memory as Sink>⟧ options.now (Some log)) }
{
    let Some(size) = screen_at(options.no_screen, options.columns, options.rows) else {
        return None;
    };
    let how = How {
        form: form_at(options.form, options.styling),
        has_lines: options.lines != 0,
        has_urls: options.urls != 0,
        no_hidden: options.no_hidden != 0,
    };
    Some(ShownLog::new(alloc, size, how))
}

/// One on the heap.
fn boxed(alloc: Global, options: &ShownOptions) -> Option<Box<ShownLog>>
    ensures { IfSome result (λ held. IsOpened ⟦<Memory as Sink>⟧ options.now (Some held.value)) }
{
    let Some(log) = log_by(alloc, options) else {
        return None;
    };
    let Ok(held) = Box::new(alloc, log) else {
        return None;
    };
    Some(held)
}

/// Holds a new log, in place of what it held, which is freed. It answers false, and holds none, where no screen has such
/// a size, or memory is wanting.
#[unsafe(no_mangle)]
pub extern "C" fn ansi_shown_open(
    alloc: Global,
    shown: &mut ShownHandle,
    options: &ShownOptions,
) -> bool
    ensures opened { OnTrue result (IsOpened ⟦<Memory as Sink>⟧ options.now shown.new.value) }
    ensures none { OnFalse result (shown.new.value ≡ None) }
{
    drop(shown.take(alloc));
    match boxed(alloc, options) {
        None => false,
        Some(held) => {
            shown.put(held);
            true
        }
    }
}

/// Frees the log: then none is held.
#[unsafe(no_mangle)]
pub extern "C" fn ansi_shown_close(alloc: Global, shown: &mut ShownHandle)
    ensures { shown.new.value ≡ None }
{
    drop(shown.take(alloc));
}

/// Takes the next bytes of the log. It answers false where none is held, where memory is wanting, now or before, and
/// after the end.
#[unsafe(no_mangle)]
pub extern "C" fn ansi_shown_feed(alloc: Global, shown: &mut ShownHandle, piece: &[u8]) -> bool
    ensures fed { OnTrue result (BothLogs (Feeds ⟦<Memory as Sink>⟧ piece.now) shown.old.value shown.new.value) }
    ensures refused { OnFalse result (BothOrNone Refuses shown.old.value shown.new.value) }
{
    match shown.take(alloc) {
        None => false,
        Some(mut held) => {
            let is_fed = held.feed(piece);
            shown.put(held);
            is_fed
        }
    }
}

/// Ends the log: then what the screen showed of it is written. It answers false where none is held, where memory is
/// wanting, now or before, and after the end.
#[unsafe(no_mangle)]
pub extern "C" fn ansi_shown_end(alloc: Global, shown: &mut ShownHandle) -> bool
    ensures ended { OnTrue result (BothLogs (Ends ⟦<Memory as Sink>⟧) shown.old.value shown.new.value) }
    ensures refused { OnFalse result (BothOrNone Refuses shown.old.value shown.new.value) }
{
    match shown.take(alloc) {
        None => false,
        Some(mut held) => {
            let has_ended = held.end();
            shown.put(held);
            has_ended
        }
    }
}

/// Writes what is written of the log to the front of the room, and how many bytes it has: none before the end. It answers
/// false where the room has fewer bytes than the number, and where no log is held: then the number is 0.
#[unsafe(no_mangle)]
pub extern "C" fn ansi_shown_text(
    alloc: Global,
    shown: &mut ShownHandle,
    room: &mut [u8],
    written: &mut usize,
) -> bool
    ensures text { OnTrue result (ReadsLog room.old room.new written.new shown.old.value) }
    ensures kept { shown.new.value ≡ shown.old.value }
    ensures refused { OnFalse result (LacksRoomOfLog room.old room.new written.new shown.old.value) }
{
    match shown.take(alloc) {
        None => {
            *written = 0;
            false
        }
        Some(held) => {
            let answer = held.put_text(room);
            shown.put(held);
            told(answer, written)
        }
    }
}
