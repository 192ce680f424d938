//! What can have changed of the screen, for C.
ghost use Rattle.std.specs.Prelude.{◌≡◌, None};
ghost use Rattle.std.specs.Bool.{OnTrue, OnFalse};
ghost use Rattle.screen_pieces.specs.Terminal.{CanHaveChanged, IsCopy, display_of};
ghost use Rattle.screen_pieces.specs.Text.{LacksRow};
ghost use Rattle.ansi_screen_c.specs.Calls.{Both, Holds, IsNoneOr};

use crate::handle::Handle;
use std::alloc::Global;

/// Writes which columns of a row, counted from 0, can have changed since [`ansi_screen_forget`], or, before it is
/// called, all: from `first` up to `past`. It answers false, and writes nothing, where no screen is held, and where
/// there is no such row.
#[unsafe(no_mangle)]
pub extern "C" fn ansi_screen_changed(
    alloc: Global,
    screen: &mut Handle,
    row: usize,
    first: &mut usize,
    past: &mut usize,
) -> bool
    ensures columns { OnTrue result (Holds (CanHaveChanged row first.new past.new) screen.old.value) }
    ensures kept { screen.new.value ≡ screen.old.value }
    ensures refused { OnFalse result ((first.new ≡ first.old) × (past.new ≡ past.old)) }
    ensures lacking { OnFalse result (IsNoneOr (λ terminal. LacksRow row (display_of terminal)) screen.old.value) }
{
    match screen.take(alloc) {
        None => false,
        Some(held) => {
            let changed = held.changed(row);
            screen.put(held);
            match changed {
                None => false,
                Some(columns) => {
                    (*first, *past) = columns;
                    true
                }
            }
        }
    }
}

/// Forgets what can have changed: as the screen is now, it counts as shown. It stands where it stood. It answers false
/// where none is held.
#[unsafe(no_mangle)]
pub extern "C" fn ansi_screen_forget(alloc: Global, screen: &mut Handle) -> bool
    ensures forgotten { OnTrue result (Both IsCopy screen.old.value screen.new.value) }
    ensures refused { OnFalse result ((screen.old.value ≡ None) × (screen.new.value ≡ None)) }
{
    match screen.take(alloc) {
        None => false,
        Some(mut held) => {
            held.forget();
            screen.put(held);
            true
        }
    }
}
