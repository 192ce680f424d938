//! A screen on the heap, by a pointer that may be null.
ghost use Rattle.std.specs.Prelude.{◌≡◌, Option, None, Some, option_map};
ghost use Rattle.screen_pieces.specs.declared.terminal.Terminal.{Terminal as Inside};
ghost use Rattle.ansi_screen_c.specs.Handle.{owned};

use crate::loose::Loose;
use screen_pieces::Terminal;
use std::alloc::Global;
use std::marker::{Model, Send};
use std::mem::replace;
use std::ptr::null_mut;

/// A screen, or none where the pointer is null: so zero bytes are none.
#[repr(C)]
#[derive(Drop)]
pub struct Handle {
    at: *mut u8,
    alloc: Global,
    pub ghost value: { Option Inside },
}

impl Model for Handle {
    ghost also_owns = { λ h. owned h.alloc h.at h.value };
}

impl Handle {
    /// One that holds nothing.
    pub(crate) fn none(alloc: Global) -> Handle
        ensures { result.value ≡ None }
    {
        Handle {
            at: null_mut(),
            alloc,
        }
    }

    /// One that holds this.
    pub(crate) fn of(held: Loose<Terminal, Global>) -> Handle
        ensures { result.value ≡ Some held.value }
    {
        let Loose { at, alloc } = held;
        Handle {
            at: at.cast::<u8>(),
            alloc,
        }
    }

    /// What it held.
    pub(crate) fn into_loose(self) -> Option<Loose<Terminal, Global>>
        ensures { self.value ≡ option_map (λ l. l.value) result }
    {
        let Handle { at, alloc } = self;
        if at.is_null() {
            None
        } else {
            Some(Loose {
                at: at.cast::<Terminal>(),
                alloc,
            })
        }
    }

    /// Takes out what it holds: then it holds nothing.
    pub(crate) fn take(&mut self, alloc: Global) -> Option<Box<Terminal>>
        ensures taken { self.old.value ≡ option_map (λ b. b.value) result }
        ensures left { self.new.value ≡ None }
    {
        match replace(self, Handle::none(alloc)).into_loose() {
            None => None,
            Some(held) => Some(held.into_box()),
        }
    }

    /// Holds this.
    pub(crate) fn put(&mut self, held: Box<Terminal>)
        ensures { self.new.value ≡ Some held.value }
    {
        *self = Handle::of(Loose::of(held));
    }
}

// Its memory may be freed by another thread, and it has what it holds alone.
unsafe impl Send for Handle {}
