//! A log that is shown, on the heap, by a pointer that may be null.
ghost use Rattle.std.specs.Prelude.{◌≡◌, Option, None, Some, option_map};
ghost use Rattle.std.specs.Coded.{codes};
ghost use Rattle.std.proofs.Props.{props};
ghost use Rattle.shown_pieces.specs.declared.log.ShownLog.{ShownLog as Inside};
ghost use Rattle.ansi_screen_c.specs.ShownHandle.{owned};

use crate::loose::Loose;
use shown_pieces::ShownLog;
use std::alloc::Global;
use std::marker::Model;
use std::mem::replace;
use std::ptr::null_mut;

/// A log, or none where the pointer is null: so zero bytes are none.
#[repr(C)]
#[derive(Drop)]
pub struct ShownHandle {
    at: *mut u8,
    alloc: Global,
    pub ghost value: { Option Inside } by { Prim.hlevel (codes, props) },
}

impl Model for ShownHandle {
    ghost also_owns = { λ h. owned h.alloc h.at h.value };
}

impl ShownHandle {
    /// One that holds nothing.
    pub(crate) fn none(alloc: Global) -> ShownHandle
        ensures { result.value ≡ None }
    {
        ShownHandle {
            at: null_mut(),
            alloc,
        }
    }

    /// One that holds this.
    pub(crate) fn of(held: Loose<ShownLog, Global>) -> ShownHandle
        ensures { result.value ≡ Some held.value }
    {
        let Loose { at, alloc } = held;
        ShownHandle {
            at: at.cast::<u8>(),
            alloc,
        }
    }

    /// What it held.
    pub(crate) fn into_loose(self) -> Option<Loose<ShownLog, Global>>
        ensures { self.value ≡ option_map (λ l. l.value) result }
    {
        let ShownHandle { at, alloc } = self;
        if at.is_null() {
            None
        } else {
            Some(Loose {
                at: at.cast::<ShownLog>(),
                alloc,
            })
        }
    }

    /// Takes out what it holds: then it holds nothing.
    pub(crate) fn take(&mut self, alloc: Global) -> Option<Box<ShownLog>>
        ensures taken { self.old.value ≡ option_map (λ b. b.value) result }
        ensures left { self.new.value ≡ None }
    {
        match replace(self, ShownHandle::none(alloc)).into_loose() {
            None => None,
            Some(held) => Some(held.into_box()),
        }
    }

    /// Holds this.
    pub(crate) fn put(&mut self, held: Box<ShownLog>)
        ensures { self.new.value ≡ Some held.value }
    {
        *self = ShownHandle::of(Loose::of(held));
    }
}
