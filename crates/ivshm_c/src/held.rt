//! The handle by which a program in C owns an end.
ghost use Rattle.std.specs.Prelude.{◌≡◌, Option, Some, None, MatchOption};
ghost use Rattle.ivshm_c.specs.declared.end_state.EndState.{EndState as Held};

use crate::end_state::EndState;
use raw_box::Loose;
use std::alloc::Global;
use std::marker::Model;

/// A handle: a pointer, which is null if the handle has no end. The program in C stores it, and
/// never reads or writes it, except to make it null at first.
#[repr(C)]
#[derive(Drop)]
pub struct End {
    at: *mut u8,
    alloc: Global,
    pub(crate) ghost port: { Option Held },
}

impl Model for End {
    ghost use Rattle.raw_box.specs.Handle.{held};
    ghost use Rattle.ivshm_c.specs.contracts.end_state.EndState.{the_row};

    ghost also_owns = { λ h. held the_row h.at h.alloc h.port };
}

// The handle may be sent to another thread, because the end and the allocator may.
unsafe impl Send for End {}

impl End {
    /// Returns the handle of no end.
    pub(crate) fn empty(alloc: Global) -> End
        ensures { result.port ≡ None }
    {
        End {
            at: std::ptr::null_mut(),
            alloc,
        }
    }

    fn of(loose: Loose<EndState, Global>) -> End
        ensures { result.port ≡ Some loose.value }
    {
        let Loose { at, alloc } = loose;
        End {
            at: at as *mut u8,
            alloc,
        }
    }

    fn into_loose(self) -> Option<Loose<EndState, Global>>
        ensures { MatchOption result (self.port ≡ None) (λ l. self.port ≡ Some l.value) }
    {
        let End { at, alloc } = self;
        if at.is_null() {
            None
        } else {
            Some(Loose {
                at: at as *mut EndState,
                alloc,
            })
        }
    }

    /// Removes the end from the handle and returns it, or `None` if there is none.
    pub(crate) fn take(&mut self, alloc: Global) -> Option<Box<EndState>>
        ensures port { MatchOption result (self.old.port ≡ None) (λ b. self.old.port ≡ Some b.value) }
        ensures empty { self.new.port ≡ None }
    {
        match std::mem::replace(self, End::empty(alloc)).into_loose() {
            Some(loose) => Some(loose.into_box()),
            None => None,
        }
    }

    /// Moves an end into a handle that has none.
    pub(crate) fn put(&mut self, port: Box<EndState>)
        requires { self.old.port ≡ None }
        ensures { self.new.port ≡ Some port.value }
    {
        *self = End::of(Loose::of(port));
    }
}
