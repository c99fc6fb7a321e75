//! The handle by which a program in C holds devices.
ghost use Rattle.std.specs.Prelude.{◌≡◌, Option, Some, None, MatchOption};
ghost use Rattle.ivshm_device.specs.declared.device_state.DeviceState.{DeviceState as Held};

use crate::device_state::DeviceState;
use raw_box::Loose;
use std::alloc::Global;
use std::marker::Model;

/// A handle: a pointer to devices, or null if the handle is empty.
///
/// A program in C sets the pointer to null at first and never writes it again.
#[repr(C)]
#[derive(Drop)]
pub struct DeviceHandle {
    at: *mut u8,
    alloc: Global,
    pub(crate) ghost state: { Option Held },
}

impl Model for DeviceHandle {
    ghost use Rattle.raw_box.specs.Handle.{held};
    ghost use Rattle.ivshm_device.specs.contracts.device_state.DeviceState.{the_row};

    ghost also_owns = { λ h. held the_row h.at h.alloc h.state };
}

impl DeviceHandle {
    /// Returns an empty handle.
    pub(crate) fn empty(alloc: Global) -> DeviceHandle
        ensures { result.state ≡ None }
    {
        DeviceHandle {
            at: std::ptr::null_mut(),
            alloc,
        }
    }

    fn of(loose: Loose<DeviceState, Global>) -> DeviceHandle
        ensures { result.state ≡ Some loose.value }
    {
        let Loose { at, alloc } = loose;
        DeviceHandle {
            at: at as *mut u8,
            alloc,
        }
    }

    fn into_loose(self) -> Option<Loose<DeviceState, Global>>
        ensures { MatchOption result (self.state ≡ None) (λ l. self.state ≡ Some l.value) }
    {
        let DeviceHandle { at, alloc } = self;
        if at.is_null() {
            None
        } else {
            Some(Loose {
                at: at as *mut DeviceState,
                alloc,
            })
        }
    }

    /// Takes the devices out of the handle, if there are any.
    pub(crate) fn take(&mut self, alloc: Global) -> Option<Box<DeviceState>>
        ensures state { MatchOption result (self.old.state ≡ None) (λ b. self.old.state ≡ Some b.value) }
        ensures empty { self.new.state ≡ None }
    {
        match std::mem::replace(self, DeviceHandle::empty(alloc)).into_loose() {
            Some(loose) => Some(loose.into_box()),
            None => None,
        }
    }

    /// Moves devices into an empty handle.
    pub(crate) fn put(&mut self, state: Box<DeviceState>)
        requires { self.old.state ≡ None }
        ensures { self.new.state ≡ Some state.value }
    {
        *self = DeviceHandle::of(Loose::of(state));
    }
}
