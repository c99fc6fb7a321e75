//! The devices of a world for hypervisors in C. The crate uses `doorbell_irq` for the device's
//! rules and `raw_box` for the pointer that a program in C holds. Its contracts promise for each
//! export the exact status for all arguments, and the result and the new devices by the device's
//! rules.
//!
//! # Design
//!
//! - The devices are stored for exactly the peers and MSI-X vectors of their world.
//! - Each export makes one call of `doorbell_irq`. Its contract cites that crate's definitions,
//!   for every list of events whose state is the device.
//! - All arguments are tested, except the pointers that a program in C passes.
//! - If each process has one guest, each has a handle of its own. `processes_apart_are_the_device`
//!   says which calls of other guests a process needs.
// tested: The header's match with the library, the stack of each call, and test vectors made by
//    `ivshm sim` (`checks/c_device`). The program above the library is in C, and no proof covers
//    it: `c/ivshm_device.h` says what it owes.
#![tactic(auto)]

mod calls;
mod crossing;
mod device_state;
mod entry_list;
mod exports;
mod handle;
mod laws;
mod peer_devices;
mod window;

pub use crossing::{Access, Effect, Message, Route, World};
pub use handle::DeviceHandle;
pub use laws::processes_apart_are_the_device;
