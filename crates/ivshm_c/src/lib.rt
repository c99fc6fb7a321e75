//! An end of the link for programs in C. The crate uses `link_endpoint` for the end and `pci_space`
//! for the walk over a device's configuration space. `raw_box` makes the pointer that a program in
//! C holds. Each export makes one call of an endpoint. Its contract restates the endpoint's
//! clauses: the exact answer for each argument, and the effect of the call. Arguments of a program
//! in C are tested, except the pointers themselves.
// tested: The header's match with the library, over each call and each answer but NO_MEMORY; two
//    processes; an end next to a hostile peer; a record of both ends that `ivshm replay` calls
//    `same`, also with bursts (`checks/c_library`). Kernel archives: no red zone, no vector
//    register, no more stack than the header says (`checks/c_kernel`). The ARM64 archive, under an
//    emulator (`checks/c_arm64`). The interface and the C sources (`checks/c_style`). The program
//    above the library is in C, and no proof covers it: `c/ivshm_c.h` says what it owes.
#![tactic(auto)]

mod calls;
mod counts;
mod crossing;
mod device;
mod end_state;
mod exports;
mod held;
mod laws;
mod tables;

pub use counts::Counts;
pub use crossing::{
    Access, Burst, Bursts, FrameReturn, Note, Notes, Publication, View, crossings_have_contracts,
};
pub use device::{Found, Layout, Limits};
pub use held::End;
pub use laws::sessions_follow_state;

#[cfg(test)]
mod acts;
#[cfg(test)]
mod tests;
