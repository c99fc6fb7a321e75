//! The devices of a world's peers, as a hypervisor emulates them: configuration spaces, register
//! pages, MSI-X tables, and the interrupts of doorbells and State writes. It uses `pci_space` for
//! the spaces. Its contracts promise that each call has the effect of the device's rules after all
//! calls before it, for every peer, offset and state.
//!
//! # Design
//!
//! - A device refines a list of events, the newest first (`Refines`). For every list that the
//!   device refines, each call promises two things. Its result is that of the rules, and the new
//!   device refines the list with one more event. So a checker that has the list needs no device,
//!   and callers need only `Refines`.
//! - The rules are functions of that list. Each byte of a peer's spaces has its reset value, or the
//!   value of the newest event that wrote it. The code has arrays.
//! - The register page and an MSI-X entry are field tables, like the configuration space. One rule
//!   serves all three.
//! - `PeerDevice` is the device of one peer, generic in where its MSI-X table is stored
//!   (`MsixTable`). The calls of a whole device are functions over a slice of peer devices
//!   (`peers`). `Device` has an array of 8 peer devices with 64 vectors each. `ivshm_device` stores
//!   exactly the peers and vectors of its world.
//! - A doorbell triggers its target alone, and needs no list of deliveries (`peers::ring`). For
//!   State writes, resets and disconnections one loop over the peers gives the deliveries, in
//!   ascending order.
//! - `connect` is a reset that triggers no peer. Call it after `disconnect`.
//! - The view of a device is the registers of its peers. It is public because another crate that
//!   has a device in a variable needs the types of the view.
#![tactic(auto)]

mod device;
mod doorbell;
mod effect;
mod entries;
mod laws;
mod msix_table;
pub mod peers;
mod registers;
mod route;
mod trigger;

pub use device::Device;
pub use doorbell::{
    REGISTER_DOORBELL, REGISTER_STATE, doorbell_target, doorbell_vector, doorbell_word,
};
pub use effect::{Delivery, Effect};
pub use entries::{reset_all, write_at};
pub use laws::{
    doorbell_words_have_two_halves, one_shot_turns_interrupts_off, peers_apart_are_the_device,
    routes_decide_deliveries, state_is_what_was_written,
};
pub use msix_table::MsixTable;
pub use registers::{PeerDevice, entry_at_reset};
pub use route::Route;
