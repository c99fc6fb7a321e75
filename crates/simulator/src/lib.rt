//! The world of a scenario, played event by event: words, devices, the ends of the link, and the
//! lines of the history. It uses `link_endpoint` for the ends, `doorbell_irq` for the devices and
//! `section_map` for the region. The contract of its `Simulator` promises that each event leads
//! from one state of the lawful history to the next one (`specs/Simulator`).
//!
//! # Design
//!
//! - The world state holds region, devices and lines, and each of its calls says how the three
//!   change together (`WorldStateAfter`). The words are those written last. The devices are in the
//!   state after the events of the lines. The number of interrupts that are still to be lost is
//!   exact. A peer state refines its peer in the computed history (`PeerStateRefines`).
//! - What the devices did is recorded in one place (`WorldState::record_line`). The State that they
//!   wrote goes into the peer's word of the State Table, and the line after the others. Every
//!   doorbell, State write and reset is handed to the device, even if no interrupt is enabled. So
//!   there is one path, and the device's rules alone decide.
//! - Lines may be drained. The definitions look back over all lines, but a simulator has words,
//!   devices and counts, so it needs no past line. `Output` has the lines that were drained, and
//!   the version of their record. Every contract holds for any output. A simulation in one piece
//!   drains no line, and a run drains all that it has passed on.
//! - The session marks are inserted in one place (`Log::push`), through which every line goes. The
//!   rest of the simulator knows the history without them. By one part of `IsLogOf` the output and
//!   the lines in the log are the lines of that history in a record of its version.
//! - The log counts sessions in 32 bits, and its contract holds as long as they suffice (`AreFew`).
//!   An event opens at most one session, and a scenario has at most 4,000,000 events. So they
//!   suffice, and no call of the simulator has a condition for a count.
#![tactic(auto)]

mod acts;
mod devices;
mod link;
mod log;
mod peer_state;
mod simulator;
mod world_state;

pub use peer_state::{PeerState, StormSizes};
pub use simulator::Simulator;
pub use world_state::WorldState;
