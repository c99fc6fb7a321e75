//! Sampling ports (profile): each peer publishes its latest message in its own output section, and
//! every peer may sample it. No peer waits for another.
//!
//! The crate uses `section_map` for the sections, `split_ring` and `call_grammar` for accesses and
//! steps, and `port_text` for schedules. A port performs no access. `next` returns the next access;
//! the caller performs it and passes the value read to `took`. The contracts promise that each
//! publish and each sample of a port is a call of `specs/Calls`, for all values handed to `took`.
//! They promise too that `ports` returns the one lawful history of a schedule.
#![tactic(auto)]

mod laws;
mod lines;
mod notes;
mod peer_state;
mod place;
mod port;
mod run;
mod simulator;
mod world_state;

pub use laws::{
    calls_are_lists, calls_are_permitted, fields_are_read_once, history_is_lawful,
    numbers_never_fall, one_history, ports_follow_calls, samples_are_published,
};
pub use notes::{PortFault, PortField, PortNote};
pub use port::Port;
pub use port_text::PortsFault;
pub use run::ports;
