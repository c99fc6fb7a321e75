//! The history of a run, line by line, and the lawful histories of a scenario. `specs/Lawful`
//! combines the schedule, the memory law and the calls of each peer. The crate uses `scenario_text`
//! for scenarios and `call_grammar` for the calls. Its laws promise that a scenario has exactly one
//! lawful history, which `specs/History` computes.
//!
//! # Design
//!
//! - The definitions are over a `World`, the content of a scenario without the proof that it is
//!   well formed.
//! - A history consists of event records: an event, its step (or none), and the lines of the
//!   devices. Each property of a line has one function over all lines: `memory_effect_of` for its
//!   effect on words, `device_event_of` for its effect on the devices. Every definition uses only
//!   the result.
//! - All peers have the same definitions: a peer's event records are its calls in order. A peer
//!   that isn't an honest end of the link has no calls, because no act queues one for it. The
//!   definition requires that each event record belongs to a peer of the world; otherwise a
//!   stranger's event records would be arbitrary.
//! - The rules of a peer's calls are over its event records, not over a machine's state.
//!   `specs/Order` counts the calls queued since the last reset, and the rule of an automatic end
//!   (`choice_by_rule`) depends on the call before. The computed history stores a queue and a
//!   round. A law (`peers_keep_order`) says, event by event, that they are functions of the event
//!   records.
//! - The device's rules aren't restated: `specs/Device` turns the earlier lines into the events of
//!   `doorbell_irq`.
//! - There are the relation (`IsLawful`) and the computed history (`history`). In the relation only
//!   the memory law determines the value of a read. `history_is_lawful` relates the two, and
//!   `one_history` says that the relation has no other solution.
//! - Lines are defined here and not in `link_model`, because the simulator records lines and
//!   `link_model` uses the simulator.
#![tactic(auto)]

mod laws;
mod line;
mod same;

pub use laws::{
    cut_histories_begin, history_is_lawful, memory_is_kept, one_history, peers_keep_order,
    records_hold_one_history, versions_differ_in_marks,
};
pub use line::{Line, Lines};
