//! Peers that run in threads of their own, over words that they share. A peer may be reset as it
//! runs.
//!
//! The words are those of `shared_words`, under its rule. For all stores of hostile threads, the
//! rule gives:
//!
//! - each access of an honest peer is the next one of its calls;
//! - the frames that an honest peer delivers in a session are the first ones that the other honest
//!   peer accepted in the session carried;
//! - each interrupt that is found was rung.
//!
//! `run_peers` gives the running record of a scenario of up to eight peers, by the lists of actions
//! that its pass has. It says nothing of an order between peers, and doesn't say that a peer makes
//! progress. `laws` states what the words and the lists show between any two accesses.
//!
//! The crate acts on the words by the single actions of `shared_words` alone. The crate uses
//! `link_endpoint` for the ends, and `link_invariant` and `pair_sessions` for the relation between
//! them. It uses `doorbell_irq` for the routes of doorbells, and `record_text` for the record of a
//! run.
//!
//! # Design
//!
//! - A doorbell at a peer in one-shot mode takes two turns if its clear found Interrupt Control
//!   set, else one. Between the two the step isn't done: the call of an automatic peer is open, and
//!   a storm stays at its draw.
//! - A call is quiet only if its one step is a read, so each doorbell has its line.
//! - Spans are counted in the turns of the own record (`Running`). So a reset is a turn, and one
//!   relation says which turn is next.
//! - The pairing of sessions is stated by the numbers in the lines, as the log of the link machine.
//!   The log has the sessions that are over, and the number that the present one carries.
// tested: That peers run at the same time (`checks/one_after_the_other`). Not said: the order in
//    which accesses were made, that a peer makes progress, that threads run at the same time.
#![tactic(auto)]

mod bells;
mod context;
mod doorbell_paths;
mod driving;
mod gate;
pub mod laws;
mod notes;
mod peers;
mod plans;
mod spans;
mod storms;
mod turns;

pub use driving::{Driver, PeerPlan, drive};
pub use gate::{Gate, OpenGate};
pub use peers::run_peers;
pub use shared_words::{
    Pass, Rule, RunSetup, View, Words, join_pass, learn, split_pass, words_for,
};
pub use spans::Spans;
