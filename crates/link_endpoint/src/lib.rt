//! An end of the link (its handshake, its sender and its receiver) that makes one access a step, or
//! a burst of them. The automatic end also chooses its own calls. The crate uses `tx_engine` and
//! `rx_engine` for offers and polls, `link_handshake` for the phases, and `call_grammar` for the
//! call grammar. Its contracts promise that each call is a call of the grammar, for each end that
//! the endpoint refines. They promise the same of the choice of calls. `laws` holds what follows
//! for two ends.
//!
//! # Design
//!
//! - The view of an `Endpoint` is an `Engine`: its configuration, its phase, what it refused, its
//!   place, its sender and its receiver. An offer's place is the sender's, a poll's the receiver's.
//! - `Endpoint::offered` returns the frame offered last, from the endpoint's own copy. A caller
//!   that writes a history needs it at the Accept mark without a copy of its own, and `offer_again`
//!   offers it once more. It stays until another frame is offered.
//! - An `AutoEndpoint` is an end with its automatic choice, for the code that drives one over a
//!   memory. An end that may also be driven by queued calls has both apart, and uses `Auto::open`
//!   and `Auto::count`.
//! - `Auto::cut` restarts the round of an automatic end. A reset cuts the call that the end chose,
//!   and only the caller knows of the reset.
//! - An access is permitted without a condition, even if nothing is known of the values read: the
//!   invariant says that the endpoint refines an end.
//! - An automatic end counts deliveries up to the number expected, so no count overflows. The rule
//!   needs only whether that number is reached.
//! - A State step of READY resets sender and receiver, and so do the State step of a refusal and a
//!   device reset. The frame offered last and the frame delivered last stay through all of these
//!   (`renewed`).
//! - A doorbell has no word, so its order doesn't follow from a kind of word. The engines report a
//!   doorbell by `rings`.
// tested: No memory is taken after `Endpoint::new`: tried by hand, with one allocation after the
//    other failing.
#![tactic(auto)]

mod auto;
mod auto_endpoint;
mod endpoint;
pub mod laws;
mod order;
mod place;

pub use auto::{Auto, Choice};
pub use auto_endpoint::AutoEndpoint;
pub use endpoint::{Endpoint, endpoints_make_calls};
pub use order::{Order, Ordering};
pub use place::Call;
pub use rx_engine::{FrameReturn, NextRead};
pub use tx_engine::{Burst, Bursts, Publication};
