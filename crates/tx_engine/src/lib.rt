//! The sender of a link's end. It frees the frames that the other end returned, and publishes a
//! frame, one access a step. The crate uses `frame_slots` for the descriptors and `call_grammar`
//! for the call grammar. Its contracts promise that an offer is an offer of the grammar, for all
//! values read.
//!
//! # Design
//!
//! - The sender stores the length of each frame in flight by its descriptor, because a frame is
//!   freed with its own length. The same holds in every version. So no code here depends on the
//!   version. For all values read, the numbers and the list of each sender are those of a session
//!   (`HasFlight`). For an end that the sender refines, they are the numbers of that end's session
//!   (`CountsMatch`).
//! - The slot is allocated after the reads, not at Accept. From there to the write of the index,
//!   one frame more is in flight than was accepted and not freed (`CountsPlaced`). While ids are
//!   read, the end has freed all frames that the used index reported, and the sender those whose
//!   ids it has read.
//! - Between two calls the contracts claim the counts only if a session is open. After a refused id
//!   the end has freed more frames than the sender. The State 0 that follows ends that session.
//! - The sender has its own copy of the words of the available entries, and never reads its own
//!   section. The number of these words is half the queue size. The queue size is a multiple of 64,
//!   so no word of an entry holds another field.
// tested: No memory is taken after `new`: tried by hand, with one allocation after the other
//    failing.
#![tactic(auto)]

mod ahead;
mod place;
mod tx;

pub use ahead::{Burst, Bursts, Publication};
pub use tx::{Tx, idle_engine_outlives_steps};
