//! The receiver of a link's end. A poll delivers each frame that the other peer published once, and
//! returns it. The crate uses `split_ring` for the places of fields and the checks of foreign
//! values. The receiver performs no access: `next` returns the access, and the caller performs it
//! and passes the value read to `took`. The contracts promise the call grammar of `call_grammar`,
//! for each end that the receiver refines.
//!
//! # Design
//!
//! - Two buffers, allocated in `new`, are each as long as the longest frame that can pass the
//!   checks. One is for the frame being read, one for the frame delivered last. Words are stored
//!   into the first one by one. With the last word of a frame the two are swapped. Nothing is
//!   cleared or copied, so each step is constant work.
//! - The number of frames returned is stored modulo 65,536. Between Deliver and Return, one frame
//!   more is delivered than returned.
// tested: No memory is taken after `new`: tried by hand.
#![tactic(auto)]

mod ahead;
mod buffers;
mod fields;
mod place;
mod receiver;

pub use ahead::{FrameReturn, NextRead};
pub use receiver::{Rx, idle_engine_outlives_steps};
