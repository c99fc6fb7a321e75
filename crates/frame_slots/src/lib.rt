//! The allocator of an output section's data area. Each frame in flight has a descriptor and the
//! slot of that descriptor or, in a byte ring, bytes of the data area. The crate uses `split_ring`
//! for the layout. Its contracts promise that the descriptors are used in order, modulo the limit,
//! and that no frame gets a descriptor in flight. They promise that a frame is placed exactly if it
//! fits in its session.
//!
//! # Design
//!
//! - The view of a `Slots` is an `Allocator`: the queue's sizes, the next descriptor, the frames in
//!   flight, and three bytes of the data area. The descriptors in flight are the ones before the
//!   next one, so a descriptor that is placed isn't in flight (`alone`).
//! - In a byte ring the frames in flight are one run of bytes that wraps at the area's end at most
//!   once. Three numbers decide in constant time whether a frame fits. They are the start of the
//!   oldest frame (`head`), the end of the newest (`tail`), and that of the last before the wrap
//!   (`left`). With frames in flight the run has wrapped exactly if `tail <= head`, so no flag is
//!   stored. With slots the three numbers stay 0, because a frame has no byte of the ring
//!   (`ring_bytes`). The same test then depends on the count alone.
//! - The meaning of the numbers is a property of a session (`RefinesSession`). A session has the
//!   lengths of its frames by their numbers, and the counts of frames freed and placed.
//!   `allocator_refines_session` relates them to `has_room` and `start_of` of `split_ring`, in each
//!   version in the same words.
//! - `free` has the length of the oldest frame in flight as an argument. A `Slots` doesn't store
//!   it. The contract requires a session that the allocator refines and in which that frame has
//!   this length (`IsOldest`).
#![tactic(auto)]

mod slots;

pub use slots::{
    Place, Slot, Slots, allocator_refines_session, descriptors_are_reused_in_order, slots_are_apart,
};
