//! The split virtqueue of an output section: the offset of each field, the range of each foreign
//! field, and the steps over it. The crate uses `ivs_base` for numbers, `section_map` for the
//! greatest length of a region, and `arrayvec` for the notes of a step. Its contracts promise that
//! `specs/Layout` defines the queue size and each offset. They promise that a check refuses a value
//! exactly if it is outside the field's range in `specs/Ranges`.
//!
//! # Design
//!
//! - The version of the link is one of the queue's sizes. Every definition that has the queue has
//!   the version, and no call has it as an argument. Only a few functions of the layout depend on
//!   it: `has_events`, `is_byte_ring`, and through these `limit_of`, `start_of`, `footprint_of` and
//!   `has_room`.
//! - A slot is a field of every layout, even if the data area is a byte ring without slots.
//!   `slots_of` is the number of slots, `limit_of` the limit of frames in flight. So one law of the
//!   layout covers all versions.
//! - The place of a frame is a function of the lengths of its session's frames, by their numbers
//!   (`specs/Frames`). So the definition needs no list, and a frame is placed before it is
//!   accepted.
//! - The queue size is defined as the first of the seven sizes, from 4,096 down, that fits. A law
//!   says that it is the greatest power of two that fits.
//! - The sizes, the limit and the places of frames don't unfold by themselves (`unfoldable`), so
//!   goals in the crates above stay small. `HasBounds` holds what callers need of them.
//! - A `Queue` stores every number of its layout, and a contract sees the three from which they
//!   follow (`specs/Representation`). These three determine the value, so it can be `Copy` and have
//!   `==`.
//! - Each range is a fact and a test in `specs/Ranges`. The grammar of calls and the proofs above
//!   cite these. So a range is changed there and in its check.
//! - `specs/Spelling` defines the frame that the words of a foreign section hold at a position. It
//!   also defines the fields in the halves of a word, which the functions of `halves` return.
#![tactic(auto)]

mod faults;
mod halves;
mod layout;
mod ranges;
mod sizes;
pub mod steps;

pub use faults::QueueFault;
pub use halves::{desc_flags, entry_half, high_half, low_half, of_halves};
pub use layout::{Queue, frames_are_laid_out, queue_size_is_greatest, queues_are_laid_out};
pub use ranges::{FieldName, Refused, need_event, tests_decide_ranges};
pub use sizes::{
    FRAME_OVERHEAD, LEAST_MTU, LEAST_QUEUE, LONGEST_FRAME, MOST_MTU, MOST_QUEUE, SHORTEST_FRAME,
};
