//! The link machine: the order in which marks, accesses and resets may follow one another on the
//! two sides of the link. Its rows depend on counts, lists and sessions alone, not on the region's
//! words. The crate uses `call_grammar` for the marks of a step. It has no code: its law is the
//! contract of a function with an empty body.
//!
//! # Design
//!
//! - A write of a side's State clears the value that the side saw. Otherwise a write after an old
//!   read, which no Tick makes, could open a second session while the other is still attached to
//!   the first. Then a delivered list would not be a beginning of an accepted one.
//! - The mark `full` has no frame. So its row says that a frame that may be offered doesn't fit,
//!   and that at most the limit of frames is in flight (`IsFull`). With slots this number is then
//!   the limit.
//! - The machine has the values that a side read since its last mark or reset, and no words or
//!   places. So the row of a refusal says what the range of its field says. It says so of the item
//!   and the address read, or of the used element of the offer. A read of an index needs one value,
//!   for a look and for a reclaim. A side that refused writes only 0 until its reset.
#![tactic(auto)]

ghost use Rattle.link_machine.specs.LinkMachine.{MachineDelivers};

/// Law: in a run of the link machine between two honest sides, each side delivers what the other
/// accepted. In every session the delivered frames are a beginning of the accepted ones, each once
/// and in order.
// claim: In a run of the link machine each end delivers a beginning of what was accepted, each
//    frame once and in order, through sessions. A refused value was read since the last mark and is
//    outside its field's range; a side that refused writes State 0 alone until its reset.
pub fn machine_delivers()
    ensures { MachineDelivers }
{}
