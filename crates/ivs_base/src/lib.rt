//! The base of every crate of ivshm: numbers and words of the ring layout, Ethernet frames, and
//! sources and sinks of bytes. The crate uses `byteorder` and `thiserror` alone. Its contracts give
//! each number by its formula and a frame as the list of its bytes. For a whole read and a whole
//! write they say which bytes passed, and the reason if not all did.
//!
//! # Design
//!
//! - If the bytes of a source or sink are unknown, `Gave` and `Took` say nothing of them, as std's
//!   `Consumes` and `Appends` do. So the bytes of a reader can become known later. A field of its
//!   own (`Input`) says that a read found the end: so "read to its end" has a meaning for standard
//!   input too.
//! - A failed call consumes or writes no bytes, increments the fault count, and is recorded as the
//!   last call. So `read_all` and `write_whole` can promise that they make no call after a fault.
//! - A source that never fails says so (`never_fails`), and a sink has `room`, the number of bytes
//!   that it is sure to write. Sources and sinks in memory know these if no call is listed to fail;
//!   standard ones don't. So completeness in the crates above needs no fault count.
//! - `InputSource` and `OutputSink` are generic over std's `Read` and `Write`, and neither buffer
//!   nor flush.
//! - `Frame` has no `Clone`: `Frame::of(alloc, frame.bytes())` is the copy.
// tested: Calls succeed with ample memory. Trusted: the reads and writes of `std` over the C
//    library; `checks/statuses` and `checks/pipes` try both.
#![tactic(auto)]

mod ends;
mod frames;
mod memory_ends;
mod numbers;
mod standard_ends;

pub use ends::{Failed, ReadEnd, Sink, Source, WriteFault, read_all, write_whole};
pub use frames::{Frame, NoMemory};
pub use memory_ends::{MemorySink, MemorySource};
pub use numbers::{distance, plus, up64, word_of};
pub use standard_ends::{InputSource, OutputSink};
