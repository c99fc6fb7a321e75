//! The map of a shared region: the sizes of its parts, the words that a peer may write, and the
//! region itself as words. The crate uses `ivs_base`. Its contracts promise that a geometry is made
//! exactly if its sizes are right. They promise that `may_write` is true exactly at the words of
//! the peer's own output section and of the common section. A write changes one of these words or
//! nothing.
//!
//! # Design
//!
//! - The view of a `Geometry` is a `Shape`, with all sizes in words. Each accessor also ensures
//!   `IsShape`, so that a caller learns from any call what `new` tested.
//! - `Geometry::new` has one relation for its faults, `IsFirstFault`: each fault holds exactly if
//!   its own test failed and every test before it passed. Together with `made`, `shape` and `pages`
//!   it determines the answer for all sizes.
//! - `Region::read` has the peer that reads as an argument, though every peer may read every word:
//!   the reader must be a peer of the region.
// tested: `Region::new` succeeds with ample memory.
#![tactic(auto)]

mod laws;
mod limits;
mod regions;
mod sizes;

pub use laws::{sections_are_apart, test_decides_writes};
pub use limits::{LARGEST_REGION, LEAST_PEERS, MOST_PEERS, PAGE, PAGE_WORDS, REGION_WORDS};
pub use regions::{Denied, Outside, Region};
pub use sizes::{Geometry, GeometryFault, Part, Section};
