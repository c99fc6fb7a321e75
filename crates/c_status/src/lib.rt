//! The statuses of both C libraries, and their numbers in C. The crate uses `section_map` for the
//! faults of a region's sizes. Its contracts promise the number of each status, that no two
//! statuses of one library have the same number, and the status of each fault.
#![tactic(auto)]

mod laws;
mod status;

pub use laws::numbers_determine_statuses;
pub use status::{Status, geometry_status};
