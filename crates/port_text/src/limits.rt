//! The limits of a schedule.
use scenario_text::MOST_ACTS;

/// The greatest number that a schedule's acts count for (profile).
pub const MOST_TURNS: u64 = MOST_ACTS;

/// The greatest size of a port's messages, in bytes (profile).
pub const LONGEST_MESSAGE: u32 = 65_536;
