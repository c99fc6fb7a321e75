//! The limits of a run.

/// The most rounds of a run (profile).
pub const MOST_ROUNDS: u64 = 4_000;

/// The most frames of a text (profile).
pub const MOST_FRAMES: usize = 10_000;

/// The size of an output section of a port's region, in bytes: four pages (profile).
pub const PORT_OUT: u64 = 16_384;

/// The number of turns of each end of a port in a round (profile).
pub const TURNS: u32 = 64;
