//! The limits of a scenario.

/// The greatest number that a scenario's acts count for (profile).
pub const MOST_ACTS: u64 = 4_000_000;

/// The most bytes of a scenario's text that a program reads (profile).
pub const LONGEST_TEXT: u64 = 16_777_216;

/// The most frames of a load (profile).
pub const MOST_LOAD: u32 = 80_000;

/// The number of steps in a turn line of a load (profile).
pub const LOAD_STEPS: u32 = 64;

/// The number of rounds of a load in addition to one for each three frames (profile).
pub const LOAD_ROUNDS: u32 = 200;

/// The size of an output section of a load, in bytes: four pages (profile).
pub const LOAD_OUT: u64 = 16_384;
