//! The limits of what the programs read.
use record_text::LONGEST_RECORD;
use scenario_text::{LONGEST_TEXT, MOST_LOAD};

/// The most bytes of a text that isn't a record (profile).
pub const TEXT_LIMIT: u64 = LONGEST_TEXT;

/// The most bytes of a record (profile).
pub const RECORD_LIMIT: u64 = LONGEST_RECORD;

/// The most frames of a load (profile).
pub const MOST_FRAMES: u64 = MOST_LOAD as u64;
