//! The limit of a record's text.

/// The most bytes of a record's text that a program reads (profile).
pub const LONGEST_RECORD: u64 = 1_073_741_824;
