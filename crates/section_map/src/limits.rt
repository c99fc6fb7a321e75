//! The limits of a region's sizes.

/// The length in bytes of a page. Every size is a whole number of pages (profile).
pub const PAGE: u32 = 4_096;

/// The number of words of a page.
pub const PAGE_WORDS: u32 = 1_024;

/// The least number of peers of a region.
pub const LEAST_PEERS: u32 = 2;

/// The greatest number of peers of a region.
pub const MOST_PEERS: u32 = 65_536;

/// The greatest length in bytes of a region (profile).
pub const LARGEST_REGION: u32 = 16_777_216;

/// The greatest number of words of a region.
pub const REGION_WORDS: u32 = 4_194_304;
