//! The limits of the link's sizes, in bytes if nothing else is said.

/// The shortest frame: the addresses and the type of an Ethernet frame.
pub const SHORTEST_FRAME: u32 = 14;

/// The number of bytes of a frame that the MTU doesn't count: addresses, type and one tag.
pub const FRAME_OVERHEAD: u64 = 18;

/// The least MTU.
pub const LEAST_MTU: u32 = 256;

/// The greatest MTU.
pub const MOST_MTU: u32 = 65_535;

/// The longest frame: the overhead and the greatest MTU.
pub const LONGEST_FRAME: u32 = 65_553;

/// The least queue size, in descriptors.
pub const LEAST_QUEUE: u32 = 64;

/// The greatest queue size, in descriptors.
pub const MOST_QUEUE: u32 = 4_096;
